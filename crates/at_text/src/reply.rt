//! Printing replies.
#![tactic(auto, using(crate::proofs::Printing::then_texts))]

ghost use Rattle.std.specs.Prelude.{◌++◌, codes, decimal};
ghost use Rattle.at_text.specs.Lines.{hook_word, made_text, reply_text, line_reply_text};
ghost use Rattle.at_text.specs.Prints.{Prints};
ghost use Rattle.at_text.specs.Values.{text_at, classes_text, value_text, value_item};

use crate::pen::Pen;
use crate::value::{put_class, put_classes, put_func, put_object, put_value, put_value_item};
use crate::words::{INIT, ReplyWord, hook_text};
use at_line::LineReply;
use at_script::Script;
use at_source::Sink;
use at_value::{Class, ClassList, Func, HookKind, Obj, Reply, Value};

fn put_made<K: Sink>(pen: &mut Pen<'_, K>, names: &Script, object: Obj, init: &Option<Value>)
    ensures { Prints pen.old pen.new (made_text names.now object init.now) }
{
    pen.write(ReplyWord::Made.text());
    put_object(pen, object);
    if let Some(init) = init {
        pen.write(INIT);
        put_value(pen, names, init);
    }
}

fn put_value_reply<K: Sink>(pen: &mut Pen<'_, K>, names: &Script, value: &Value)
    ensures { Prints pen.old pen.new (codes "value " ++ value_text names.now value.now) }
{
    pen.write(ReplyWord::Value.text());
    put_value(pen, names, value);
}

fn put_method<K: Sink>(pen: &mut Pen<'_, K>, names: &Script, func: Func, first: &Value)
    ensures { Prints pen.old pen.new
        (codes "method " ++ text_at names.now.funcs func ++ value_item names.now first.now) }
{
    pen.write(ReplyWord::Method.text());
    put_func(pen, names, func);
    put_value_item(pen, names, first);
}

fn put_hook<K: Sink>(pen: &mut Pen<'_, K>, kind: HookKind)
    ensures { Prints pen.old pen.new (codes "hook " ++ hook_word kind) }
{
    pen.write(ReplyWord::Hook.text());
    pen.write(hook_text(kind));
}

fn put_order<K: Sink>(pen: &mut Pen<'_, K>, names: &Script, order: &ClassList)
    ensures { Prints pen.old pen.new (codes "order" ++ classes_text names.now order.now) }
{
    pen.write(ReplyWord::Order.text());
    put_classes(pen, names, order);
}

fn put_no_order<K: Sink>(pen: &mut Pen<'_, K>, names: &Script, class: Class)
    ensures { Prints pen.old pen.new (codes "noorder " ++ text_at names.now.classes class) }
{
    pen.write(ReplyWord::NoOrder.text());
    put_class(pen, names, class);
}

/// Prints a reply of the data model.
pub fn put_reply<K: Sink>(pen: &mut Pen<'_, K>, names: &Script, reply: &Reply)
    ensures { Prints pen.old pen.new (reply_text names.now reply.now) }
{
    match reply {
        Reply::Value(value) => put_value_reply(pen, names, value),
        Reply::Done => pen.write(ReplyWord::Done.text()),
        Reply::NoAttr => pen.write(ReplyWord::NoAttr.text()),
        Reply::Method(func, first) => put_method(pen, names, *func, first),
        Reply::Made(object, init) => put_made(pen, names, *object, init),
        Reply::Hook(kind, callee, receiver, other, value) => {
            put_hook(pen, *kind);
            put_value_item(pen, names, callee);
            put_value_item(pen, names, receiver);
            put_value_item(pen, names, other);
            put_value_item(pen, names, value);
        }
        Reply::Order(order) => put_order(pen, names, order),
        Reply::NoGetter => pen.write(ReplyWord::NoGetter.text()),
        Reply::NoSetter => pen.write(ReplyWord::NoSetter.text()),
        Reply::NoDeleter => pen.write(ReplyWord::NoDeleter.text()),
        Reply::NoClass => pen.write(ReplyWord::NoClass.text()),
        Reply::NameTaken => pen.write(ReplyWord::NameTaken.text()),
        Reply::EmptyBases => pen.write(ReplyWord::EmptyBases.text()),
        Reply::Duplicate => pen.write(ReplyWord::Duplicate.text()),
        Reply::Cycle => pen.write(ReplyWord::Cycle.text()),
        Reply::NoOrder(class) => put_no_order(pen, names, *class),
        Reply::Immutable => pen.write(ReplyWord::Immutable.text()),
        Reply::NotSubclass => pen.write(ReplyWord::NotSubclass.text()),
        Reply::Full => pen.write(ReplyWord::Full.text()),
    }
}

fn put_suspended<K: Sink>(pen: &mut Pen<'_, K>, times: u32)
    ensures { Prints pen.old pen.new (codes "suspended " ++ decimal times) }
{
    pen.write(ReplyWord::Suspended.text());
    pen.number(u64::from(times));
}

/// Prints the reply of a line.
pub fn put_line_reply<K: Sink>(pen: &mut Pen<'_, K>, names: &Script, reply: &LineReply)
    ensures { Prints pen.old pen.new (line_reply_text names.now reply.now) }
{
    match reply {
        LineReply::Of(reply) => put_reply(pen, names, reply),
        LineReply::Kept => pen.write(ReplyWord::Kept.text()),
        LineReply::Suspended(times) => put_suspended(pen, *times),
    }
}
