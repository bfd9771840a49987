//! Printing the final namespaces.
#![tactic(auto, using(crate::proofs::Printing::then_texts))]

ghost use Rattle.std.specs.Prelude.{◌≡◌, slice_get};
ghost use Rattle.std.specs.List.{flat_map};
ghost use Rattle.at_text.specs.Last.{pair_text, own_text, class_end_text, object_end_text, object_ends_text};
ghost use Rattle.at_text.specs.Order.{AreKeys};
ghost use Rattle.at_text.specs.Prints.{Prints, item_text};
ghost use Rattle.at_text.specs.Transcript.{final_text};

use crate::order::ByBytes;
use crate::pen::Pen;
use crate::value::{put_class, put_class_item, put_classes, put_name, put_value_item};
use crate::words::{END, FINAL, OBJECT, OpWord};
use at_model::{ClassEnd, ClassEnds, Final, ObjEnd, ObjEnds};
use at_script::Script;
use at_source::Sink;
use at_value::{Name, Pairs, Value};

fn put_pair<K: Sink>(pen: &mut Pen<'_, K>, names: &Script, name: Name, value: &Value)
    ensures { Prints pen.old pen.new (pair_text names.now (name, value.now)) }
{
    pen.write(b".");
    put_name(pen, names, name);
    put_value_item(pen, names, value);
    pen.write(b"\n");
}

fn put_own<K: Sink>(pen: &mut Pen<'_, K>, names: &Script, order: &mut ByBytes, own: &Pairs)
    requires { AreKeys names.now.names order.old.keys }
    ensures text { Prints pen.old pen.new (own_text names.now own.now) }
    ensures keys { order.new.keys ≡ order.old.keys }
{
    order.sort(own);
    for entry in order.entries() {
        put_pair(pen, names, entry.1, &entry.2);
    }
}

fn put_class_end<K: Sink>(pen: &mut Pen<'_, K>, names: &Script, order: &mut ByBytes, end: &ClassEnd)
    requires { AreKeys names.now.names order.old.keys }
    ensures text { Prints pen.old pen.new (class_end_text names.now end.now) }
    ensures keys { order.new.keys ≡ order.old.keys }
{
    pen.write(OpWord::Class.text());
    put_class(pen, names, end.class);
    pen.write(b" =");
    put_classes(pen, names, &end.order);
    pen.write(b"\n");
    put_own(pen, names, order, &end.own);
}

fn put_object_end<K: Sink>(
    pen: &mut Pen<'_, K>,
    names: &Script,
    order: &mut ByBytes,
    number: usize,
    end: &ObjEnd,
)
    requires { AreKeys names.now.names order.old.keys }
    ensures text { Prints pen.old pen.new (object_end_text names.now number end.now) }
    ensures keys { order.new.keys ≡ order.old.keys }
{
    pen.write(OBJECT);
    pen.number(number as u64);
    put_class_item(pen, names, end.class);
    pen.write(b"\n");
    put_own(pen, names, order, &end.own);
}

fn put_class_end_at<K: Sink>(
    pen: &mut Pen<'_, K>,
    names: &Script,
    order: &mut ByBytes,
    ends: &ClassEnds,
    i: usize,
)
    requires { AreKeys names.now.names order.old.keys }
    ensures text { Prints pen.old pen.new (item_text (class_end_text names.now) (slice_get ends.now i)) }
    ensures keys { order.new.keys ≡ order.old.keys }
{
    if let Some(end) = ends.at(i) {
        put_class_end(pen, names, order, end);
    }
}

fn put_class_ends<K: Sink>(
    pen: &mut Pen<'_, K>,
    names: &Script,
    order: &mut ByBytes,
    ends: &ClassEnds,
)
    requires { AreKeys names.now.names order.old.keys }
    ensures text { Prints pen.old pen.new (flat_map (class_end_text names.now) ends.now) }
    ensures keys { order.new.keys ≡ order.old.keys }
{
    for i in 0..ends.len() {
        put_class_end_at(pen, names, order, ends, i);
    }
}

fn put_object_end_at<K: Sink>(
    pen: &mut Pen<'_, K>,
    names: &Script,
    order: &mut ByBytes,
    ends: &ObjEnds,
    number: usize,
)
    requires { AreKeys names.now.names order.old.keys }
    ensures text { Prints pen.old pen.new (item_text (object_end_text names.now number) (slice_get ends.now number)) }
    ensures keys { order.new.keys ≡ order.old.keys }
{
    if let Some(end) = ends.at(number) {
        put_object_end(pen, names, order, number, end);
    }
}

fn put_object_ends<K: Sink>(
    pen: &mut Pen<'_, K>,
    names: &Script,
    order: &mut ByBytes,
    ends: &ObjEnds,
)
    requires { AreKeys names.now.names order.old.keys }
    ensures text { Prints pen.old pen.new (object_ends_text names.now 0 ends.now) }
    ensures keys { order.new.keys ≡ order.old.keys }
{
    for number in 0..ends.len() {
        put_object_end_at(pen, names, order, ends, number);
    }
}

/// Prints the final namespaces.
pub fn put_final<K: Sink>(pen: &mut Pen<'_, K>, names: &Script, order: &mut ByBytes, last: &Final)
    requires { AreKeys names.now.names order.old.keys }
    ensures { Prints pen.old pen.new (final_text names.now last.now) }
{
    pen.write(FINAL);
    put_class_ends(pen, names, order, &last.classes);
    put_object_ends(pen, names, order, &last.objects);
    pen.write(END);
}
