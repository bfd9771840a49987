//! The replies, orders and own names of `Types` are those of `Plain`, on 4,845 random graphs of classes from fixed
//! seeds: 969 graphs a test.

ghost use Rattle.std.specs.Prelude.{◌<◌};

use at_types::Types;
use at_value::{Bases, Class, Name, Obj, Op, Reply, Value};
use at_world::Plain;
use std::alloc::AllocError;
use std::process::Abort;
use std::test::Fail;

/// How many graphs a test makes.
const GRAPHS: u32 = 969;

/// How many operations make one graph.
const OPERATIONS: u32 = 24;

/// How many classes the operations name, `object` among them.
const CLASSES: u16 = 9;

/// Numbers of a linear congruential generator (Knuth, "The Art of Computer Programming", volume 2, section 3.3.4).
#[derive(Drop)]
struct Random {
    seed: u32,
}

impl Random {
    /// The next number, below the bound.
    fn below(&mut self, bound: u16) -> u16
        requires { 0 < bound }
        ensures { result < bound }
    {
        self.seed = self
            .seed
            .wrapping_mul(1_664_525)
            .wrapping_add(1_013_904_223);
        ((self.seed >> 16) as u16) % bound
    }

    fn class(&mut self) -> Class {
        Class::new(self.below(CLASSES)).unwrap_or(Class::object())
    }

    /// A class, mostly one that is made.
    fn made(&mut self, types: &Types) -> Class {
        for _ in 0..6 {
            let c = self.class();
            if types.is_made(c) {
                return c;
            }
        }
        self.class()
    }

    /// Mostly one or two bases that are made.
    fn bases(&mut self, types: &Types) -> Bases {
        let mut bases = Bases::none();
        let many = match self.below(8) {
            0 => 0,
            1..=3 => 1,
            4..=6 => 2,
            _ => 3,
        };
        for _ in 0..many {
            let _ = bases.push(self.made(types));
        }
        bases
    }

    fn value(&mut self) -> Value {
        match self.below(3) {
            0 => Value::Class(self.class()),
            1 => Obj::new(0).map_or(Value::Nothing, Value::Obj),
            _ => Value::Int(7),
        }
    }

    fn operation(&mut self, types: &Types) -> Op {
        let name = Name::new(5 + self.below(2)).unwrap_or(Name::init());
        match self.below(10) {
            0..=4 => Op::NewClass(self.class(), self.bases(types)),
            5..=7 => Op::SetBases(self.made(types), self.bases(types)),
            8 => Op::TypeSet(self.made(types), name, self.value()),
            _ => Op::TypeDel(self.made(types), name),
        }
    }
}

/// What the reply to an operation on classes would be.
fn would(types: &Types, op: &Op) -> Result<Option<Reply>, AllocError> {
    match op {
        Op::NewClass(_, _) | Op::TypeSet(_, _, _) | Op::TypeDel(_, _) | Op::SetBases(_, _) => Ok(
            Some(types.would(op)?),
        ),
        _ => Ok(None),
    }
}

/// The reply to an operation on classes.
fn apply(types: &mut Types, op: &Op) -> Result<Option<Reply>, AllocError> {
    Ok(Some(match op {
        Op::NewClass(c, bases) => types.define(*c, bases)?,
        Op::TypeSet(c, n, v) => types.put(*c, *n, *v)?,
        Op::TypeDel(c, n) => types.cut(*c, *n),
        Op::SetBases(c, bases) => types.rebase(*c, bases)?,
        _ => return Ok(None),
    }))
}

/// Applies an operation to both, and compares their replies as they are printed for debugging.
fn step<R: Abort + AllocGlobal>(
    rt: &R,
    types: &mut Types,
    plain: &mut Plain,
    op: &Op,
) -> Result<(), Fail> {
    let would = format!(in rt.alloc(); "{:?}", would(types, op)?)?;
    let reply = format!(in rt.alloc(); "{:?}", apply(types, op)?)?;
    let wanted = format!(in rt.alloc(); "{:?}", Some(plain.apply(op)?))?;
    assert_eq!(rt; would.as_str(), wanted.as_str(), "would {op:?}");
    assert_eq!(rt; reply.as_str(), wanted.as_str(), "{op:?}");
    Ok(())
}

/// Compares the orders and the own names of the classes that are made.
fn have_same_classes<R: Abort + AllocGlobal>(
    rt: &R,
    types: &Types,
    plain: &Plain,
) -> Result<(), Fail> {
    let last = plain.last()?;
    let mut made = 0;
    for i in 0..CLASSES {
        let Some(c) = Class::new(i) else {
            return Ok(());
        };
        let Some(order) = types.order_of(c) else {
            continue;
        };
        let end = last.classes.at(made).ok_or("a class more")?;
        assert_eq!(rt; end.class, c);
        let text = format!(in rt.alloc(); "{order:?}")?;
        let wanted = format!(in rt.alloc(); "{:?}", end.order)?;
        assert_eq!(rt; text.as_str(), wanted.as_str());
        for j in 0..3usize {
            assert_eq!(rt; types.own_at(c, j), end.own.at(j));
        }
        made += 1;
    }
    assert_eq!(rt; made, last.classes.len());
    Ok(())
}

/// Makes graphs from a seed on, and compares what both make of each.
fn compare<R: Abort + AllocGlobal>(rt: &R, seed: u32) -> Result<(), Fail> {
    let mut random = Random { seed };
    for _ in 0..GRAPHS {
        let mut types = Types::new(rt.alloc(), 0)?;
        let mut plain = Plain::new(rt.alloc())?;
        for _ in 0..OPERATIONS {
            let op = random.operation(&types);
            step(rt, &mut types, &mut plain, &op)?;
        }
        have_same_classes(rt, &types, &plain)?;
    }
    Ok(())
}

#[test]
fn the_first_graphs_are_those_of_the_plain_model(rt: HostRuntime) -> Result<(), Fail> {
    compare(&rt, 1)
}

#[test]
fn the_second_graphs_are_those_of_the_plain_model(rt: HostRuntime) -> Result<(), Fail> {
    compare(&rt, 2)
}

#[test]
fn the_third_graphs_are_those_of_the_plain_model(rt: HostRuntime) -> Result<(), Fail> {
    compare(&rt, 3)
}

#[test]
fn the_fourth_graphs_are_those_of_the_plain_model(rt: HostRuntime) -> Result<(), Fail> {
    compare(&rt, 4)
}

#[test]
fn the_fifth_graphs_are_those_of_the_plain_model(rt: HostRuntime) -> Result<(), Fail> {
    compare(&rt, 5)
}
