//! The names of classes' own.
ghost use Rattle.std.specs.Prelude.{◌≡◌, ◌<◌, IsOk, IsSome, OnOk, OnErr, length};
ghost use Rattle.at_value.specs.Widths as widths;
ghost use Rattle.at_value.specs.Pairs.{value_at};
ghost use Rattle.at_model.specs.World.{own_of, row_of};
ghost use Rattle.at_types.specs.ClassSteps.{with_name, without_name};

use super::Classes;
use at_model::ClassRow;
use at_value::{Class, Name, Value};
use std::alloc::AllocError;

impl Classes {
    /// Puts the value under the name of a class's own, where the class is made.
    pub(crate) fn put(&mut self, c: Class, n: Name, v: Value) -> Result<(), AllocError>
        ensures ok { OnOk result (self.new ≡ with_name self.old c n v) }
        ensures err { OnErr result (self.new ≡ self.old) }
        ensures there { IsSome (value_at n (own_of (row_of self.old c))) → IsOk result }
    {
        put_own(&mut self.rows, c, n, v)?;
        Ok(())
    }

    /// Takes the name from those of a class's own.
    pub(crate) fn cut(&mut self, c: Class, n: Name)
        ensures { self.new ≡ without_name self.old c n }
    {
        cut_own(&mut self.rows, c, n);
    }
}

fn put_own(rows: &mut [Option<ClassRow>], c: Class, n: Name, v: Value) -> Result<(), AllocError>
    requires { length rows.old ≡ widths.classes }
    ensures ok { OnOk result (rows.new ≡ with_name rows.old c n v) }
    ensures err { OnErr result (rows.new ≡ rows.old) }
    ensures there { IsSome (value_at n (own_of (row_of rows.old c))) → IsOk result }
{
    match &mut rows[usize::from(c.number())] {
        Some(row) => {
            row.own.put(n, v)?;
            Ok(())
        }
        None => Ok(()),
    }
}

fn cut_own(rows: &mut [Option<ClassRow>], c: Class, n: Name)
    requires { length rows.old ≡ widths.classes }
    ensures { rows.new ≡ without_name rows.old c n }
{
    if let Some(row) = &mut rows[usize::from(c.number())] {
        let _ = row.own.cut(n);
    }
}
