//! The final namespaces of the world.
ghost use Rattle.std.specs.Prelude.{◌≡◌, IfOk, Some, map};
ghost use Rattle.at_model.specs.World as world;
ghost use Rattle.at_model.specs.Final.{final_of, class_ends, object_end, order_or_empty};

use super::Plain;
use at_model::{ClassEnd, ClassRow, Final, ObjEnd};
use at_value::{Class, ClassList, Pairs, Sequence};
use std::alloc::AllocError;

impl Plain {
    /// The final namespaces: of each class that is made, by number, its order and its own names with their values, and
    /// of each object, by number, its class and the names of its dictionary. The one error is out of memory.
    pub fn last(&self) -> Result<Final, AllocError>
        ensures { IfOk result (λ last. last ≡ final_of self.now.world) }
    {
        let classes = Sequence::of(self.class_ends()?);
        let objects = Sequence::of(self.object_ends()?);
        Ok(Final { classes, objects })
    }

    fn class_ends(&self) -> Result<Vec<ClassEnd>, AllocError>
        ensures { IfOk result (λ ends. ends.items ≡ class_ends self.now.world 0 self.now.world.classes) }
    {
        let mut ends = Vec::new(self.alloc);
        for i in 0..self.classes.len() {
            let Some(c) = Class::new(i as u16) else {
                return Ok(ends);
            };
            if let Some(row) = &self.classes[i] {
                ends.push(self.class_end(c, row)?)?;
            }
        }
        Ok(ends)
    }

    fn class_end(&self, c: Class, row: &ClassRow) -> Result<ClassEnd, AllocError>
        requires { world.row_of self.now.world.classes c ≡ Some row.now }
        ensures { IfOk result (λ end. end ≡ record {
          class = c;
          order = order_or_empty (world.order_of self.now.world c);
          own = row.now.own;
        }) }
    {
        let order = match self.order_list(c)? {
            Some(order) => order,
            None => ClassList::copy_of(self.alloc, &[])?,
        };
        Ok(ClassEnd {
            class: c,
            order,
            own: row.own.copy(self.alloc)?,
        })
    }

    fn object_ends(&self) -> Result<Vec<ObjEnd>, AllocError>
        ensures { IfOk result (λ ends. ends.items ≡ map (object_end self.now.world) self.now.world.objects) }
    {
        let mut ends = Vec::with_capacity(self.alloc, self.objects.len())?;
        for object in &self.objects {
            let own = match self.dicts.get(usize::from(object.dict.number())) {
                Some(dict) => dict.copy(self.alloc)?,
                None => Pairs::new(self.alloc),
            };
            ends.push(ObjEnd {
                class: object.class,
                own,
            })?;
        }
        Ok(ends)
    }
}
