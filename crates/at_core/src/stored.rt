//! What the slots of the shared table hold.
use at_dict::Body;
use at_types::Types;

/// The value of a slot: that of slot 0 is the types, behind one pointer, since each slot has the size of the largest
/// value; each further one has the dictionary of a row.
#[derive(Drop)]
pub enum Stored {
    Types(Box<Types>),
    Body(Body),
}
