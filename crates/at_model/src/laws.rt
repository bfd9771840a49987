//! What is true of every order and of every world. Each function does nothing: its contract is the law.
ghost use Rattle.at_model.specs.Laws.{OrdersAreMerges, OrdersAreUnique, OrdersAreLinearizations, StepsKeepWellFormed};
ghost use Rattle.at_model.specs.Laws.{ReplaysAreWellFormed, OnlyWritesChangeWorlds, OpeningIsWellFormed};
ghost use Rattle.at_model.specs.Laws.{ReadsAreNoWrites};

/// The order of a class is the class, and then the merge of the orders of its bases and of the list of its bases; in a
/// well-formed world no other orders are so. An order begins with its class. It has the class and the classes above
/// it, and no other, each once. It preserves the order in which each of its classes lists its bases (local
/// precedence), and the order of each of its classes (monotonicity): the properties of a linearization in Barrett and
/// others, "A Monotonic Superclass Linearization for Dylan" (1996).
pub fn order_laws()
    ensures merges { OrdersAreMerges }
    ensures unique { OrdersAreUnique }
    ensures linearization { OrdersAreLinearizations }
{}

/// Each operation leads from a well-formed world to a well-formed one, whatever it replies.
pub fn step_keeps_well_formed()
    ensures { StepsKeepWellFormed }
{}

/// Every list of operations leads from a well-formed world, such as the opening one, to a well-formed one: each class,
/// object and dictionary that is named is there, no list of bases has a repeat, no class stands above itself, each
/// class has an order, and names rise.
pub fn replay_is_well_formed()
    ensures replay { ReplaysAreWellFormed }
    ensures opening { OpeningIsWellFormed }
{}

/// An operation that isn't a write leaves the world as it is: each refusal, and each read, which is never a write.
pub fn only_writes_change_worlds()
    ensures unchanged { OnlyWritesChangeWorlds }
    ensures reads { ReadsAreNoWrites }
{}
