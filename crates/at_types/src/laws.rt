//! What is true of every state and of every order. Each function does nothing: its contract is the law.
ghost use Rattle.at_types.specs.Laws.{RestIsAbove, OpenedStands, RefusalsChangeNothing, AllLookUpsStand, ObjectsAreCounted};
ghost use Rattle.at_types.specs.Calls.{EveryRunStands};

/// Each class of an order but its first stands in the order of a base of the first. So what leaves the finds of the
/// bases of a class leaves its own, where its own names stay.
pub fn order_law()
    ensures { RestIsAbove }
{}

/// A new `Types` stands for the opening world. What is refused changes nothing. In each world that a `Types` stands for,
/// orders and what is found are those that it gives, and an object that is made is the next that it counts.
pub fn standing_laws()
    ensures opened { OpenedStands }
    ensures refusals { RefusalsChangeNothing }
    ensures look_ups { AllLookUpsStand }
    ensures objects { ObjectsAreCounted }
{}

/// Whatever is called on a new `Types`, and whatever operations on objects are done beside, it stands for the world
/// after the operations: each reply is that of the data model at its point of the history, the orders and what is found
/// are those of the world, and what is true of every `Types` is true.
pub fn run_law()
    ensures { EveryRunStands }
{}
