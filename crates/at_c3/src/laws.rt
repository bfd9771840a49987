//! What is true of every merge and of every order. Each function does nothing: its contract is
//! the law.
ghost use Rattle.at_c3.specs.Laws.{MergeIsTheRelation, MergeHasEachNumberOnce, MergePreservesEveryOrder};
ghost use Rattle.at_c3.specs.Laws.{OrderBeginsWithItsClass, OrderPreservesEveryOrder};

/// The merge is the list that the relation of the C3 paper allows, and there is none where it
/// allows none.
pub fn merge_is_the_relation()
    ensures { MergeIsTheRelation }
{}

/// A merge has each number once, and exactly the numbers that stand in some list.
pub fn merge_has_each_number_once()
    ensures { MergeHasEachNumberOnce }
{}

/// A merge has the numbers of every list in that list's order.
pub fn merge_preserves_every_order()
    ensures { MergePreservesEveryOrder }
{}

/// An order begins with its class and goes on with the merge; it has the class only there
/// where the class stands in none of the lists.
pub fn order_begins_with_its_class()
    ensures { OrderBeginsWithItsClass }
{}

/// An order has the bases in the order of their list (local precedence order), and the classes of
/// each base's order in that order (monotonicity).
pub fn order_preserves_every_order()
    ensures { OrderPreservesEveryOrder }
{}
