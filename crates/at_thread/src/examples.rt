//! Lines that may stand in the place of an operation, and replies that it may have.
ghost use Rattle.std.specs.Prelude.{◌≡◌, true, false};
ghost use Rattle.std.specs.List.{list_all, list_any};
ghost use Rattle.at_line.specs.declared.line.Local.TheVariants as locals;
ghost use Rattle.at_thread.specs.Executions.{can_reply, stands_for};
ghost use Rattle.at_thread.specs.AnswerExamples.{each_operation, full_there, full_not_there, worn_there};
ghost use Rattle.at_thread.specs.AnswerExamples.{worn_not_there, own_lines, replies_there, replies_not_there};

/// Lines that may stand in the place of an operation, and lines that may not: that the history has no room, for each
/// write and no other; that a head can't be written any more, for each write of an object and no other; and no other
/// line for any.
pub fn lines_in_place_of_operations()
    ensures full { list_all (λ o. stands_for o (locals.Full 4)) full_there ≡ true }
    ensures not_full { list_any (λ o. stands_for o (locals.Full 4)) full_not_there ≡ false }
    ensures worn { list_all (λ o. stands_for o (locals.Worn 6)) worn_there ≡ true }
    ensures not_worn { list_any (λ o. stands_for o (locals.Worn 6)) worn_not_there ≡ false }
    ensures no_other { list_any (λ l. list_any (λ o. stands_for o l) each_operation) own_lines ≡ false }
{}

/// Replies that operations, the begin and the end of a section may have, and replies that they may not have.
pub fn replies_of_operations()
    ensures there { list_all (λ r. can_reply r.0 r.1) replies_there ≡ true }
    ensures not_there { list_any (λ r. can_reply r.0 r.1) replies_not_there ≡ false }
{}
