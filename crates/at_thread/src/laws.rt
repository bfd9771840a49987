//! Laws of executions: what holds of every one. Each does nothing.
ghost use Rattle.at_thread.specs.Laws.{RepliesDetermineExecutions, ExecutionsAreShort, NumbersHaveNoGap};
ghost use Rattle.at_thread.specs.Laws.{OwnLinesNameNoLimit};

/// Two executions from one state, whose operations have the same places, paths and replies, are the same list of lines
/// and end alike: the script and the replies determine the rest.
pub fn replies_determine_executions()
    ensures { RepliesDetermineExecutions }
{}

/// An execution of a block has at most two lines a statement begun, and one more; and no more statements are begun than
/// the script allows.
pub fn executions_are_short()
    ensures { ExecutionsAreShort }
{}

/// In a run of a script the lines of each thread, in the order in which they stand, are numbered from 1 without a gap.
pub fn numbers_have_no_gap()
    ensures { NumbersHaveNoGap }
{}

/// What a thread says by itself names no limit of the world: a line that a place or a head has come to its limit stands
/// only in the place of an operation.
pub fn own_lines_name_no_limit()
    ensures { OwnLinesNameNoLimit }
{}
