//! What is true of lists of lines and of their histories. Each function does nothing: its contract is the law.
ghost use Rattle.at_line.specs.Laws.{HistoriesAreUnique, HistoriesCountWrites, PlacedWritesAreHistories};
ghost use Rattle.at_line.specs.Laws.{LegalHistoriesAreProper, OneThreadIsInOrder, OneThreadIsKept, OneThreadIsSerial};
ghost use Rattle.at_line.specs.Laws.{SerialLinesAreKept, SerialLinesAreLinearized, TurnsAreByLine};

/// Lines that were each done at the end of the history so far are linearized, whatever the limits, where their threads
/// stand in the order in which they run, none of the lines names a limit, and the sections of a thread that runs alone
/// are kept. The history of the list is what the lines lead to. Lines of one thread are in order.
pub fn serial_lines_are_linearized()
    ensures linearized { SerialLinesAreLinearized }
    ensures one_thread { OneThreadIsInOrder }
{}

/// Where the threads stand in the order in which they run, lines are in turn exactly where each line is after those
/// before it: so the first line that isn't can be named.
pub fn turns_are_by_line()
    ensures { TurnsAreByLine }
{}

/// Linearized lines of one thread were done one after another, each at the end of the history so far: a write at the
/// place after it, another operation at its last place. From the empty history they lead to the history of the list.
pub fn one_thread_is_serial()
    ensures { OneThreadIsSerial }
{}

/// A list of lines has one history, which has as many operations as the list has writes. It has one exactly where each
/// write has a place of its own, from 1 up to their count.
pub fn histories_are_unique()
    ensures unique { HistoriesAreUnique }
    ensures count { HistoriesCountWrites }
    ensures placed { PlacedWritesAreHistories }
{}

/// The history of a legal list of lines is proper: each of its operations is a write at its point.
pub fn legal_histories_are_proper()
    ensures { LegalHistoriesAreProper }
{}

/// The sections of lines that are all of one thread are kept, since no other thread writes, and so are those of
/// threads that run one after another.
pub fn one_thread_is_kept()
    ensures one_thread { OneThreadIsKept }
    ensures serial { SerialLinesAreKept }
{}
