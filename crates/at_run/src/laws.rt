//! Laws of runs: what holds of every one. Each does nothing: its contract is the law.
ghost use Rattle.at_run.specs.Laws.{SerialRunsAreEvents, SerialRunsAreLinearized, SerialRunsAreOne, PlainRunsAreOne};
ghost use Rattle.at_run.specs.Laws.{LegalRunsOfOneBlockAreSerial};

/// A run in which one line is done after another is one list of reads and writes of one view, with the begins and ends
/// of sections and the local lines between them.
pub fn serial_runs_are_events()
    ensures { SerialRunsAreEvents }
{}

/// A run in which one line is done after another, block by block, of a script with at most 32 threads, is linearized
/// by its places, and its sections are kept.
pub fn serial_runs_are_linearized()
    ensures { SerialRunsAreLinearized }
{}

/// A script has at most one run on the plain data model, so its transcript is a function of the script; and at most
/// one in which one line is done after another, paths aside.
pub fn plain_runs_are_one()
    ensures plain { PlainRunsAreOne }
    ensures serial { SerialRunsAreOne }
{}

/// A legal run of a script of one block, whose budget is at most 100,000, is one in which one line is done after
/// another, and so its run on the plain data model, whatever its paths.
pub fn legal_runs_of_one_block_are_serial()
    ensures { LegalRunsOfOneBlockAreSerial }
{}
