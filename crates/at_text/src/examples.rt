//! Runs that the text tells apart. Each function does nothing: its contract says that they are such.
ghost use Rattle.at_text.specs.PrintableExample.{OddRunIsPrintable};

/// A run that no script makes is told apart too: an empty order, a section of one object twice, and one that was given
/// back 0 times.
pub fn a_run_that_no_script_makes()
    ensures { OddRunIsPrintable }
{}
