//! What is true of every text. Each function does nothing: its contract is the law.
ghost use Rattle.at_script.specs.Laws.{ScriptsHaveNoOffence, OffenceIsTheFirst, NothingBehindCounts};
ghost use Rattle.at_script.specs.Laws.{NamesAreToldApart, ScriptsAreShort};

/// A text is a script or has a first offence, and never both.
pub fn scripts_have_no_offence()
    ensures { ScriptsHaveNoOffence }
{}

/// The first offence of a text is the first cause of the line that is said, or, behind the last line, that the text
/// ends too early. No line before that one has an offence.
pub fn offence_is_the_first()
    ensures { OffenceIsTheFirst }
{}

/// What stands behind the first line with an offence changes neither that line nor its cause, but by the classes and
/// functions that it declares.
pub fn nothing_behind_counts()
    ensures { NothingBehindCounts }
{}

/// The names, classes, functions and variables of a script are identifiers, of which no two of one kind are the same. No
/// class has the name of a function, and none of them is called `none`.
pub fn names_are_told_apart()
    ensures { NamesAreToldApart }
{}

/// A script has at most 1,048,576 bytes.
pub fn scripts_are_short()
    ensures { ScriptsAreShort }
{}
