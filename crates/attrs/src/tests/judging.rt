//! Whether lines are a run of a script, and whether they are legal, as the code decides whose contracts are the
//! definitions. It is as it was first written, and goes once a proved checker exists.
use super::legality::are_legal;
use super::running::is_run;
use at_line::Line;
use at_script::Script;
use std::alloc::Global;
use std::test::Fail;

/// What isn't so of lines.
#[derive(Clone, Copy, Debug, PartialEq, Eq)]
pub enum Breaks {
    Nothing,
    /// They are no run of the script.
    Run,
    /// They aren't legal.
    Law,
    Both,
}

/// What isn't so of the lines.
pub fn broken_by(alloc: Global, script: &Script, lines: &[Line]) -> Result<Breaks, Fail> {
    let runs = is_run(alloc, script, lines)?;
    let legal = are_legal(alloc, lines)?;
    Ok(match (runs, legal) {
        (true, true) => Breaks::Nothing,
        (false, true) => Breaks::Run,
        (true, false) => Breaks::Law,
        (false, false) => Breaks::Both,
    })
}
