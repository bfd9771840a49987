//! What is true of every text. Each function does nothing: its contract is the law.
ghost use Rattle.at_text.specs.Laws.{TextIsOneToOne};

use at_script::{names_are_told_apart, scripts_are_short};

/// Runs of one text have the same script, the same final namespaces, and the same lines, but for the numbers that a miss
/// carries, which no text has.
pub fn text_is_one_to_one()
    ensures { TextIsOneToOne }
{
    names_are_told_apart();
    scripts_are_short();
}
