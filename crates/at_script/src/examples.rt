//! Texts that are scripts, and texts that aren't.
ghost use Rattle.std.specs.Prelude.{◌≡◌, map};
ghost use Rattle.at_script.specs.Script.{first_offence};
ghost use Rattle.at_script.specs.ScriptExamples.{offences};

/// What is first wrong with each text.
pub fn offences_of_texts()
    ensures { map (λ row. first_offence row.0) offences ≡ map (λ row. row.1) offences }
{}
