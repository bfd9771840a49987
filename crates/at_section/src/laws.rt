//! What is true of every section. Each function does nothing: its contract is the law.
ghost use Rattle.std.specs.Prelude.{◌≡◌, ◌↔◌, List, true};
ghost use Rattle.at_view.specs.declared.mark.Mark as marks;
ghost use Rattle.at_core.specs.declared.lock.Lock as locks;
ghost use Rattle.at_core.specs.declared.world.Pass as passes;
ghost use Rattle.at_section.specs.Surfaces.{IsOutside, Surface};
ghost use Rattle.at_section.specs.Deeds.{NoGive, NoHeld};
ghost use Rattle.at_section.specs.Kept.{KeptIsLeftAlone};
ghost use Rattle.at_section.specs.Quiet.{QuietStepsStay};
ghost use Rattle.at_section.specs.Scores.{Start, opening, score};

/// A section is never given back exactly where no step since its begin gives one of its locks.
pub fn kept_sections()
    ensures { (ls : List locks.Lock) (s : Start) (ms : List marks.Mark)
        → ((score ls (opening s) ms).given ≡ 0) ↔ NoGive ls ms }
{}

/// A section is never given back while no try finds a lock held, where it is given back for that alone. So one of a pass that is
/// alone is kept.
pub fn alone_sections()
    ensures { (ls : List locks.Lock) (s : Start) (ms : List marks.Mark)
        → (score ls (opening s) ms).caused ≡ true → NoHeld ms → (score ls (opening s) ms).given ≡ 0 }
{}

/// A pass that is in no section and holds no lock may begin one.
pub fn outside_sections()
    ensures { (p : passes.Pass) → IsOutside p → Surface p }
{}

/// What a section that ended kept is to lines: in whatever history comes of it, each write that isn't the pass's own leaves its objects
/// alone from the place of its begin to that of its end.
pub fn kept_lines()
    ensures { KeptIsLeftAlone }
{}

/// A pass stays in its sections while it neither tries to take a lock nor gives one, whatever it loads and stores.
pub fn quiet_sections()
    ensures { QuietStepsStay }
{}
