//! What a pass tells of itself.
ghost use Rattle.std.specs.Prelude.{◌≡◌, ◌<◌};
ghost use Rattle.at_view.specs.Counts.{passes};
ghost use Rattle.at_core.specs.Passes.{view};

use crate::world::Pass;

impl Pass {
    /// The number of the pass, below 64, which no other live pass of its world has.
    pub fn number(&self) -> u8
        ensures { (result ≡ (view self.now).who.number) × (result < passes) }
    {
        self.number
    }

    /// Whether the pass is online: then no tag that it holds is given again.
    pub fn online(&self) -> bool
        ensures { result ≡ (view self.now).tags.online }
    {
        self.online
    }
}
