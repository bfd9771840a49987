//! A source of bytes.
ghost use Rattle.std.specs.Prelude.{◌≡◌, ◌<◌, ◌≤◌, ℕ, List, Option, length, take, IfOk, OnOk, OnErr};
ghost use Rattle.std.specs.Io.KnownBytes.{IsAtEnd, prepend_known};
ghost use Rattle.at_source.specs.Faults.{Rose};

use thiserror::Error;

/// A device failed.
#[derive(Clone, Copy, Debug, PartialEq, Eq, PartialOrd, Ord, Hash, Error)]
#[error("a device failed")]
pub struct Failed;

/// Where bytes come from.
pub trait Source {
    /// The bytes still to come, where the source's content is known. Whether it is never changes.
    ghost left: { Self → Option (List ℕ) };

    /// How often the source failed.
    ghost faults: { Self → ℕ };

    /// Gives the next bytes at the beginning of `buf`, and how many they are: at most the length of `buf`, and none of
    /// a `buf` that has room only at the end of the input. Where it fails, no byte is lost.
    fn read(&mut self, buf: &mut [u8]) -> Result<usize, Failed>
        ensures most { IfOk result (λ k. k ≤ length buf.old) }
        ensures given { IfOk result (λ k. left self.old ≡ prepend_known (take k buf.new) (left self.new)) }
        ensures end { IfOk result (λ k. k ≡ 0 → 0 < length buf.old → IsAtEnd (left self.new)) }
        ensures unchanged { OnErr result (left self.new ≡ left self.old) }

        // The count of faults rises exactly where the read fails, and never falls.
        ensures no_fault { OnOk result (faults self.new ≡ faults self.old) }
        ensures cause { OnErr result (Rose (faults self.old) (faults self.new)) }
        ensures later { faults self.old ≤ faults self.new };
}
