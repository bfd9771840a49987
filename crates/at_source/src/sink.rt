//! A sink of bytes.
ghost use Rattle.std.specs.Prelude.{◌≡◌, ◌==◌, ◌<◌, ◌≤◌, ℕ, List, Option, Bool, false, length, take, IsTrue, IfOk};
ghost use Rattle.std.specs.Prelude.{OnOk, OnErr, if◌then◌else◌};
ghost use Rattle.std.specs.Io.KnownBytes.{append_known};
ghost use Rattle.at_source.specs.Faults.{Rose};

use crate::source::Failed;

/// Where bytes go.
pub trait Sink {
    /// What was written, where the sink's content is known. Whether it is never changes.
    ghost written: { Self → Option (List ℕ) };

    /// Whether no byte was taken since the last flush that succeeded, or ever, where none did. It is known of a sink of
    /// unknown content too.
    ghost is_flushed: { Self → Bool };

    /// How often the sink failed.
    ghost faults: { Self → ℕ };

    /// Takes bytes from the beginning of the piece, and says how many: at least one of a piece that has one. To take
    /// none of them is a fault. Where it fails, nothing was written.
    fn write(&mut self, piece: &[u8]) -> Result<usize, Failed>
        ensures most { IfOk result (λ k. k ≤ length piece.now) }
        ensures some { 0 < length piece.now → IfOk result (λ k. 0 < k) }
        ensures taken { IfOk result (λ k. written self.new ≡ append_known (written self.old) (take k piece.now)) }
        ensures flushed { IfOk result (λ k. is_flushed self.new ≡ (if k == 0 then is_flushed self.old else false)) }
        ensures unchanged { OnErr result
            ((written self.new ≡ written self.old) × (is_flushed self.new ≡ is_flushed self.old)) }

        // The count of faults rises exactly where the write fails, and never falls.
        ensures no_fault { OnOk result (faults self.new ≡ faults self.old) }
        ensures cause { OnErr result (Rose (faults self.old) (faults self.new)) }
        ensures later { faults self.old ≤ faults self.new };

    /// Hands on what the sink holds back. What was written is unchanged.
    fn flush(&mut self) -> Result<(), Failed>
        ensures flushed { OnOk result (IsTrue (is_flushed self.new)) }
        ensures unchanged { written self.new ≡ written self.old }
        ensures not_flushed { OnErr result (is_flushed self.new ≡ is_flushed self.old) }

        // The count of faults rises exactly where the flush fails, and never falls.
        ensures no_fault { OnOk result (faults self.new ≡ faults self.old) }
        ensures cause { OnErr result (Rose (faults self.old) (faults self.new)) }
        ensures later { faults self.old ≤ faults self.new };
}
