// Output. What was written is told only by some sinks.
ghost use Rattle.std.specs.Prelude.{◌≤◌, ◌<◌, ℕ, List, Option, length, IfOk};
ghost use Rattle.gt_disk.specs.Files.{HasCause};
ghost use Rattle.gt_outside.specs.Written.{WriteAppends};

use gt_disk::Failed;

/// Where bytes are written to, as a program's output.
pub trait Sink {
    /// The bytes that were written, where the sink tells them.
    ghost written: { Self → Option (List ℕ) };

    /// How often a write has failed.
    ghost faults: { Self → ℕ };

    /// Takes a front of the piece and gives its length, which is at least 1 where the piece isn't empty.
    /// After `Failed` any front of the piece may have been written.
    fn write(&mut self, from: &[u8]) -> Result<usize, Failed>
        ensures bound { IfOk result (λ count. count ≤ length from.now) }
        ensures some { IfOk result (λ count. 0 < length from.now → 0 < count) }
        ensures bytes { WriteAppends (written self.old) (written self.new) result from.now }
        ensures cause { HasCause (faults self.old) (faults self.new) result };
}
