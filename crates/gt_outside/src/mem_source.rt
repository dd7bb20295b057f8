ghost use Rattle.std.specs.Prelude.{◌≡◌, ◌≤◌, Some, IfOk, vec_len};

use crate::Source;
use crate::failing::FailingCalls;
use crate::steady_source::SteadySource;
use gt_disk::Failed;
use gt_list::NoMemory;
use std::alloc::Global;

/// Bytes in memory as a source whose calls fail by a list.
#[derive(Drop)]
pub struct MemSource {
    bytes: SteadySource,
    calls: FailingCalls,
}

impl MemSource {
    ghost use Rattle.gt_outside.specs.Plans.{source_plan, IsAsListed};

    /// A source of these bytes. Its calls of these numbers, from 0, fail.
    pub fn new(alloc: Global, bytes: &[u8], faults: &[u64]) -> Result<MemSource, NoMemory>
        ensures left { IfOk result (λ source. ⟦<MemSource as Source>⟧.left source ≡ Some bytes.now) }
        ensures count { IfOk result (λ source. ⟦<MemSource as Source>⟧.faults source ≡ 0) }
        ensures plan { IfOk result (λ source. IsAsListed (source_plan source) faults.now) }
    {
        let bytes = SteadySource::new(alloc, bytes)?;
        let calls = FailingCalls::new(alloc, faults)?;
        Ok(MemSource { bytes, calls })
    }
}

impl Source for MemSource {
    ghost use Rattle.std.specs.Prelude.{length};
    ghost use Rattle.std.specs.Io.KnownBytes.{ReadConsumes};
    ghost use Rattle.gt_disk.specs.Files.{HasCause};
    ghost use Rattle.gt_outside.specs.Failing.{FollowsPlan};
    ghost use Rattle.gt_outside.specs.Plans.{source_plan};

    ghost left = { λ source. ⟦<SteadySource as Source>⟧.left source.bytes };

    ghost faults = { λ source. source.calls.faults };

    fn read(&mut self, into: &mut [u8]) -> Result<usize, Failed>
        ensures bound { IfOk result (λ count. count ≤ length into.old) }
        ensures bytes { ReadConsumes (⟦<MemSource as Source>⟧.left self.old) (⟦<MemSource as Source>⟧.left self.new) result into.new }
        ensures cause { HasCause (⟦<MemSource as Source>⟧.faults self.old) (⟦<MemSource as Source>⟧.faults self.new) result }
        ensures planned { FollowsPlan (source_plan self.old) (source_plan self.new) result }
    {
        if self.calls.next_fails() {
            return Err(Failed);
        }
        self.bytes.read(into)
    }
}
