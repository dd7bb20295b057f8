ghost use Rattle.std.specs.Prelude.{◌≡◌, Some, [], IfOk, IfSome};

use crate::Sink;
use crate::failing::FailingCalls;
use crate::steady_sink::SteadySink;
use gt_disk::Failed;
use gt_list::NoMemory;
use std::alloc::Global;

/// A sink in memory whose calls fail by a list. It takes each piece whole, and nothing of it in a call that fails. Where
/// its growth is refused it takes the piece all the same, keeps no byte from then on and tells nothing any more.
#[derive(Drop)]
pub struct MemSink {
    bytes: SteadySink,
    calls: FailingCalls,
}

impl MemSink {
    ghost use Rattle.gt_outside.specs.Plans.{sink_plan, IsAsListed};

    /// A sink to which nothing was written. Its calls of these numbers, from 0, fail.
    pub fn new(alloc: Global, faults: &[u64]) -> Result<MemSink, NoMemory>
        ensures written { IfOk result (λ sink. ⟦<MemSink as Sink>⟧.written sink ≡ Some []) }
        ensures count { IfOk result (λ sink. ⟦<MemSink as Sink>⟧.faults sink ≡ 0) }
        ensures plan { IfOk result (λ sink. IsAsListed (sink_plan sink) faults.now) }
    {
        let bytes = SteadySink::new(alloc)?;
        let calls = FailingCalls::new(alloc, faults)?;
        Ok(MemSink { bytes, calls })
    }

    /// The bytes that were written, where the sink still tells them.
    pub fn bytes(&self) -> &[u8]
        ensures { IfSome (⟦<MemSink as Sink>⟧.written self.now) (λ written. result.now ≡ written) }
    {
        self.bytes.bytes()
    }
}

impl Sink for MemSink {
    ghost use Rattle.std.specs.Prelude.{◌≤◌, ◌<◌, length};
    ghost use Rattle.gt_disk.specs.Files.{HasCause};
    ghost use Rattle.gt_outside.specs.Failing.{FollowsPlan};
    ghost use Rattle.gt_outside.specs.Plans.{sink_plan};
    ghost use Rattle.gt_outside.specs.Written.{WriteAppends};

    ghost written = { λ sink. ⟦<SteadySink as Sink>⟧.written sink.bytes };

    ghost faults = { λ sink. sink.calls.faults };

    fn write(&mut self, from: &[u8]) -> Result<usize, Failed>
        ensures bound { IfOk result (λ count. count ≤ length from.now) }
        ensures some { IfOk result (λ count. 0 < length from.now → 0 < count) }
        ensures bytes { WriteAppends (⟦<MemSink as Sink>⟧.written self.old) (⟦<MemSink as Sink>⟧.written self.new) result from.now }
        ensures cause { HasCause (⟦<MemSink as Sink>⟧.faults self.old) (⟦<MemSink as Sink>⟧.faults self.new) result }
        ensures planned { FollowsPlan (sink_plan self.old) (sink_plan self.new) result }
    {
        if self.calls.next_fails() {
            return Err(Failed);
        }
        self.bytes.write(from)
    }
}
