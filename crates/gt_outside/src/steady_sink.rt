ghost use Rattle.std.specs.Prelude.{◌≡◌, Some, [], IfOk, IfSome};

use crate::Sink;
use gt_disk::Failed;
use gt_list::NoMemory;
use std::alloc::Global;

/// A sink in memory that never fails. Where its growth is refused it takes the piece all the same, keeps no byte from
/// then on and tells nothing any more.
#[derive(Drop)]
pub struct SteadySink {
    bytes: Vec<u8>,
    tells: bool,
}

impl SteadySink {
    /// A sink to which nothing was written.
    pub fn new(alloc: Global) -> Result<SteadySink, NoMemory>
        ensures written { IfOk result (λ sink. ⟦<SteadySink as Sink>⟧.written sink ≡ Some []) }
        ensures count { IfOk result (λ sink. ⟦<SteadySink as Sink>⟧.faults sink ≡ 0) }
    {
        Ok(SteadySink {
            bytes: Vec::new(alloc),
            tells: true,
        })
    }

    /// The bytes that were written, where the sink still tells them.
    pub fn bytes(&self) -> &[u8]
        ensures { IfSome (⟦<SteadySink as Sink>⟧.written self.now) (λ written. result.now ≡ written) }
    {
        self.bytes.as_slice()
    }
}

impl Sink for SteadySink {
    ghost use Rattle.std.specs.Prelude.{if◌then◌else◌, Some, None};

    ghost written = { λ sink. if sink.tells then Some sink.bytes.items else None };

    ghost faults = { λ _. 0 };

    fn write(&mut self, from: &[u8]) -> Result<usize, Failed> {
        if self.tells && self.bytes.extend_from_slice(from).is_err() {
            self.tells = false;
        }
        Ok(from.len())
    }
}
