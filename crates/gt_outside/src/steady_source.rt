ghost use Rattle.std.specs.Prelude.{◌≡◌, ◌≤◌, Some, IfOk, vec_len};

use crate::Source;
use gt_disk::Failed;
use gt_list::NoMemory;
use std::alloc::Global;

/// Bytes in memory as a source that never fails.
#[derive(Drop)]
pub struct SteadySource {
    bytes: Vec<u8>,
    at: usize,
    ghost within: { at ≤ vec_len bytes },
}

impl SteadySource {
    /// A source of these bytes.
    pub fn new(alloc: Global, bytes: &[u8]) -> Result<SteadySource, NoMemory>
        ensures left { IfOk result (λ source. ⟦<SteadySource as Source>⟧.left source ≡ Some bytes.now) }
        ensures count { IfOk result (λ source. ⟦<SteadySource as Source>⟧.faults source ≡ 0) }
    {
        let bytes = bytes.to_vec(alloc)?;
        Ok(SteadySource { bytes, at: 0 })
    }
}

impl Source for SteadySource {
    ghost use Rattle.std.specs.Prelude.{drop, Some};

    ghost left = { λ source. Some (drop source.at source.bytes.items) };

    ghost faults = { λ _. 0 };

    fn read(&mut self, into: &mut [u8]) -> Result<usize, Failed> {
        let rest = self.bytes.len() - self.at;
        let count = rest.min(into.len());
        let end = self.at + count;
        into[..count].copy_from_slice(&self.bytes[self.at..end]);
        self.at = end;
        Ok(count)
    }
}
