ghost use Rattle.std.specs.Prelude.{◌≡◌, ◌≤◌};
ghost use Rattle.gt_model.specs.declared.event.Event.{Event as Asked};
ghost use Rattle.gt_part.specs.Called.{Called};
ghost use Rattle.gt_part.specs.Shown.{pins_of};

use crate::Partition;
use crate::noting::{note, take_room};
use gt_act::{Reply, apply};
use gt_disk::Disk;
use gt_model::{Answer, Event, Refusal, Who};
use std::alloc::Global;

impl<D: Disk + Drop> Partition<D> {
    /// Applies the next entries of the log, at most as many as this: they go into reference files and packs that a manifest
    /// names. `Applied` has the new applied position, or the old one where nothing was left. `EpochFull` comes exactly where
    /// something is to apply and the epoch is at its limit or the next free file number is 2^63 or more; `DeviceFault` only of
    /// a fault of the disk, and then the application may be in doubt.
    pub fn apply(&mut self, alloc: Global, who: Who, n: u32) -> Answer
        requires most { n ≤ 16 }
        ensures called { Called D.tells D.view D.fault_count D.call_count who (Asked.Apply n) result self.old self.new }
        ensures pins { pins_of self.new ≡ pins_of self.old }
    {
        if let Err(_) = take_room(&mut self.trail, self.state.live.len(), 1) {
            return Err(Refusal::Memory);
        }
        let ended = apply(alloc, &self.limits, &mut self.state, &mut self.disk, n);
        let tick = self.disk.tick();
        note(
            &mut self.trail,
            tick,
            who,
            Event::Apply { n },
            Reply::of(ended),
        )
    }
}
