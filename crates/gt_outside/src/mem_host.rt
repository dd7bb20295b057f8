ghost use Rattle.std.specs.Prelude.{◌≡◌, ◌<◌, ℕ, false, true, slice_get, IfOk, IfSome, IsSome, IsNone, vec_len};

use crate::Host;
use crate::disk_slot::{DiskSlot, places_of, put_back, take_from};
use crate::failing::FailingCalls;
use gt_disk::{Disk, Failed, MemDisk};
use gt_list::NoMemory;
use std::alloc::Global;

/// The disks 0 to 8 in memory. Calls of `take` fail by a list.
#[derive(Drop)]
pub struct MemHost {
    places: Vec<DiskSlot>,
    calls: FailingCalls,
    ghost nine: { vec_len places ≡ 9 },
}

impl MemHost {
    ghost use Rattle.gt_outside.specs.Plans.{host_plan, IsAsListed};

    /// A host of these nine disks, from 0 to 8. Its calls of `take` of these numbers, from 0, fail.
    #[tactic(auto, using(crate::proofs::PlacesLemmas::all_here_disks, crate::proofs::PlacesLemmas::none_out))]
    pub fn new(alloc: Global, disks: Vec<MemDisk>, faults: &[u64]) -> Result<MemHost, NoMemory>
        requires { vec_len disks ≡ 9 }
        ensures here { IfOk result (λ host. (n : ℕ) → ⟦<MemHost as Host>⟧.is_out host n ≡ false) }
        ensures views { IfOk result (λ host. (n : ℕ) → IfSome (slice_get disks.items n) (λ disk.
            ⟦<MemHost as Host>⟧.disk_view host n ≡ ⟦<MemDisk as Disk>⟧.view disk)) }
        ensures counts { IfOk result (λ host. (n : ℕ) → IfSome (slice_get disks.items n) (λ disk.
            ⟦<MemHost as Host>⟧.disk_faults host n ≡ ⟦<MemDisk as Disk>⟧.fault_count disk)) }
        ensures faults { IfOk result (λ host. ⟦<MemHost as Host>⟧.faults host ≡ 0) }
        ensures plan { IfOk result (λ host. IsAsListed (host_plan host) faults.now) }
    {
        let places = places_of(alloc, disks)?;
        let calls = FailingCalls::new(alloc, faults)?;
        Ok(MemHost { places, calls })
    }

    /// The disk of this number. None exactly while it is out, and from 9 on.
    pub fn disk(&self, number: u8) -> Option<&MemDisk>
        ensures here { ⟦<MemHost as Host>⟧.is_out self.now number ≡ false → number < 9 → IsSome result }
        ensures out { ⟦<MemHost as Host>⟧.is_out self.now number ≡ true → IsNone result }
        ensures view { IfSome result (λ disk.
            ⟦<MemDisk as Disk>⟧.view disk.now ≡ ⟦<MemHost as Host>⟧.disk_view self.now number) }
        ensures count { IfSome result (λ disk.
            ⟦<MemDisk as Disk>⟧.fault_count disk.now ≡ ⟦<MemHost as Host>⟧.disk_faults self.now number) }
    {
        self.places.get(usize::from(number))?.disk.as_ref()
    }
}

impl Host for MemHost {
    type D = MemDisk;

    ghost use Rattle.std.specs.Prelude.{◌≢◌, OnOk, OnErr, IsErr};
    ghost use Rattle.gt_disk.specs.Files.{HasCause};
    ghost use Rattle.gt_outside.specs.Failing.{IsPlanned, IsCounted};
    ghost use Rattle.gt_outside.specs.Places.{is_out_at, known_at, no_view};
    ghost use Rattle.gt_outside.specs.Plans.{host_plan};

    ghost faults = { λ host. host.calls.faults };

    ghost is_out = { λ host n. is_out_at host.places.items n };

    ghost disk_faults = { λ host n. known_at ⟦<MemDisk as Disk>⟧.fault_count 0 host.places.items n };

    ghost disk_view = { λ host n. known_at ⟦<MemDisk as Disk>⟧.view no_view host.places.items n };

    fn take(&mut self, number: u8) -> Result<MemDisk, Failed>
        requires here { ⟦<MemHost as Host>⟧.is_out self.old number ≡ false }
        ensures view { IfOk result (λ disk. ⟦<MemDisk as Disk>⟧.view disk ≡ ⟦<MemHost as Host>⟧.disk_view self.old number) }
        ensures count { IfOk result (λ disk. ⟦<MemDisk as Disk>⟧.fault_count disk ≡ ⟦<MemHost as Host>⟧.disk_faults self.old number) }
        ensures out { OnOk result (⟦<MemHost as Host>⟧.is_out self.new number ≡ true) }
        ensures err { OnErr result (⟦<MemHost as Host>⟧.is_out self.new number ≡ false) }
        ensures others { (n : ℕ) → n ≢ number → ⟦<MemHost as Host>⟧.is_out self.new n ≡ ⟦<MemHost as Host>⟧.is_out self.old n }
        ensures views { (n : ℕ) → ⟦<MemHost as Host>⟧.disk_view self.new n ≡ ⟦<MemHost as Host>⟧.disk_view self.old n }
        ensures counts { (n : ℕ) → ⟦<MemHost as Host>⟧.disk_faults self.new n ≡ ⟦<MemHost as Host>⟧.disk_faults self.old n }
        ensures cause { HasCause (⟦<MemHost as Host>⟧.faults self.old) (⟦<MemHost as Host>⟧.faults self.new) result }
        ensures planned { IsPlanned (host_plan self.old) → IsErr result }
        ensures counted { IsCounted (host_plan self.old) (host_plan self.new) }
    {
        if self.calls.next_fails() {
            return Err(Failed);
        }
        match take_from(&mut self.places, number) {
            Some(disk) => Ok(disk),
            None => {
                self.calls.count_fault();
                Err(Failed)
            }
        }
    }

    fn give(&mut self, number: u8, disk: MemDisk) {
        put_back(&mut self.places, number, disk);
    }
}
