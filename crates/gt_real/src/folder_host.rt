ghost use Rattle.std.specs.Prelude.{◌≡◌, ℕ, false, IfOk};
ghost use Rattle.gt_disk.specs.Untold.{untold};

use crate::counting::count_fault;
use crate::disk_slot::{ALL_HERE, DISKS, DiskSlot, folder_of};
use crate::folder_disk::FolderDisk;
use crate::making::make_folder;
use crate::trouble::{during, tell};
use gt_disk::{Disk, Failed};
use gt_outside::Host;
use std::fs::File;
use std::rt::Files;

/// The disks 0 to 8 as folders `0` to `8` of one folder. It tells nothing of what stands in them.
#[derive(Drop)]
pub struct FolderHost<R: Files<File = File> + Eprint + AllocGlobal + Clone + Drop> {
    rt: R,
    path: String,
    places: [DiskSlot; DISKS],
    faults: u64,
}

impl<R: Files<File = File> + Eprint + AllocGlobal + Clone + Drop> FolderHost<R> {
    /// A host of the disks in the folder of this path. Nothing is opened or made before the first `take`.
    pub fn new(rt: R, path: String) -> FolderHost<R>
        ensures here { (n : ℕ) → ⟦<FolderHost<R> as Host>⟧.is_out result n ≡ false }
        ensures counts { (n : ℕ) → ⟦<FolderHost<R> as Host>⟧.disk_faults result n ≡ 0 }
        ensures faults { ⟦<FolderHost<R> as Host>⟧.faults result ≡ 0 }
    {
        FolderHost {
            rt,
            path,
            places: ALL_HERE,
            faults: 0,
        }
    }

    // Opens the folder of a disk, and makes it and the folder of the disks where they are absent.
    fn opened(&self, number: u8, place: DiskSlot) -> Result<FolderDisk<R>, Failed>
        ensures count { IfOk result (λ disk. ⟦<FolderDisk<R> as Disk>⟧.fault_count disk ≡ place.faults) }
        ensures view { IfOk result (λ disk. ⟦<FolderDisk<R> as Disk>⟧.view disk ≡ untold place.changes) }
    {
        let path = self.path.as_str();
        let made = make_folder(&self.rt, path);
        tell(&self.rt, path, &made);
        let named = during("name the disk of", folder_of(self.rt.alloc(), path, number));
        tell(&self.rt, path, &named);
        let shared: Result<R, _> = self.rt.clone();
        match (made, named, shared) {
            (Ok(()), Ok(path), Ok(rt)) => FolderDisk::open_counted(
                rt,
                path,
                place.faults,
                place.changes,
            ),
            _ => Err(Failed),
        }
    }
}

impl<R: Files<File = File> + Eprint + AllocGlobal + Clone + Drop> Host for FolderHost<R> {
    type D = FolderDisk<R>;

    ghost use Rattle.gt_real.specs.DiskSlots.{is_out_at, faults_at, clock_at};

    ghost faults = { λ host. host.faults };

    ghost is_out = { λ host n. is_out_at host.places n };

    ghost disk_faults = { λ host n. faults_at host.places n };

    ghost disk_view = { λ host n. untold (clock_at host.places n) };

    fn take(&mut self, number: u8) -> Result<FolderDisk<R>, Failed> {
        let index = usize::from(number);
        if index < DISKS {
            if let Ok(disk) = self.opened(number, self.places[index]) {
                self.places[index].is_out = true;
                return Ok(disk);
            }
        }
        count_fault(&mut self.faults);
        Err(Failed)
    }

    fn give(&mut self, number: u8, disk: FolderDisk<R>) {
        let index = usize::from(number);
        if index < DISKS {
            self.places[index] = DiskSlot {
                is_out: false,
                faults: disk.faults(),
                changes: disk.tick(),
            };
        }
    }
}
