// Where a host in memory keeps a disk. While the disk is out a snapshot keeps, for clauses alone, what it was.
ghost use Rattle.std.specs.Prelude.{◌≡◌, true, IfOk, IfSome, IfNone, vec_len};
ghost use Rattle.gt_outside.specs.Places.{is_out_at, IsAllHere, Takes, Gives};

use gt_disk::MemDisk;
use gt_list::NoMemory;
use std::alloc::Global;
use std::snapshot::Snapshot;

/// Where a disk is kept: the disk, or none while it is out, and what it was when it was taken last.
#[derive(Drop)]
pub(crate) struct DiskSlot {
    pub(crate) disk: Option<MemDisk>,
    last: Snapshot<MemDisk>,
}

// A place for each disk.
pub(crate) fn places_of(alloc: Global, disks: Vec<MemDisk>) -> Result<Vec<DiskSlot>, NoMemory>
    ensures { IfOk result (λ places. IsAllHere disks.items places.items) }
{
    let mut places = Vec::with_capacity(alloc, disks.len())?;
    for disk in disks {
        let last = Snapshot::of(&disk);
        places.push(DiskSlot {
            disk: Some(disk),
            last,
        })?;
    }
    Ok(places)
}

// Takes a disk out of its place.
pub(crate) fn take_from(places: &mut Vec<DiskSlot>, number: u8) -> Option<MemDisk>
    ensures some { IfSome result (λ disk. Takes number disk places.old.items places.new.items) }
    ensures none { IfNone result (places.new.items ≡ places.old.items) }
    ensures same { vec_len places.new ≡ vec_len places.old }
{
    let index = usize::from(number);
    if index >= places.len() {
        return None;
    }
    let place = &mut places[index];
    let disk = place.disk.take()?;
    place.last = Snapshot::of(&disk);
    Some(disk)
}

// Puts a disk into its place.
pub(crate) fn put_back(places: &mut Vec<DiskSlot>, number: u8, disk: MemDisk)
    requires { is_out_at places.old.items number ≡ true }
    ensures given { Gives number disk places.old.items places.new.items }
    ensures same { vec_len places.new ≡ vec_len places.old }
{
    let index = usize::from(number);
    if index < places.len() {
        places[index].disk = Some(disk);
    }
}
