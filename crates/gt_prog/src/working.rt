ghost use Rattle.std.specs.Prelude.{◌≡◌, ◌≢◌, ◌≤◌, ◌<◌, ◌^◌, ℕ, length, false, IsTrue, None, Err};
ghost use Rattle.std.specs.List.{All};
ghost use Rattle.gt_disk.specs.Files.{Rose, now};
ghost use Rattle.gt_disk.specs.declared.file_id.FileId.{FileId};
ghost use Rattle.gt_base.specs.Recovery.{recover};
ghost use Rattle.gt_journal.specs.Histories.{IsGood};
ghost use Rattle.gt_prog.specs.Script.{HasSession, not_built};
ghost use Rattle.gt_prog.specs.Statuses.{RoseEither, WorkEnds, status_of_mount, status_of_play};

use crate::local::FIRST;
use crate::playing::{PlayCause, play};
use crate::status::Status;
use gt_disk::Disk;
use gt_log::MountCause;
use gt_model::Limits;
use gt_outside::{Host, Sink};
use gt_part::Partition;
use gt_script::Request;
use std::alloc::Global;

/// Takes the disk of the partition, does the requests over it, and gives it back.
pub(crate) fn work<H: Host, K: Sink>(
    alloc: Global,
    limits: Limits,
    host: &mut H,
    sink: &mut K,
    requests: &[Request],
) -> Status
    requires here { H.is_out host.old 1 ≡ false }
    requires few { length requests.now < 2 ^ 32 }
    requires built { not_built requests.now ≡ None }
    requires sessions { All HasSession requests.now }
    ensures ends { WorkEnds H.D.tells limits requests.now (H.disk_view host.old 1) (H.disk_view host.new 1) (H.disk_faults host.old 1) (H.disk_faults host.new 1) (K.written sink.old) (K.written sink.new) result }
    ensures later { K.faults sink.old ≤ K.faults sink.new }
    ensures write { result ≡ Status.WriteFault → Rose (K.faults sink.old) (K.faults sink.new) }
    ensures device { (disk : ℕ) → result ≡ Status.DiskFault disk → (disk ≡ 1) × RoseEither (H.faults host.old) (H.faults host.new) (H.disk_faults host.old 1) (H.disk_faults host.new 1) }
    ensures damaged { (disk : ℕ) (file : FileId) (at : ℕ) → result ≡ Status.Damaged disk file at → (disk ≡ 1) × (IsTrue H.D.tells → recover limits (H.disk_view host.new 1).reads ≡ Err (file, at)) }
    ensures undamaged { IsTrue H.D.tells → IsGood limits (now (H.disk_view host.old 1)) → (disk : ℕ) (file : FileId) (at : ℕ) → result ≢ Status.Damaged disk file at }
    ensures back { (n : ℕ) → H.is_out host.new n ≡ H.is_out host.old n }

    // No other disk is touched.
    ensures other_views { (n : ℕ) → n ≢ 1 → H.disk_view host.new n ≡ H.disk_view host.old n }
    ensures other_counts { (n : ℕ) → n ≢ 1 → H.disk_faults host.new n ≡ H.disk_faults host.old n }

    // No count rises but that of what failed.
    ensures sure { result ≢ Status.WriteFault → K.faults sink.new ≡ K.faults sink.old }
    ensures host_sure { ((disk : ℕ) → result ≢ Status.DiskFault disk) → H.faults host.new ≡ H.faults host.old }
{
    let Ok(disk) = host.take(FIRST) else {
        return Status::DiskFault { disk: FIRST };
    };
    let (disk, status) = over_disk(alloc, limits, disk, sink, requests);
    host.give(FIRST, disk);
    status
}

/// Does the requests over a disk.
fn over_disk<D: Disk + Drop, K: Sink>(
    alloc: Global,
    limits: Limits,
    disk: D,
    sink: &mut K,
    requests: &[Request],
) -> (D, Status)
    requires few { length requests.now < 2 ^ 32 }
    requires built { not_built requests.now ≡ None }
    requires sessions { All HasSession requests.now }
    ensures ends { WorkEnds D.tells limits requests.now (D.view disk) (D.view result.0) (D.fault_count disk) (D.fault_count result.0) (K.written sink.old) (K.written sink.new) result.1 }
    ensures later { K.faults sink.old ≤ K.faults sink.new }
    ensures counts { D.fault_count disk ≤ D.fault_count result.0 }
    ensures sure { result.1 ≢ Status.WriteFault → K.faults sink.new ≡ K.faults sink.old }
    ensures write { result.1 ≡ Status.WriteFault → Rose (K.faults sink.old) (K.faults sink.new) }
    ensures device { (number : ℕ) → result.1 ≡ Status.DiskFault number → (number ≡ 1) × Rose (D.fault_count disk) (D.fault_count result.0) }
    ensures damaged { (number : ℕ) (file : FileId) (at : ℕ) → result.1 ≡ Status.Damaged number file at → (number ≡ 1) × (IsTrue D.tells → recover limits (D.view result.0).reads ≡ Err (file, at)) }
    ensures undamaged { IsTrue D.tells → IsGood limits (now (D.view disk)) → (number : ℕ) (file : FileId) (at : ℕ) → result.1 ≢ Status.Damaged number file at }
{
    match Partition::mount(alloc, FIRST, disk, limits) {
        Err(error) => {
            let status = status_of_mount(error.cause);
            (error.disk, status)
        }
        Ok(partition) => match play(alloc, partition, sink, requests) {
            Ok(partition) => (partition.unmount(), Status::Done),
            Err(error) => {
                let status = status_of_play(error.cause);
                (error.disk, status)
            }
        },
    }
}

fn status_of_mount(cause: MountCause) -> Status
    ensures { result ≡ status_of_mount cause }
{
    match cause {
        MountCause::DeviceFault => Status::DiskFault { disk: FIRST },
        MountCause::Damaged { file, at } => Status::Damaged {
            disk: FIRST,
            file,
            at,
        },
        MountCause::Memory => Status::Memory,
    }
}

fn status_of_play(cause: PlayCause) -> Status
    ensures { result ≡ status_of_play cause }
{
    match cause {
        PlayCause::Write => Status::WriteFault,
        PlayCause::Device => Status::DiskFault { disk: FIRST },
        PlayCause::Damaged { file, at } => Status::Damaged {
            disk: FIRST,
            file,
            at,
        },
        PlayCause::Memory => Status::Memory,
    }
}
