// The new files of an application.
ghost use Rattle.std.specs.Prelude.{◌≡◌, ◌≢◌, ◌≤◌, ◌<◌, ◌+◌, ◌^◌, ◌++◌, ℕ, List, length, map as map_list, Some, Err, IsTrue, OnOk};
ghost use Rattle.gt_applied.specs.Applied.{to_packed, bytes_of, HasSpelling, HaveSpellings};
ghost use Rattle.gt_apply.specs.Plan.{file_for};
ghost use Rattle.gt_base.specs.Switching.{HasSwitchCause};
ghost use Rattle.gt_base.specs.declared.switch_error.SwitchError.{SwitchError as Why};
ghost use Rattle.gt_bytes.specs.Standing.{IsBytes};
ghost use Rattle.gt_checkpoint.specs.Advancing.{AreKept, calls_for, calls_of};
ghost use Rattle.gt_checkpoint.specs.Writing.{IsPackable, ArePackable, StandInRow, OnlyThese};
ghost use Rattle.gt_disk.specs.Files.{now, still, HasDiskCause};
ghost use Rattle.gt_disk.specs.Kinds.{pack_file};
ghost use Rattle.gt_disk.specs.Moments.{Since, Runs, AnyState};
ghost use Rattle.gt_pack.specs.Building.{IsWritten};
ghost use Rattle.gt_pack.specs.Reading.{last_name};
ghost use Rattle.gt_pack.specs.Spelling.{Packed, ArePacked, IsPack, pack};
ghost use Rattle.gt_reftext.specs.Loose.{loose};

use gt_apply::{NewContent, NewFile};
use gt_base::SwitchError;
use gt_disk::{Disk, DiskError, FileId, write_synced};
use gt_model::Added;
use gt_name::Name;
use gt_pack::PackBuilder;
use gt_reftext::write_loose;
use std::alloc::Global;

/// Adds records to a pack that waits for as many.
fn add_records<D: Disk>(
    alloc: Global,
    disk: &mut D,
    builder: &mut PackBuilder,
    records: &[Added],
) -> Result<(), DiskError>
    requires room { length builder.old.items + length records.now ≡ builder.old.count }
    requires packed { ArePacked (last_name builder.old.items) (map_list to_packed records.now) }
    ensures full { OnOk result (length builder.new.items ≡ builder.new.count) }
    ensures file { builder.new.file ≡ builder.old.file }
    ensures written { IsTrue D.tells → OnOk result ((ps : List Packed) → IsWritten builder.old ps (D.view disk.old)
        → IsWritten builder.new (ps ++ map_list to_packed records.now) (D.view disk.new)) }
    ensures run { IsTrue D.tells → Runs (pack_file builder.old.file) AnyState (D.view disk.old) (D.view disk.new) }
    ensures later { (D.view disk.old).clock ≤ (D.view disk.new).clock }
    ensures cause { HasDiskCause (D.fault_count disk.old) (D.fault_count disk.new) result }
    ensures counted { D.call_count disk.new ≤ D.call_count disk.old + length records.now }
{
    'records: for record in records {
        builder.add(alloc, disk, record.name, record.whole.bytes())?;
    }
    Ok(())
}

/// Writes the pack of these records and syncs it. A count that doesn't fit 4 bytes is want of memory.
fn write_pack<D: Disk>(
    alloc: Global,
    disk: &mut D,
    number: u64,
    records: &[Added],
) -> Result<(), DiskError>
    requires { length records.now < 2 ^ 32 → IsPack (map_list to_packed records.now) }
    ensures few { OnOk result (length records.now < 2 ^ 32) }
    ensures kept { IsTrue D.tells → OnOk result (now (D.view disk.new) (pack_file number) ≡ still (Some (pack (map_list to_packed records.now)))) }
    ensures run { IsTrue D.tells → Runs (pack_file number) AnyState (D.view disk.old) (D.view disk.new) }
    ensures later { (D.view disk.old).clock ≤ (D.view disk.new).clock }
    ensures cause { HasDiskCause (D.fault_count disk.old) (D.fault_count disk.new) result }
    ensures counted { D.call_count disk.new ≤ D.call_count disk.old + (length records.now + 3) }
{
    let Ok(count) = u32::try_from(records.len()) else {
        return Err(DiskError::Memory);
    };
    let mut builder = PackBuilder::begin(alloc, disk, number, count)?;
    add_records(alloc, disk, &mut builder, records)?;
    builder.end(alloc, disk)
}

/// Each number that a slice of bytes has is below 256.
fn are_bytes(bytes: &[u8])
    ensures { IsBytes bytes.now }
{}

/// Writes the loose file of a value and syncs it.
fn write_value<D: Disk>(disk: &mut D, file: FileId, value: Name) -> Result<(), DiskError>
    ensures bytes { IsBytes value }
    ensures kept { IsTrue D.tells → OnOk result (now (D.view disk.new) file ≡ still (Some (loose value))) }
    ensures run { IsTrue D.tells → Runs file AnyState (D.view disk.old) (D.view disk.new) }
    ensures later { (D.view disk.old).clock ≤ (D.view disk.new).clock }
    ensures cause { HasDiskCause (D.fault_count disk.old) (D.fault_count disk.new) result }
    ensures counted { D.call_count disk.new ≤ D.call_count disk.old + 2 }
{
    are_bytes(&value.0);
    write_synced(disk, file, &write_loose(value))
}

/// Writes a new file and syncs it.
fn write_file<D: Disk>(alloc: Global, disk: &mut D, new: &NewFile) -> Result<(), DiskError>
    requires kind { new.now.file ≡ file_for new.now.file.number new.now.content }
    requires packable { IsPackable new.now.content }
    ensures spelled { OnOk result (HasSpelling new.now.content) }
    ensures kept { IsTrue D.tells → OnOk result (now (D.view disk.new) new.now.file ≡ still (Some (bytes_of new.now.content))) }
    ensures run { IsTrue D.tells → Runs new.now.file AnyState (D.view disk.old) (D.view disk.new) }
    ensures later { (D.view disk.old).clock ≤ (D.view disk.new).clock }
    ensures cause { HasDiskCause (D.fault_count disk.old) (D.fault_count disk.new) result }
    ensures counted { D.call_count disk.new ≤ D.call_count disk.old + calls_for new.now.content }
{
    match &new.content {
        NewContent::Pack(records) => {
            write_pack(alloc, disk, new.file.number, records.as_slice())
        }
        NewContent::Loose(value) => write_value(disk, new.file, *value),
    }
}

/// Writes new files one after the other, and syncs each.
fn write_all<D: Disk>(alloc: Global, disk: &mut D, files: &[NewFile]) -> Result<(), DiskError>
    requires row { (n : ℕ) × StandInRow n files.now }
    requires packable { ArePackable files.now }
    ensures spelled { OnOk result (HaveSpellings files.now) }
    ensures any_moment { IsTrue D.tells → Since (OnlyThese files.now (now (D.view disk.old))) (D.view disk.old) (D.view disk.new) }
    ensures kept { IsTrue D.tells → OnOk result (AreKept files.now (now (D.view disk.new))) }
    ensures later { (D.view disk.old).clock ≤ (D.view disk.new).clock }
    ensures cause { HasDiskCause (D.fault_count disk.old) (D.fault_count disk.new) result }
    ensures counted { D.call_count disk.new ≤ D.call_count disk.old + calls_of files.now }
{
    'files: for new in files {
        write_file(alloc, disk, new)?;
    }
    Ok(())
}

/// Writes the new files of an application in order, and syncs each: after `Ok` a stop leaves all of them. Each is read again
/// from what was written.
///
/// `Untouched`: a device failed. `Memory`: memory ran out, or a pack has 2^32 records or more. After an error each of these
/// files is as it was, absent or has any bytes.
pub(crate) fn write_files<D: Disk>(
    alloc: Global,
    disk: &mut D,
    files: &[NewFile],
) -> Result<(), SwitchError>
    requires row { (n : ℕ) × StandInRow n files.now }
    requires packable { ArePackable files.now }
    ensures spelled { OnOk result (HaveSpellings files.now) }
    ensures sure { result ≢ Err Why.Unsure }
    // At each moment of the call no other file changes.
    ensures any_moment { IsTrue D.tells → Since (OnlyThese files.now (now (D.view disk.old))) (D.view disk.old) (D.view disk.new) }
    ensures kept { IsTrue D.tells → OnOk result (AreKept files.now (now (D.view disk.new))) }
    ensures later { (D.view disk.old).clock ≤ (D.view disk.new).clock }
    ensures cause { HasSwitchCause (D.fault_count disk.old) (D.fault_count disk.new) result }
    ensures counted { D.call_count disk.new ≤ D.call_count disk.old + calls_of files.now }
{
    match write_all(alloc, disk, files) {
        Ok(()) => Ok(()),
        Err(DiskError::Failed) => Err(SwitchError::Untouched),
        Err(DiskError::Memory) => Err(SwitchError::Memory),
    }
}
