// One file at a time.
ghost use Rattle.std.specs.Prelude.{◌≡◌, ◌≢◌, ◌≤◌, Ok, IsTrue, IfOk};
ghost use Rattle.gt_disk.specs.Files.{Quiet};
ghost use Rattle.gt_disk.specs.Kinds as kinds;
ghost use Rattle.gt_log.specs.declared.mount_cause.MountCause.{MountCause};
ghost use Rattle.gt_manifest.specs.Whole.{manifest_of, Fits};
ghost use Rattle.gt_manifest.specs.declared.version.Version.TheVariants.{Second};
ghost use Rattle.gt_reading.specs.Reading.{run, file_in};
ghost use Rattle.gt_reftext.specs.Packed.{packed_of};
ghost use Rattle.gt_base.specs.Answers.{Finds, Reads, HasCause};
ghost use Rattle.gt_base.specs.Recovery.{packed_in, listed, loose_in, manifest_in, checked, first_manifest};

use gt_disk::{
    Disk, DiskError, FileId, loose_file, manifest_file, pack_file, packed_file, read_whole,
};
use gt_list::ListOf;
use gt_log::MountCause;
use gt_manifest::{Loose, Manifest, ManifestError};
use gt_model::RefValue;
use gt_reftext::{PackedList, RefTextError, line_begin, read_loose, read_packed};
use std::alloc::Global;

/// A file is damaged from this place on.
pub(crate) fn damaged(file: FileId, at: usize) -> MountCause
    ensures { result ≡ MountCause.Damaged file at }
{
    MountCause::Damaged {
        file,
        at: at as u64,
    }
}

/// The bytes of a file that has to be there.
pub(crate) fn file_bytes<D: Disk>(
    alloc: Global,
    disk: &mut D,
    file: FileId,
) -> Result<ListOf<u8>, MountCause>
    ensures quiet { IsTrue D.tells → Quiet (D.view disk.old) (D.view disk.new) }
    ensures later { (D.view disk.old).clock ≤ (D.view disk.new).clock }
    ensures cause { HasCause (D.fault_count disk.old) (D.fault_count disk.new) result }
    ensures bytes { IsTrue D.tells → Finds file ((D.view disk.old).reads file) result }
{
    match read_whole(alloc, disk, file) {
        Err(DiskError::Failed) => Err(MountCause::DeviceFault),
        Err(DiskError::Memory) => Err(MountCause::Memory),
        Ok(None) => Err(damaged(file, 0)),
        Ok(Some(bytes)) => Ok(ListOf::from_vec(bytes)),
    }
}

/// The packed references of a file.
fn read_packed_file<D: Disk>(
    alloc: Global,
    disk: &mut D,
    number: u64,
) -> Result<PackedList, MountCause>
    ensures quiet { IsTrue D.tells → Quiet (D.view disk.old) (D.view disk.new) }
    ensures later { (D.view disk.old).clock ≤ (D.view disk.new).clock }
    ensures cause { HasCause (D.fault_count disk.old) (D.fault_count disk.new) result }
    ensures answer { IsTrue D.tells → Reads (run (D.view disk.old).reads (file_in (kinds.packed_file number) (λ bytes. listed bytes (packed_of bytes)))) result }
{
    let file = packed_file(number);
    let bytes = file_bytes(alloc, disk, file)?;
    match read_packed(alloc, bytes.as_slice()) {
        Ok(list) => Ok(list),
        Err(RefTextError::BadLine { line }) => {
            Err(damaged(file, line_begin(bytes.as_slice(), line)))
        }
        Err(RefTextError::Memory) => Err(MountCause::Memory),
    }
}

/// The packed references of a repository; a number of 0 stands for none.
pub(crate) fn read_packed_refs<D: Disk>(
    alloc: Global,
    disk: &mut D,
    number: u64,
) -> Result<PackedList, MountCause>
    ensures quiet { IsTrue D.tells → Quiet (D.view disk.old) (D.view disk.new) }
    ensures later { (D.view disk.old).clock ≤ (D.view disk.new).clock }
    ensures cause { HasCause (D.fault_count disk.old) (D.fault_count disk.new) result }
    ensures answer { IsTrue D.tells → Reads (run (D.view disk.old).reads (packed_in number)) result }
{
    if number == 0 {
        return Ok(ListOf::new(alloc));
    }
    read_packed_file(alloc, disk, number)
}

/// The reference that a loose file has.
pub(crate) fn read_loose_ref<D: Disk>(
    alloc: Global,
    disk: &mut D,
    loose: &Loose,
) -> Result<RefValue, MountCause>
    ensures quiet { IsTrue D.tells → Quiet (D.view disk.old) (D.view disk.new) }
    ensures later { (D.view disk.old).clock ≤ (D.view disk.new).clock }
    ensures cause { HasCause (D.fault_count disk.old) (D.fault_count disk.new) result }
    ensures answer { IsTrue D.tells → Reads (run (D.view disk.old).reads (loose_in loose.now)) result }
{
    let file = loose_file(loose.file);
    let bytes = file_bytes(alloc, disk, file)?;
    let Ok(value) = read_loose(bytes.as_slice()) else {
        return Err(damaged(file, 0));
    };
    match loose.name.clone() {
        Ok(name) => Ok(RefValue { name, value }),
        Err(_) => Err(MountCause::Memory),
    }
}

/// The manifest of an epoch that has a file.
fn read_manifest_file<D: Disk>(
    alloc: Global,
    disk: &mut D,
    epoch: u64,
    gate: u64,
) -> Result<Manifest, MountCause>
    ensures quiet { IsTrue D.tells → Quiet (D.view disk.old) (D.view disk.new) }
    ensures later { (D.view disk.old).clock ≤ (D.view disk.new).clock }
    ensures cause { HasCause (D.fault_count disk.old) (D.fault_count disk.new) result }
    ensures epoch { IfOk result (λ m. m.epoch ≡ epoch) }
    ensures within { IfOk result (λ m. m.applied ≤ gate) }
    ensures fits { IfOk result (Fits Second) }
    ensures answer { IsTrue D.tells → Reads (run (D.view disk.old).reads (file_in (kinds.manifest_file epoch) (λ bytes. checked epoch gate (manifest_of bytes)))) result }
{
    let file = manifest_file(epoch);
    let bytes = file_bytes(alloc, disk, file)?;
    match Manifest::decode(alloc, bytes.as_slice()) {
        Ok(manifest) => {
            if manifest.epoch != epoch {
                return Err(damaged(file, 4));
            }
            if gate < manifest.applied {
                return Err(damaged(file, 12));
            }
            Ok(manifest)
        }
        Err(ManifestError::BadManifest { at }) => Err(damaged(file, at)),
        Err(ManifestError::Memory) => Err(MountCause::Memory),
    }
}

/// The manifest of epoch 0, which has no file.
fn no_manifest(alloc: Global) -> Manifest
    ensures { result ≡ first_manifest }
{
    Manifest {
        epoch: 0,
        applied: 0,
        next: 1,
        repos: ListOf::new(alloc),
    }
}

/// The manifest of an epoch, which may apply as many entries as the gate counts.
pub(crate) fn read_manifest<D: Disk>(
    alloc: Global,
    disk: &mut D,
    epoch: u64,
    gate: u64,
) -> Result<Manifest, MountCause>
    ensures quiet { IsTrue D.tells → Quiet (D.view disk.old) (D.view disk.new) }
    ensures later { (D.view disk.old).clock ≤ (D.view disk.new).clock }
    ensures cause { HasCause (D.fault_count disk.old) (D.fault_count disk.new) result }
    ensures epoch { IfOk result (λ m. m.epoch ≡ epoch) }
    ensures within { IfOk result (λ m. m.applied ≤ gate) }
    ensures fits { IfOk result (Fits Second) }
    ensures answer { IsTrue D.tells → Reads (run (D.view disk.old).reads (manifest_in epoch gate)) result }
{
    if epoch == 0 {
        return Ok(no_manifest(alloc));
    }
    read_manifest_file(alloc, disk, epoch, gate)
}
