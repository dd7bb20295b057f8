ghost use Rattle.std.specs.Prelude.{◌≡◌, ◌≢◌, ◌⊎◌, ◌+◌, ◌≤◌, IsTrue, IfOk, Err};
ghost use Rattle.sha1.specs.Sha1.{sha1};
ghost use Rattle.gt_disk.specs.Files.{Quiet};
ghost use Rattle.gt_places.specs.Reading.{Fetches, ReadCause, piece};
ghost use Rattle.gt_places.specs.declared.error.ReadError.{ReadError as Why};

use crate::ReadError;
use gt_disk::Disk;
use gt_name::Name;
use gt_object::{ObjectError, Record};
use gt_objset::Place;
use std::alloc::Global;

/// The record of a name that a disk holds at a place, read by one call. `Damaged` comes exactly where the disk holds no record
/// of that name there, `Failed` only of a fault of the disk.
pub fn fetch<D: Disk>(
    alloc: Global,
    disk: &mut D,
    place: Place,
    name: &Name,
) -> Result<Record, ReadError>
    ensures named { IfOk result (λ whole. sha1 whole ≡ name.now) }
    ensures fetches { IsTrue D.tells → Fetches (piece ((D.view disk.old).reads place.file) place) name.now result }
    ensures cause { ReadCause (D.fault_count disk.old) (D.fault_count disk.new) result }
    // Memory runs out before the disk is asked, or once the bytes of that name are read.
    ensures memory { IsTrue D.tells → result ≡ Err Why.Memory → (disk.new ≡ disk.old) ⊎ (sha1 (piece ((D.view disk.old).reads place.file) place) ≡ name.now) }
    ensures counted { D.call_count disk.new ≤ D.call_count disk.old + 1 }
    ensures later { (D.view disk.old).clock ≤ (D.view disk.new).clock }
    ensures quiet { IsTrue D.tells → Quiet (D.view disk.old) (D.view disk.new) }
{
    let Ok(mut bytes) = vec![in alloc; 0u8; place.len as usize] else {
        return Err(ReadError::Memory);
    };
    match disk.read_at(place.file, place.at, &mut bytes) {
        Err(_) => Err(ReadError::Failed),
        Ok(count) => {
            bytes.truncate(count);
            record_of(alloc, &bytes, name)
        }
    }
}

/// The record that these bytes are, if they are one of this name.
fn record_of(alloc: Global, bytes: &[u8], name: &Name) -> Result<Record, ReadError>
    ensures read { result ≢ Err Why.Failed }
    ensures other { sha1 bytes.now ≢ name.now → result ≡ Err Why.Damaged }
    ensures memory { result ≡ Err Why.Memory → sha1 bytes.now ≡ name.now }
    ensures fetches { Fetches bytes.now name.now result }
{
    if Name::of_record(bytes) != *name {
        return Err(ReadError::Damaged);
    }
    match Record::parse(alloc, bytes) {
        Ok(whole) => Ok(whole),
        Err(ObjectError::Memory) => Err(ReadError::Memory),
        Err(_) => Err(ReadError::Damaged),
    }
}
