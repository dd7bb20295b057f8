ghost use Rattle.std.specs.Prelude.{◌≡◌, ◌≤◌, ◌⊎◌, ◌+◌, ◌-◌, ◌<◌, ◌^◌, ℕ, List, length, false, IsTrue, IfOk, OnErr, Err, Some};
ghost use Rattle.gt_disk.specs.Files.{now};
ghost use Rattle.gt_disk.specs.Moments.{Since};
ghost use Rattle.gt_log.specs.declared.log_error.LogError.{LogError};
ghost use Rattle.gt_log.specs.Log.{Stands, AddMoment, AfterAdd, leaves_doubt, HasLogCause};
ghost use Rattle.gt_entry.specs.Answers.{Reads};
ghost use Rattle.gt_entry.specs.Fits.{IsEntry, HasSpelling};
ghost use Rattle.gt_base.specs.Built.{IsBuilt};
ghost use Rattle.gt_base.specs.Spelling.{encode, decode, IsSpelled};

use gt_disk::Disk;
use gt_entry::{EntryError, decode_entry, encode_entry};
use gt_log::{Log, LogError};
use gt_model::Entry;
use std::alloc::Global;

/// The entry at a position that these bytes spell.
pub(crate) fn decode(alloc: Global, position: u64, bytes: &[u8]) -> Result<Entry, EntryError>
    ensures entry { Reads result (decode position (Some bytes.now)) }
    ensures next { IfOk result (λ entry. entry.position ≡ position) }
    ensures typed { IfOk result IsEntry }
    ensures fits { IfOk result HasSpelling }
{
    let entry = decode_entry(alloc, bytes)?;
    if entry.position == position {
        Ok(entry)
    } else {
        Err(EntryError::BadEntry { at: 4 })
    }
}

/// Adds an entry to the log of a disk.
pub(crate) fn add_entry<D: Disk>(
    alloc: Global,
    log: &mut Log,
    disk: &mut D,
    entry: &Entry,
) -> Result<u64, LogError>
    requires settled { log.old.in_doubt ≡ false }
    requires room { log.old.len < 2 ^ 64 - 1 }
    requires built { IsBuilt entry.now }
    requires spelling { HasSpelling entry.now }
    ensures spelled { (result ≡ Err LogError.Memory) ⊎ IsSpelled entry.now }
    ensures typed { (result ≡ Err LogError.Memory) ⊎ IsEntry entry.now }
    ensures ok { IfOk result (λ n. (n ≡ log.old.len + 1) × (log.new.len ≡ n)) }
    ensures err { OnErr result (log.new.len ≡ log.old.len) }
    ensures doubt { log.new.in_doubt ≡ leaves_doubt result }
    ensures cause { HasLogCause (D.fault_count disk.old) (D.fault_count disk.new) result }
    ensures later { (D.view disk.old).clock ≤ (D.view disk.new).clock }
    ensures counted { D.call_count disk.new ≤ D.call_count disk.old + 4 }
    ensures any_moment { IsTrue D.tells → (first : ℕ) (entries : List (List ℕ)) → log.old.len + 1 ≡ length entries + first → Stands first entries (now (D.view disk.old))
        → Since (AddMoment result first entries (encode entry.now) (now (D.view disk.old))) (D.view disk.old) (D.view disk.new) }
    ensures after { IsTrue D.tells → (first : ℕ) (entries : List (List ℕ)) → log.old.len + 1 ≡ length entries + first → Stands first entries (now (D.view disk.old))
        → AfterAdd result first entries (encode entry.now) (now (D.view disk.new)) }
{
    match encode_entry(alloc, entry) {
        Ok(bytes) => log.add(disk, &bytes),
        Err(_) => Err(LogError::Memory),
    }
}
