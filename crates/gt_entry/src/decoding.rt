ghost use Rattle.std.specs.Prelude.{◌≡◌, ◌++◌, IfOk, Ok};
ghost use Rattle.gt_model.specs.declared.entry.Entry.{Entry};
ghost use Rattle.gt_entry.specs.Answers.{Reads, Checks, MemoryAfter};
ghost use Rattle.gt_entry.specs.Fits.{IsEntry, HasSpelling};
ghost use Rattle.gt_entry.specs.Reading.{checked, entry_of, front_at};
ghost use Rattle.gt_entry.specs.Spelling.{spelling};

use crate::encoding::version_of;
use crate::reading::read_all;
use crate::{EntryError, Version};
use gt_bytes::Short;
use gt_model::Entry;
use std::alloc::Global;

/// The second spelling is of a write with at least one check.
fn check(version: Version, entry: Entry) -> Result<Entry, Short>
    ensures { Checks result (checked (version, entry)) }
{
    match (version, version_of(&entry.change)) {
        (Version::First, _) => Ok(entry),
        (Version::Second, Version::Second) => Ok(entry),
        (Version::Second, Version::First) => Err(Short { at: 0 }),
    }
}

#[tactic(auto, unfolding(crate::specs::Reading::entry_of))]
fn read_entry(alloc: Global, bytes: &[u8]) -> Result<Entry, EntryError>
    ensures value { Reads result (entry_of bytes.now) }
    ensures memory { MemoryAfter result (front_at bytes.now 0) }
{
    let (version, entry) = read_all(alloc, bytes)?;
    let entry = check(version, entry)?;
    Ok(entry)
}

/// The entry that the bytes spell, all of the bytes (docs/FORMATS.md, "Entry").
///
/// `BadEntry` has the place of the first field that may not stand there, in bytes from 0. A field that is cut, has a wrong
/// magic, a bad path or reference, a wrong order, a repeated item or a value out of range is refused at its begin, a
/// record that isn't one or is too large where its bytes begin, and bytes behind the last field where they begin. If there
/// is none of these, a second spelling of an entry without a check is refused at 0. That an added record has its name isn't
/// looked at. `Memory` is given only where memory ran out, behind a good magic, position and path.
pub fn decode_entry(alloc: Global, bytes: &[u8]) -> Result<Entry, EntryError>
    // What is read is spelled so.
    ensures found { IfOk result (λ entry. bytes.now ≡ spelling entry) }
    // It may be encoded again.
    ensures fits { IfOk result HasSpelling }
    ensures typed { IfOk result IsEntry }
    // What is spelled so is read, unless memory runs out.
    ensures only { (entry : Entry) → IsEntry entry → HasSpelling entry → bytes.now ≡ spelling entry → Reads result (Ok entry) }
    // Else the first field that may not stand there.
    ensures exact { Reads result (entry_of bytes.now) }
    // No memory is wanted before the path is read.
    ensures memory { MemoryAfter result (front_at bytes.now 0) }
{
    read_entry(alloc, bytes)
}
