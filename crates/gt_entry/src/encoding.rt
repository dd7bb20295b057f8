ghost use Rattle.std.specs.Prelude.{◌≡◌, ◌++◌, ◌∷◌, IfOk, IfErr, OnOk};
ghost use Rattle.std.specs.List.{All, list_any};
ghost use Rattle.gt_bytes.specs.Spelling.{text, counted};
ghost use Rattle.gt_name.specs.Paths.{IsPath};
ghost use Rattle.gt_entry.specs.declared.error.EntryError.TheVariants.{Memory};
ghost use Rattle.gt_entry.specs.Fits.{IsNumber, IsName, IsCounted, IsWrite, IsWritable, IsChange, IsEntry, HasChangeSpelling, HasSpelling};
ghost use Rattle.gt_entry.specs.Spelling.{is_check, flag, number, same, update, item, change, version, magic, spelling};

use crate::names::put_names;
use crate::records::put_records;
use crate::refs::put_refs;
use crate::{EntryError, Version};
use gt_bytes::{put_text, put_u8, put_u64};
use gt_list::NoMemory;
use gt_model::{AddedRecords, Change, Entry, RefUpdate, RefUpdates};
use gt_name::{Names, RepoPath, law_paths};
use std::alloc::Global;

fn any_check(refs: &[RefUpdate]) -> bool
    ensures { result ≡ list_any is_check refs.now }
{
    refs.iter().any(|update| update.new.is_none())
}

/// Which of the two spellings a change has.
pub(crate) fn version_of(change: &Change) -> Version
    ensures { result ≡ version change.now }
{
    match change {
        Change::Create { .. } => Version::First,
        Change::Delete => Version::First,
        Change::Link { .. } => Version::First,
        Change::Write { refs, .. } => {
            if any_check(refs.as_slice()) {
                Version::Second
            } else {
                Version::First
            }
        }
        Change::Repack { .. } => Version::First,
        Change::Prune { .. } => Version::First,
        Change::PackRefs { .. } => Version::First,
        Change::Unlink { .. } => Version::First,
    }
}

fn put_magic(out: &mut Vec<u8>, version: Version) -> Result<(), NoMemory>
    ensures { OnOk result (out.new.items ≡ out.old.items ++ magic version) }
{
    match version {
        Version::First => out.extend_from_slice(b"GTE1")?,
        Version::Second => out.extend_from_slice(b"GTE2")?,
    }
    Ok(())
}

/// A kind of packing, its file, and the names that it drops.
fn put_packing(out: &mut Vec<u8>, kind: u8, file: u64, dropped: &Names) -> Result<(), NoMemory>
    requires { IsCounted dropped.now }
    ensures spelled { OnOk result (out.new.items ≡ out.old.items ++ kind ∷ (number file ++ counted same dropped.now)) }
    ensures typed { OnOk result (IsNumber file × All IsName dropped.now) }
{
    put_u8(out, kind)?;
    put_u64(out, file)?;
    put_names(out, dropped.as_slice())
}

fn put_write(
    out: &mut Vec<u8>,
    version: Version,
    refs: &RefUpdates,
    needed: &Names,
    added: &AddedRecords,
) -> Result<(), NoMemory>
    requires { IsWritable refs.now needed.now added.now }
    ensures spelled { OnOk result (out.new.items ≡ out.old.items ++ 4 ∷ (counted (update version) refs.now ++ (counted same needed.now ++ counted item added.now))) }
    ensures typed { OnOk result (IsWrite refs.now needed.now added.now) }
{
    put_u8(out, 4)?;
    put_refs(out, version, refs.as_slice())?;
    put_names(out, needed.as_slice())?;
    put_records(out, added.as_slice())
}

fn put_create(out: &mut Vec<u8>, pool: bool) -> Result<(), NoMemory>
    ensures { OnOk result (out.new.items ≡ out.old.items ++ 1 ∷ flag pool) }
{
    put_u8(out, 1)?;
    put_u8(out, if pool { 1 } else { 0 })
}

fn put_link(out: &mut Vec<u8>, pool: &RepoPath) -> Result<(), NoMemory>
    ensures spelled { OnOk result (out.new.items ≡ out.old.items ++ 3 ∷ text pool.now) }
    ensures typed { OnOk result (IsPath pool.now) }
{
    law_paths();
    put_u8(out, 3)?;
    put_text(out, pool.bytes())
}

/// A kind of change that has a file number alone.
fn put_file(out: &mut Vec<u8>, kind: u8, file: u64) -> Result<(), NoMemory>
    ensures spelled { OnOk result (out.new.items ≡ out.old.items ++ kind ∷ number file) }
    ensures typed { IsNumber file }
{
    put_u8(out, kind)?;
    put_u64(out, file)
}

#[tactic(auto, unfolding(crate::specs::Spelling::change))]
fn put_change(out: &mut Vec<u8>, version: Version, what: &Change) -> Result<(), NoMemory>
    requires { HasChangeSpelling what.now }
    ensures spelled { OnOk result (out.new.items ≡ out.old.items ++ change version what.now) }
    ensures typed { OnOk result (IsChange what.now) }
{
    match what {
        Change::Create { pool } => put_create(out, *pool),
        Change::Delete => put_u8(out, 2),
        Change::Link { pool } => put_link(out, pool),
        Change::Write {
            refs,
            needed,
            added,
        } => put_write(out, version, refs, needed, added),
        Change::Repack { file, dropped } => put_packing(out, 5, *file, dropped),
        Change::Prune { file, dropped } => put_packing(out, 6, *file, dropped),
        Change::PackRefs { file } => put_file(out, 7, *file),
        Change::Unlink { file } => put_file(out, 8, *file),
    }
}

/// The one spelling of an entry, `GTE2` exactly where it is a write with at least one check, else `GTE1`
/// (docs/FORMATS.md, "Entry"). The only error is `Memory`.
#[tactic(auto, unfolding(crate::specs::Spelling::spelling))]
pub fn encode_entry(alloc: Global, entry: &Entry) -> Result<Vec<u8>, EntryError>
    requires { HasSpelling entry.now }
    ensures text { IfOk result (λ bytes. bytes.items ≡ spelling entry.now) }
    // What the types say of the entry, for a proof that reads it again.
    ensures typed { IfOk result (λ bytes. IsEntry entry.now) }
    ensures err { IfErr result (λ e. e ≡ Memory) }
{
    law_paths();
    let version = version_of(&entry.change);
    let mut out = Vec::new(alloc);
    put_magic(&mut out, version)?;
    put_u64(&mut out, entry.position)?;
    put_text(&mut out, entry.path.bytes())?;
    put_change(&mut out, version, &entry.change)?;
    Ok(out)
}
