ghost use Rattle.std.specs.Prelude.{◌≡◌, ◌≤◌, ◌++◌, ◌∷◌, [], length, OnOk, IfSome};
ghost use Rattle.std.specs.List.{All};
ghost use Rattle.gt_bytes.specs.Answers.{Gives, Within, MemoryAfter, Reads, EndsWithin};
ghost use Rattle.gt_bytes.specs.Reading.{kept, counted_at};
ghost use Rattle.gt_bytes.specs.Spelling.{counted};
ghost use Rattle.gt_entry.specs.Agrees.{Agrees};
ghost use Rattle.gt_entry.specs.Fits.{IsCounted, IsName, IsUpdate};
ghost use Rattle.gt_entry.specs.Reading.{is_new, ref_at, target_by, target_at, update_at};
ghost use Rattle.gt_entry.specs.Spelling.{target, update};

use crate::Version;
use crate::fields::{read_flag, read_ref};
use crate::names::put_id;
use gt_bytes::{FieldError, Short, get_name, get_u32, put_text, put_u8, put_u32};
use gt_list::{ListOf, NoMemory};
use gt_model::{RefUpdate, RefUpdates};
use gt_name::{Name, RefName, law_references};
use std::alloc::Global;
use std::collections::BTreeSet;

/// A name that none of the updates before it has. The set has their names.
fn read_new_ref(
    alloc: Global,
    bytes: &[u8],
    before: &[RefUpdate],
    set: &BTreeSet<RefName>,
    at: usize,
) -> Result<(RefName, usize), FieldError>
    requires inside { at ≤ length bytes.now }
    requires agrees { Agrees set.now before.now }
    ensures within { Within result (length bytes.now) }
    ensures value { Gives result (kept (is_new before.now) at (ref_at bytes.now at)) }
    ensures memory { MemoryAfter result (ref_at bytes.now at) }
{
    let (name, next) = read_ref(alloc, bytes, at)?;
    if set.contains(&name) {
        return Err(FieldError::BadField { at });
    }
    Ok((name, next))
}

/// The new value, if there is one.
fn read_target_by(bytes: &[u8], moves: bool, at: usize) -> Result<(Option<Name>, usize), Short>
    requires { at ≤ length bytes.now }
    ensures within { EndsWithin result (length bytes.now) }
    ensures value { Reads result (target_by bytes.now moves at) }
{
    if !moves {
        return Ok((None, at));
    }
    let (new, next) = get_name(bytes, at)?;
    Ok((Some(Name(new)), next))
}

/// What a reference moves to. None for a check.
#[tactic(auto, unfolding(crate::specs::Reading::target_at))]
fn read_target(version: Version, bytes: &[u8], at: usize) -> Result<(Option<Name>, usize), Short>
    requires { at ≤ length bytes.now }
    ensures within { EndsWithin result (length bytes.now) }
    ensures value { Reads result (target_at version bytes.now at) }
{
    match version {
        Version::First => {
            let (new, next) = get_name(bytes, at)?;
            Ok((Some(Name(new)), next))
        }
        Version::Second => {
            let (moves, next) = read_flag(bytes, at)?;
            read_target_by(bytes, moves, next)
        }
    }
}

#[tactic(auto, unfolding(crate::specs::Reading::update_at))]
fn read_update(
    alloc: Global,
    version: Version,
    bytes: &[u8],
    before: &[RefUpdate],
    set: &BTreeSet<RefName>,
    at: usize,
) -> Result<(RefUpdate, usize), FieldError>
    requires inside { at ≤ length bytes.now }
    requires agrees { Agrees set.now before.now }
    ensures within { Within result (length bytes.now) }
    ensures value { Gives result (update_at version bytes.now before.now at) }
    ensures memory { MemoryAfter result (ref_at bytes.now at) }
{
    let (name, after) = read_new_ref(alloc, bytes, before, set, at)?;
    let (old, begin) = get_name(bytes, after)?;
    let (new, next) = read_target(version, bytes, begin)?;
    let old = Name(old);
    Ok((RefUpdate { name, old, new }, next))
}

/// One update more, in the list and its name in the set.
fn keep(
    refs: &mut RefUpdates,
    set: &mut BTreeSet<RefName>,
    update: RefUpdate,
) -> Result<(), NoMemory>
    requires { Agrees set.old refs.old }
    ensures kept { OnOk result (refs.new ≡ refs.old ++ update ∷ []) }
    ensures agrees { OnOk result (Agrees set.new refs.new) }
{
    let key = match update.name.clone() {
        Ok(key) => key,
        Err(_) => return Err(NoMemory),
    };
    match set.insert(key) {
        Err(_) => return Err(NoMemory),
        Ok(_) => {}
    }
    match refs.push(update) {
        Err(_) => Err(NoMemory),
        Ok(()) => Ok(()),
    }
}

/// The updates and checks of a write.
pub(crate) fn read_refs(
    alloc: Global,
    version: Version,
    bytes: &[u8],
    from: usize,
) -> Result<(RefUpdates, usize), FieldError>
    requires { from ≤ length bytes.now }
    ensures within { Within result (length bytes.now) }
    ensures value { Gives result (counted_at (update_at version bytes.now) bytes.now from) }
{
    let (count, begin) = get_u32(bytes, from)?;
    let mut refs = ListOf::new(alloc);
    let mut set = BTreeSet::new(alloc);
    let mut at = begin;
    'refs: for _ in 0..count {
        let (update, next) = read_update(alloc, version, bytes, refs.as_slice(), &set, at)?;
        keep(&mut refs, &mut set, update)?;
        at = next;
    }
    Ok((refs, at))
}

fn put_target(out: &mut Vec<u8>, version: Version, new: &Option<Name>) -> Result<(), NoMemory>
    ensures spelled { OnOk result (out.new.items ≡ out.old.items ++ target version new.now) }
    ensures typed { OnOk result (IfSome new.now IsName) }
{
    match (version, new) {
        (Version::First, None) => Ok(()),
        (Version::First, Some(new)) => put_id(out, new),
        (Version::Second, None) => put_u8(out, 0),
        (Version::Second, Some(new)) => {
            put_u8(out, 1)?;
            put_id(out, new)
        }
    }
}

fn put_update(out: &mut Vec<u8>, version: Version, it: &RefUpdate) -> Result<(), NoMemory>
    ensures spelled { OnOk result (out.new.items ≡ out.old.items ++ update version it.now) }
    ensures typed { OnOk result (IsUpdate it.now) }
{
    law_references();
    put_text(out, it.name.bytes())?;
    put_id(out, &it.old)?;
    put_target(out, version, &it.new)
}

/// Appends the updates and checks of a write.
pub(crate) fn put_refs(
    out: &mut Vec<u8>,
    version: Version,
    refs: &[RefUpdate],
) -> Result<(), NoMemory>
    requires { IsCounted refs.now }
    ensures spelled { OnOk result (out.new.items ≡ out.old.items ++ counted (update version) refs.now) }
    ensures typed { OnOk result (All IsUpdate refs.now) }
{
    put_u32(out, refs.len() as u32)?;
    'refs: for it in refs {
        put_update(out, version, it)?;
    }
    Ok(())
}
