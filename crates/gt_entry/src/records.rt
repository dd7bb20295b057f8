ghost use Rattle.std.specs.Prelude.{◌≡◌, ◌≤◌, ◌++◌, length, OnOk};
ghost use Rattle.std.specs.List.{All};
ghost use Rattle.gt_bytes.specs.Answers.{Gives, Within, MemoryAfter, Reads, EndsWithin};
ghost use Rattle.gt_bytes.specs.Reading.{kept, name_at, counted_at};
ghost use Rattle.gt_bytes.specs.Spelling.{counted};
ghost use Rattle.gt_entry.specs.Fits.{IsCounted, IsAdded};
ghost use Rattle.gt_entry.specs.Reading.{above, added_name, record_at, added_at};
ghost use Rattle.gt_entry.specs.Spelling.{item};

use crate::names::put_id;
use gt_bytes::{FieldError, Short, get_name, get_u32, put_u32};
use gt_list::{ListOf, NoMemory};
use gt_model::{Added, AddedRecords};
use gt_name::Name;
use gt_object::{ObjectError, Record, records_have_headers};
use std::alloc::Global;
use std::cmp::Ordering;

fn is_above(before: &[Added], name: &Name) -> bool
    ensures { result ≡ above added_name before.now name.now }
{
    match before.last() {
        None => true,
        Some(last) => matches!(last.name.cmp(name), Ordering::Less),
    }
}

fn read_name(bytes: &[u8], before: &[Added], at: usize) -> Result<(Name, usize), Short>
    requires { at ≤ length bytes.now }
    ensures within { EndsWithin result (length bytes.now) }
    ensures value { Reads result (kept (above added_name before.now) at (name_at bytes.now at)) }
{
    let (found, next) = get_name(bytes, at)?;
    let name = Name(found);
    if !is_above(before, &name) {
        return Err(Short { at });
    }
    Ok((name, next))
}

/// A record behind its length.
#[tactic(auto, unfolding(crate::specs::Reading::record_at))]
fn read_record(alloc: Global, bytes: &[u8], at: usize) -> Result<(Record, usize), FieldError>
    requires { at ≤ length bytes.now }
    ensures within { Within result (length bytes.now) }
    ensures value { Gives result (record_at bytes.now at) }
    ensures memory { MemoryAfter result (record_at bytes.now at) }
{
    let (len, begin) = get_u32(bytes, at)?;
    if bytes.len() - begin < len as usize {
        return Err(FieldError::BadField { at: begin });
    }
    let end = begin + len as usize;
    match Record::parse(alloc, &bytes[begin..end]) {
        Ok(whole) => Ok((whole, end)),
        Err(ObjectError::Memory) => Err(FieldError::Memory),
        Err(ObjectError::TooLarge) => Err(FieldError::BadField { at: begin }),
        Err(ObjectError::BadObject { .. }) => Err(FieldError::BadField { at: begin }),
    }
}

#[tactic(auto, unfolding(crate::specs::Reading::added_at))]
fn read_added(
    alloc: Global,
    bytes: &[u8],
    before: &[Added],
    at: usize,
) -> Result<(Added, usize), FieldError>
    requires { at ≤ length bytes.now }
    ensures within { Within result (length bytes.now) }
    ensures value { Gives result (added_at bytes.now before.now at) }
    ensures memory { MemoryAfter result (added_at bytes.now before.now at) }
{
    let (name, after) = read_name(bytes, before, at)?;
    let (whole, next) = read_record(alloc, bytes, after)?;
    Ok((Added { name, whole }, next))
}

/// The records that a write adds.
pub(crate) fn read_records(
    alloc: Global,
    bytes: &[u8],
    from: usize,
) -> Result<(AddedRecords, usize), FieldError>
    requires { from ≤ length bytes.now }
    ensures within { Within result (length bytes.now) }
    ensures value { Gives result (counted_at (added_at bytes.now) bytes.now from) }
{
    let (count, begin) = get_u32(bytes, from)?;
    let mut items = ListOf::new(alloc);
    let mut at = begin;
    'items: for _ in 0..count {
        let (item, next) = read_added(alloc, bytes, items.as_slice(), at)?;
        items.push(item)?;
        at = next;
    }
    Ok((items, at))
}

fn put_added(out: &mut Vec<u8>, it: &Added) -> Result<(), NoMemory>
    ensures spelled { OnOk result (out.new.items ≡ out.old.items ++ item it.now) }
    ensures typed { OnOk result (IsAdded it.now) }
{
    records_have_headers();
    put_id(out, &it.name)?;
    let whole = it.whole.bytes();
    put_u32(out, whole.len() as u32)?;
    out.extend_from_slice(whole)?;
    Ok(())
}

/// Appends the records that a write adds.
pub(crate) fn put_records(out: &mut Vec<u8>, records: &[Added]) -> Result<(), NoMemory>
    requires { IsCounted records.now }
    ensures spelled { OnOk result (out.new.items ≡ out.old.items ++ counted item records.now) }
    ensures typed { OnOk result (All IsAdded records.now) }
{
    put_u32(out, records.len() as u32)?;
    'records: for it in records {
        put_added(out, it)?;
    }
    Ok(())
}
