ghost use Rattle.std.specs.Prelude.{◌≡◌, ◌≤◌, length};
ghost use Rattle.gt_bytes.specs.Answers.{Gives, Within, MemoryAfter, Reads, EndsWithin};
ghost use Rattle.gt_bytes.specs.Reading.{counted_at, first_at};
ghost use Rattle.gt_pack.specs.Spelling.{above};
ghost use Rattle.gt_pack.specs.Reading.{last_name, magic_at, name_above, record_at, placed_at, same_at, exactly_at, indexed_at, index_at, items_at, tail_at, pack_of, first_item};

use crate::Placed;
use gt_bytes::{FieldError, Short, get_name, get_u32, get_u64};
use gt_list::ListOf;
use gt_name::Name;
use gt_object::{ObjectError, Record};
use std::alloc::Global;
use std::cmp::Ordering;

fn read_magic(bytes: &[u8], at: usize) -> Result<((), usize), Short>
    requires { at ≤ length bytes.now }
    ensures within { EndsWithin result (length bytes.now) }
    ensures value { Reads result (magic_at bytes.now at) }
{
    let (_, rest) = bytes.split_at(at);
    if !rest.starts_with(b"GTP1") || rest.len() < 4 {
        return Err(Short { at });
    }
    Ok(((), at + 4))
}

/// Whether the name is greater than the last one's.
pub(crate) fn is_above(before: &[Placed], name: &Name) -> bool
    ensures { result ≡ above (last_name before.now) name.now }
{
    match before.last() {
        None => true,
        Some(last) => matches!(last.name.cmp(name), Ordering::Less),
    }
}

#[tactic(auto, unfolding(crate::specs::Reading::name_above))]
fn read_name(bytes: &[u8], before: &[Placed], at: usize) -> Result<(Name, usize), Short>
    requires { at ≤ length bytes.now }
    ensures within { EndsWithin result (length bytes.now) }
    ensures value { Reads result (name_above bytes.now (last_name before.now) at) }
{
    let (found, next) = get_name(bytes, at)?;
    let name = Name(found);
    if !is_above(before, &name) {
        return Err(Short { at });
    }
    Ok((name, next))
}

#[tactic(auto, unfolding(crate::specs::Reading::record_at))]
fn read_record(alloc: Global, bytes: &[u8], at: usize) -> Result<((u64, u32), usize), FieldError>
    requires { at ≤ length bytes.now }
    ensures within { Within result (length bytes.now) }
    ensures value { Gives result (record_at bytes.now at) }
    ensures memory { MemoryAfter result (record_at bytes.now at) }
{
    let (len, begin) = get_u32(bytes, at)?;
    if bytes.len() - begin < len as usize {
        return Err(FieldError::BadField { at: begin });
    }
    let end = begin + len as usize;
    match Record::parse(alloc, &bytes[begin..end]) {
        Ok(_) => Ok(((begin as u64, len), end)),
        Err(ObjectError::Memory) => Err(FieldError::Memory),
        Err(ObjectError::TooLarge) => Err(FieldError::BadField { at: begin }),
        Err(ObjectError::BadObject { .. }) => Err(FieldError::BadField { at: begin }),
    }
}

#[tactic(auto, unfolding(crate::specs::Reading::placed_at))]
fn read_item(
    alloc: Global,
    bytes: &[u8],
    before: &[Placed],
    at: usize,
) -> Result<(Placed, usize), FieldError>
    requires { at ≤ length bytes.now }
    ensures within { Within result (length bytes.now) }
    ensures value { Gives result (placed_at bytes.now before.now at) }
    ensures memory { MemoryAfter result (placed_at bytes.now before.now at) }
{
    let (name, after) = read_name(bytes, before, at)?;
    let ((place, len), end) = read_record(alloc, bytes, after)?;
    Ok((Placed { name, place, len }, end))
}

fn read_counted(
    alloc: Global,
    bytes: &[u8],
    from: usize,
) -> Result<(ListOf<Placed>, usize), FieldError>
    requires { from ≤ length bytes.now }
    ensures within { Within result (length bytes.now) }
    ensures value { Gives result (counted_at (placed_at bytes.now) bytes.now from) }
    ensures memory { MemoryAfter result (first_at (placed_at bytes.now) bytes.now from) }
{
    let (count, begin) = get_u32(bytes, from)?;
    let mut items = ListOf::new(alloc);
    let mut at = begin;
    'items: for _ in 0..count {
        let (item, next) = read_item(alloc, bytes, items.as_slice(), at)?;
        items.push(item)?;
        at = next;
    }
    Ok((items, at))
}

#[tactic(auto, unfolding(crate::specs::Reading::items_at))]
fn read_items(alloc: Global, bytes: &[u8], at: usize) -> Result<(ListOf<Placed>, usize), FieldError>
    requires { at ≤ length bytes.now }
    ensures within { Within result (length bytes.now) }
    ensures value { Gives result (items_at bytes.now at) }
    ensures memory { MemoryAfter result (first_item bytes.now at) }
{
    let (_, from) = read_magic(bytes, at)?;
    read_counted(alloc, bytes, from)
}

#[tactic(auto, unfolding(crate::specs::Reading::same_at))]
fn read_same(bytes: &[u8], name: &Name, at: usize) -> Result<(Name, usize), Short>
    requires { at ≤ length bytes.now }
    ensures within { EndsWithin result (length bytes.now) }
    ensures value { Reads result (same_at bytes.now name.now at) }
{
    let (found, next) = get_name(bytes, at)?;
    if found != name.0 {
        return Err(Short { at });
    }
    Ok((Name(found), next))
}

#[tactic(auto, unfolding(crate::specs::Reading::exactly_at))]
fn read_exactly(bytes: &[u8], number: u64, at: usize) -> Result<(u64, usize), Short>
    requires { at ≤ length bytes.now }
    ensures within { EndsWithin result (length bytes.now) }
    ensures value { Reads result (exactly_at bytes.now number at) }
{
    let (found, next) = get_u64(bytes, at)?;
    if found != number {
        return Err(Short { at });
    }
    Ok((found, next))
}

#[tactic(auto, unfolding(crate::specs::Reading::indexed_at))]
fn read_entry(bytes: &[u8], item: &Placed, at: usize) -> Result<((Name, u64), usize), Short>
    requires { at ≤ length bytes.now }
    ensures within { EndsWithin result (length bytes.now) }
    ensures value { Reads result (indexed_at bytes.now item.now at) }
{
    let (name, after) = read_same(bytes, &item.name, at)?;
    let (begin, end) = read_exactly(bytes, item.place.saturating_sub(24), after)?;
    Ok(((name, begin), end))
}

fn read_index(bytes: &[u8], items: &[Placed], from: usize) -> Result<((), usize), Short>
    requires { from ≤ length bytes.now }
    ensures within { EndsWithin result (length bytes.now) }
    ensures value { Reads result (index_at bytes.now items.now from) }
{
    let mut at = from;
    'items: for item in items {
        let (_, next) = read_entry(bytes, item, at)?;
        at = next;
    }
    Ok(((), at))
}

#[tactic(auto, unfolding(crate::specs::Reading::tail_at))]
fn read_tail(bytes: &[u8], items: &[Placed], at: usize) -> Result<(u64, usize), Short>
    requires { at ≤ length bytes.now }
    ensures within { EndsWithin result (length bytes.now) }
    ensures value { Reads result (tail_at bytes.now items.now at) }
{
    let (_, from) = read_index(bytes, items, at)?;
    read_exactly(bytes, at as u64, from)
}

/// The places of the records of a pack that is all of the bytes.
#[tactic(auto, unfolding(crate::specs::Reading::pack_of))]
pub(crate) fn read_pack(alloc: Global, bytes: &[u8]) -> Result<ListOf<Placed>, FieldError>
    ensures value { Gives result (pack_of bytes.now) }
    ensures memory { MemoryAfter result (first_item bytes.now 0) }
{
    let (items, begin) = read_items(alloc, bytes, 0)?;
    let (_, end) = read_tail(bytes, items.as_slice(), begin)?;
    if end != bytes.len() {
        return Err(FieldError::BadField { at: end });
    }
    Ok(items)
}
