ghost use Rattle.std.specs.Prelude.{◌≡◌, [], IfOk, OnOk, OnErr, IsSome, map};
ghost use Rattle.std.specs.BTreeMap.{IsOrdered};
ghost use Rattle.std.specs.Ordering.{nat_cmp};
ghost use Rattle.std.specs.Cmp.Lexicographic.{slice_cmp};
ghost use Rattle.gt_reftext.specs.Lines.{name_of, ref_line, IsReference};
ghost use Rattle.gt_reftext.specs.Packed.{put, has_name, with_ref, with_peeled, after_line, to_ref, Ascends};
ghost use Rattle.gt_reftext.specs.Answers.{seen, Moves, OnMemory, Is, IsNothing};

use crate::lines::{name_of, ref_line};
use crate::{PackedList, PackedRef, RefTextError};
use gt_list::{ListOf, NoMemory};
use gt_name::{Name, RefName};
use std::alloc::Global;
use std::collections::BTreeMap;

/// The references of the lines so far. The last one is kept aside, since the next line may have its peeled name.
#[derive(Drop)]
pub(crate) struct PackedSoFar {
    done: BTreeMap<RefName, (Name, Option<Name>)>,
    last: Option<PackedRef>,
}

/// Before the first line.
pub(crate) fn nothing(alloc: Global) -> PackedSoFar
    ensures { seen result ≡ ([], None) }
{
    PackedSoFar {
        done: BTreeMap::new(alloc),
        last: None,
    }
}

fn has_name(progress: &PackedSoFar, name: &RefName) -> bool
    ensures { result ≡ has_name (seen progress.now) name.now }
{
    if let Some(last) = &progress.last {
        if last.name.bytes() == name.bytes() {
            return true;
        }
    }
    progress.done.contains_key(name)
}

fn put(
    mut done: BTreeMap<RefName, (Name, Option<Name>)>,
    last: Option<PackedRef>,
) -> Result<BTreeMap<RefName, (Name, Option<Name>)>, NoMemory>
    ensures all { IfOk result (λ all. all.entries ≡ put done.entries last) }
    ensures memory { OnErr result (IsSome last) }
{
    match last {
        None => Ok(done),
        Some(last) => {
            done.insert(last.name, (last.value, last.peeled))?;
            Ok(done)
        }
    }
}

/// One reference more; none where the line has none or its name stands there already.
fn with_line(
    alloc: Global,
    progress: PackedSoFar,
    line: &[u8],
) -> Result<Option<PackedSoFar>, NoMemory>
    ensures next { IfOk result (λ next. Is next (with_ref (seen progress) (ref_line line.now))) }
    ensures memory { OnErr result (IsSome (ref_line line.now)) }
{
    match ref_line(alloc, line)? {
        None => Ok(None),
        Some(found) => {
            if has_name(&progress, &found.name) {
                return Ok(None);
            }
            let done = put(progress.done, progress.last)?;
            Ok(Some(PackedSoFar {
                done,
                last: Some(found),
            }))
        }
    }
}

/// A peeled name for the last reference; none where that has one.
fn with_peeled(progress: PackedSoFar, digits: &[u8]) -> Option<PackedSoFar>
    ensures { Is result (with_peeled progress.done.entries progress.last (name_of digits.now)) }
{
    let PackedSoFar { done, last } = progress;
    let last = last?;
    let peeled = name_of(digits)?;
    if last.peeled.is_some() {
        return None;
    }
    let PackedRef { name, value, .. } = last;
    Some(PackedSoFar {
        done,
        last: Some(PackedRef {
            name,
            value,
            peeled: Some(peeled),
        }),
    })
}

/// What the line of this number makes of the references so far.
#[tactic(auto, unfolding(crate::specs::Packed::after_line))]
pub(crate) fn after_line(
    alloc: Global,
    progress: PackedSoFar,
    number: usize,
    line: &[u8],
) -> Result<PackedSoFar, RefTextError>
    ensures moves { Moves number result (after_line number (seen progress) line.now) }
    // Memory is wanted only for a line with a reference.
    ensures memory { OnMemory result (IsReference number line.now) }
{
    if number == 1 && line.starts_with(b"#") {
        return Ok(progress);
    }
    let next = if line.starts_with(b"^") {
        with_peeled(progress, &line[1..])
    } else {
        with_line(alloc, progress, line)?
    };
    match next {
        Some(next) => Ok(next),
        None => Err(RefTextError::BadLine { line: number }),
    }
}

fn listed(
    alloc: Global,
    all: BTreeMap<RefName, (Name, Option<Name>)>,
) -> Result<PackedList, NoMemory>
    ensures list { IfOk result (λ list. list ≡ map to_ref all.entries) }
    ensures ordered { IsOrdered (slice_cmp nat_cmp) all }
{
    let mut list = ListOf::new(alloc);
    'refs: for (name, (value, peeled)) in all {
        list.push(PackedRef {
            name,
            value,
            peeled,
        })?;
    }
    Ok(list)
}

/// All references, ascending by name.
pub(crate) fn whole(alloc: Global, progress: PackedSoFar) -> Result<PackedList, NoMemory>
    ensures list { IfOk result (λ list. list ≡ map to_ref (put progress.done.entries progress.last)) }
    // The empty list takes no memory.
    ensures memory { OnErr result (¬ IsNothing (seen progress)) }
    ensures ascending { IfOk result Ascends }
{
    if progress.last.is_none() && progress.done.is_empty() {
        return Ok(ListOf::new(alloc));
    }
    let all = put(progress.done, progress.last)?;
    let list = listed(alloc, all)?;
    Ok(list)
}
