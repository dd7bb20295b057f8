ghost use Rattle.std.specs.Prelude.{◌≡◌, ◌++◌, [], ◌∷◌, OnOk, IfOk};
ghost use Rattle.gt_slots.specs.Pages.{all, rest, IsPlace};
ghost use Rattle.gt_slots.specs.Listing.{taken, all_begin, values_of};

use crate::finding::{SlotIndex, page_at, pages_from, slots_from};
use crate::page::{Page, Slot};
use gt_list::NoMemory;
use gt_model::{RefList, RefValue};

/// Lists what references name at a position, where that was given from `start` on: from a place, as long as their names
/// begin so.
pub(crate) fn list_from(
    out: &mut RefList,
    pages: &[Page],
    place: SlotIndex,
    prefix: &[u8],
    start: u64,
    position: u64,
) -> Result<(), NoMemory>
    requires { IsPlace prefix.now pages.now place.page place.slot }
    ensures { OnOk result (out.new ≡ out.old ++ values_of start position (taken prefix.now (rest pages.now place.page place.slot))) }
{
    let Some(first) = page_at(pages, place.page) else {
        return Ok(());
    };
    match list_slots(
        out,
        slots_from(first.slots(), place.slot),
        prefix,
        start,
        position,
    ) {
        Ok(true) => list_pages(
            out,
            pages_from(pages, place.page + 1),
            prefix,
            start,
            position,
        ),
        Ok(false) => Ok(()),
        Err(error) => Err(error),
    }
}

fn list_pages(
    out: &mut RefList,
    pages: &[Page],
    prefix: &[u8],
    start: u64,
    position: u64,
) -> Result<(), NoMemory>
    ensures { OnOk result (out.new ≡ out.old ++ values_of start position (taken prefix.now (all pages.now))) }
{
    for page in pages {
        match list_slots(out, page.slots(), prefix, start, position) {
            Ok(true) => {}
            Ok(false) => return Ok(()),
            Err(error) => return Err(error),
        }
    }
    Ok(())
}

/// Whether each name begins so; else the list ends before the first that doesn't.
fn list_slots(
    out: &mut RefList,
    slots: &[Slot],
    prefix: &[u8],
    start: u64,
    position: u64,
) -> Result<bool, NoMemory>
    ensures list { OnOk result (out.new ≡ out.old ++ values_of start position (taken prefix.now slots.now)) }
    ensures more { IfOk result (λ more. more ≡ all_begin prefix.now slots.now) }
{
    for slot in slots {
        if !slot.0.bytes().starts_with(prefix) {
            return Ok(false);
        }
        if let Err(error) = push_value(out, slot, start, position) {
            return Err(error);
        }
    }
    Ok(true)
}

fn push_value(out: &mut RefList, slot: &Slot, start: u64, position: u64) -> Result<(), NoMemory>
    ensures { OnOk result (out.new ≡ out.old ++ values_of start position (slot.now ∷ [])) }
{
    let Some(value) = slot.1.value_since(start, position) else {
        return Ok(());
    };
    let Ok(name) = slot.0.clone() else {
        return Err(NoMemory);
    };
    out.push(RefValue {
        name,
        value: *value,
    })
}
