ghost use Rattle.std.specs.Prelude.{◌≡◌, ◌≤◌, None, IfSome, IfNone, true, false, length, drop, slice_get};
ghost use Rattle.std.specs.List.Sorted.{IsPartitionPoint};
ghost use Rattle.std.specs.Option.{option_copied, option_map};
ghost use Rattle.gt_versions.proofs.Keys.{at_key};
ghost use Rattle.gt_slots.specs.Pages.{probe, ends_before, all, page, IsWell, IsPlace, IsAt};

use crate::page::{Page, Slot, count_before, ends_before};

/// The index of a page, and of a reference in it.
#[derive(Clone, Copy)]
pub(crate) struct SlotIndex {
    pub(crate) page: usize,
    pub(crate) slot: usize,
}

/// Where what isn't before a text begins.
pub(crate) fn find_place(pages: &[Page], text: &[u8], slash: bool) -> SlotIndex
    requires { IsWell pages.now }
    ensures { IsPlace (probe text.now slash) pages.now result.page result.slot }
{
    let page = pages_before(pages, text, slash);
    match page_at(pages, page) {
        None => SlotIndex { page, slot: 0 },
        Some(found) => {
            let slot = count_before(found.slots(), text, slash);
            SlotIndex { page, slot }
        }
    }
}

pub(crate) fn page_at(pages: &[Page], at: usize) -> Option<&Page>
    ensures { option_copied result ≡ slice_get pages.now at }
{
    pages.get(at)
}

/// The references from this index on.
pub(crate) fn slots_from(slots: &[Slot], at: usize) -> &[Slot]
    requires { at ≤ length slots.now }
    ensures { result.now ≡ drop at slots.now }
{
    &slots[at..]
}

/// The pages from this index on.
pub(crate) fn pages_from(pages: &[Page], at: usize) -> &[Page]
    requires { at ≤ length pages.now }
    ensures { result.now ≡ drop at pages.now }
{
    &pages[at..]
}

fn slot_of(slots: &[Slot], at: usize) -> Option<&Slot>
    ensures { option_copied result ≡ slice_get slots.now at }
{
    slots.get(at)
}

/// The reference at a place. None behind the last page.
pub(crate) fn slot_at(pages: &[Page], place: SlotIndex) -> Option<&Slot>
    ensures { option_copied result ≡ slice_get (page pages.now place.page) place.slot }
{
    match page_at(pages, place.page) {
        None => None,
        Some(found) => slot_of(found.slots(), place.slot),
    }
}

/// The place of a reference. None where it isn't there.
pub(crate) fn find(pages: &[Page], name: &[u8]) -> Option<SlotIndex>
    requires { IsWell pages.now }
    ensures some { IfSome result (λ r. IsAt name.now pages.now r.page r.slot) }
    ensures none { IfNone result (at_key (all pages.now) name.now ≡ None) }
{
    let place = find_place(pages, name, false);
    match slot_at(pages, place) {
        None => None,
        Some(slot) => {
            if slot.0.bytes().cmp(name).is_eq() {
                Some(place)
            } else {
                None
            }
        }
    }
}

/// A reference. None where it isn't there.
pub(crate) fn look<'a>(pages: &'a [Page], name: &[u8]) -> Option<&'a Slot>
    requires { IsWell pages.now }
    ensures value { option_map (λ s. s.1) (option_copied result) ≡ at_key (all pages.now) name.now }
    ensures key { IfSome (option_copied result) (λ s. s.0 ≡ name.now) }
{
    match find(pages, name) {
        None => None,
        Some(place) => slot_at(pages, place),
    }
}

/// How many pages end before a text.
fn pages_before(pages: &[Page], text: &[u8], slash: bool) -> usize
    requires { IsWell pages.now }
    ensures bound { result ≤ length pages.now }
    ensures parts { IsPartitionPoint (λ p. ends_before (probe text.now slash) p ≡ true) (λ p. ends_before (probe text.now slash) p ≡ false) pages.now result }
{
    let mut low = 0;
    let mut high = pages.len();
    'halves: while low < high {
        let middle = low + (high - low) / 2;
        if ends_before(pages[middle].slots(), text, slash) {
            low = middle + 1;
        } else {
            high = middle;
        }
    }
    low
}
