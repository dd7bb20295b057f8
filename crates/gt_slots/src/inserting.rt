ghost use Rattle.std.specs.Prelude.{◌≡◌, ◌<◌, ◌≤◌, ◌-◌, ◌∷◌, ◌++◌, [], None, true, OnOk, OnErr, IfOk, nat_lt, length, vec_len, vec_capacity};
ghost use Rattle.gt_versions.proofs.Keys.{at_key};
ghost use Rattle.gt_slots.specs.Pages.{all, page, page_limit, AllBefore, IsWell, IsPlace, HasRoom, IsHalved, IsSplit, Inserts};

use crate::finding::{SlotIndex, find_place, page_at};
use crate::page::{Page, Slot};
use gt_list::NoMemory;
use std::alloc::Global;

/// How many references a page has at most.
const FULL: usize = 512;

/// Adds a reference that isn't there yet.
pub(crate) fn insert_new(pages: &mut Vec<Page>, alloc: Global, slot: Slot) -> Result<(), NoMemory>
    requires well { IsWell pages.old.items }
    requires new { at_key (all pages.old.items) slot.0 ≡ None }
    ensures well { IsWell pages.new.items }
    ensures ok { OnOk result (Inserts slot (all pages.old.items) (all pages.new.items)) }
    ensures err { OnErr result (all pages.new.items ≡ all pages.old.items) }
{
    if let Err(error) = make_room(pages, slot.0.bytes()) {
        return Err(error);
    }
    insert_in_order(pages, alloc, slot)
}

/// Adds a reference that isn't there yet, where its page isn't full.
fn insert_in_order(pages: &mut Vec<Page>, alloc: Global, slot: Slot) -> Result<(), NoMemory>
    requires well { IsWell pages.old.items }
    requires new { at_key (all pages.old.items) slot.0 ≡ None }
    requires room { HasRoom slot.0 pages.old.items }
    ensures well { IsWell pages.new.items }
    ensures ok { OnOk result (Inserts slot (all pages.old.items) (all pages.new.items)) }
    ensures err { OnErr result (all pages.new.items ≡ all pages.old.items) }
{
    let place = find_place(pages.as_slice(), slot.0.bytes(), false);
    if place.page < pages.as_slice().len() {
        insert_at(pages, place, slot)
    } else {
        push_last(pages, alloc, slot)
    }
}

/// Splits the page that a reference goes into, where that is full.
fn make_room(pages: &mut Vec<Page>, name: &[u8]) -> Result<(), NoMemory>
    requires { IsWell pages.old.items }
    ensures well { IsWell pages.new.items }
    ensures same { all pages.new.items ≡ all pages.old.items }
    ensures ok { OnOk result (HasRoom name.now pages.new.items) }
{
    let place = find_place(pages.as_slice(), name, false);
    match page_at(pages.as_slice(), place.page) {
        None => Ok(()),
        Some(found) => {
            if has_room(found) {
                Ok(())
            } else {
                split_page(pages, place.page)
            }
        }
    }
}

/// Whether a page isn't full.
fn has_room(page: &Page) -> bool
    ensures { result ≡ nat_lt (length page.now) page_limit }
{
    page.len() < FULL
}

/// Moves the upper half of a page into a new one behind it.
fn split_page(pages: &mut Vec<Page>, at: usize) -> Result<(), NoMemory>
    requires well { IsWell pages.old.items }
    requires fits { at < length pages.old.items }
    requires long { 2 ≤ length (page pages.old.items at) }
    ensures well { IsWell pages.new.items }
    ensures same { all pages.new.items ≡ all pages.old.items }
    ensures ok { OnOk result (IsSplit at pages.old.items pages.new.items) }
{
    if pages.reserve(1).is_err() {
        return Err(NoMemory);
    }
    let Ok(upper) = split_half(pages, at) else {
        return Err(NoMemory);
    };
    match pages.insert(at + 1, upper) {
        Ok(()) => Ok(()),
        Err(_) => unreachable!(),
    }
}

/// Takes the upper half of a page out.
fn split_half(pages: &mut Vec<Page>, at: usize) -> Result<Page, NoMemory>
    requires fits { at < length pages.old.items }
    requires long { 2 ≤ length (page pages.old.items at) }
    ensures ok { IfOk result (λ p. IsHalved at p pages.old.items pages.new.items) }
    ensures err { OnErr result (pages.new.items ≡ pages.old.items) }
    ensures room { (vec_len pages.new ≡ vec_len pages.old) × (vec_capacity pages.new ≡ vec_capacity pages.old) }
{
    let Some(lower) = pages.get_mut(at) else {
        return Err(NoMemory);
    };
    let half = lower.len() / 2;
    lower.split(half)
}

/// Adds a reference at a place in a page.
fn insert_at(pages: &mut Vec<Page>, place: SlotIndex, slot: Slot) -> Result<(), NoMemory>
    requires well { IsWell pages.old.items }
    requires place { IsPlace slot.0 pages.old.items place.page place.slot }
    requires fits { place.page < length pages.old.items }
    requires new { at_key (all pages.old.items) slot.0 ≡ None }
    requires room { length (page pages.old.items place.page) < page_limit }
    ensures well { IsWell pages.new.items }
    ensures ok { OnOk result (Inserts slot (all pages.old.items) (all pages.new.items)) }
    ensures err { OnErr result (all pages.new.items ≡ all pages.old.items) }
{
    let Some(found) = pages.get_mut(place.page) else {
        return Ok(());
    };
    found.insert(place.slot, slot)
}

/// Adds a reference behind all others.
fn push_last(pages: &mut Vec<Page>, alloc: Global, slot: Slot) -> Result<(), NoMemory>
    requires well { IsWell pages.old.items }
    requires last { AllBefore slot.0 (all pages.old.items) }
    ensures well { IsWell pages.new.items }
    ensures ok { OnOk result (all pages.new.items ≡ all pages.old.items ++ slot ∷ []) }
    ensures err { OnErr result (all pages.new.items ≡ all pages.old.items) }
{
    if has_room_behind(pages.as_slice()) {
        push_in_last(pages, slot)
    } else {
        push_page(pages, alloc, slot)
    }
}

/// Whether the last page isn't full.
fn has_room_behind(pages: &[Page]) -> bool
    ensures some { result ≡ true → 0 < length pages.now }
    ensures room { result ≡ true → length (page pages.now (length pages.now - 1)) < page_limit }
{
    match pages.last() {
        None => false,
        Some(last) => has_room(last),
    }
}

fn push_in_last(pages: &mut Vec<Page>, slot: Slot) -> Result<(), NoMemory>
    requires well { IsWell pages.old.items }
    requires some { 0 < length pages.old.items }
    requires room { length (page pages.old.items (length pages.old.items - 1)) < page_limit }
    requires last { AllBefore slot.0 (all pages.old.items) }
    ensures well { IsWell pages.new.items }
    ensures ok { OnOk result (all pages.new.items ≡ all pages.old.items ++ slot ∷ []) }
    ensures err { OnErr result (all pages.new.items ≡ all pages.old.items) }
{
    let at = pages.as_slice().len() - 1;
    let Some(last) = pages.get_mut(at) else {
        return Ok(());
    };
    let end = last.len();
    last.insert(end, slot)
}

fn push_page(pages: &mut Vec<Page>, alloc: Global, slot: Slot) -> Result<(), NoMemory>
    requires well { IsWell pages.old.items }
    requires last { AllBefore slot.0 (all pages.old.items) }
    ensures well { IsWell pages.new.items }
    ensures ok { OnOk result (all pages.new.items ≡ all pages.old.items ++ slot ∷ []) }
    ensures err { OnErr result (all pages.new.items ≡ all pages.old.items) }
{
    let Ok(page) = Page::of_one(alloc, slot) else {
        return Err(NoMemory);
    };
    push_behind(pages, page)
}

fn push_behind(pages: &mut Vec<Page>, page: Page) -> Result<(), NoMemory>
    ensures ok { OnOk result (pages.new.items ≡ pages.old.items ++ page ∷ []) }
    ensures err { OnErr result (pages.new.items ≡ pages.old.items) }
{
    match pages.push(page) {
        Ok(()) => Ok(()),
        Err(_) => Err(NoMemory),
    }
}
