ghost use Rattle.std.specs.Prelude.{◌≡◌, ◌<◌, ◌≤◌, ◌++◌, None, true, not, ◌&&◌, find, nat_eq, if◌then◌else◌, codes, length, take, slice_index_or};
ghost use Rattle.std.specs.FinMap as map;
ghost use Rattle.std.specs.List.{list_any};
ghost use Rattle.std.specs.Option.{option_copied, option_map, option_or};
ghost use Rattle.gt_versions.proofs.Keys.{at_key};
ghost use Rattle.gt_model.specs.Verdicts.{is_under, first_some, clashes, same_name};
ghost use Rattle.gt_slots.specs.Pages.{all, rest, IsWell, IsPlace};
ghost use Rattle.gt_slots.specs.Present.{refs_since};
ghost use Rattle.gt_slots.specs.Clashing.{is_gone, stands, folders, standing, seek, sought};

use crate::finding::{SlotIndex, find_place, look, page_at, pages_from, slots_from};
use crate::page::{Page, Slot};
use gt_name::{Names2, RefName};

/// The least reference that stands in a folder, or in whose folder that stands, and that isn't gone.
pub(crate) fn clash_in<'a>(
    pages: &'a [Page],
    name: &[u8],
    start: u64,
    position: u64,
    gone: &Names2,
) -> Option<&'a RefName>
    requires { IsWell pages.now }
    ensures { option_copied result ≡ find (λ other. clashes name.now other && not (list_any (same_name other) gone.now)) (map.keys (refs_since start position (map.from_entries (all pages.now)))) }
{
    let place = find_place(pages, name, true);
    match folder_of(pages, name, start, position, gone) {
        Some(found) => Some(found),
        None => inside_from(pages, place, name, start, position, gone),
    }
}

/// The outermost folder of a name that is a reference which stands.
fn folder_of<'a>(
    pages: &'a [Page],
    name: &[u8],
    start: u64,
    position: u64,
    gone: &Names2,
) -> Option<&'a RefName>
    requires { IsWell pages.now }
    ensures { option_copied result ≡ first_some (λ f. standing start position gone.now f (at_key (all pages.now) f)) (folders name.now) }
{
    for at in 0..name.len() {
        let found = folder_at(pages, name, at, start, position, gone);
        if found.is_some() {
            return found;
        }
    }
    None
}

/// The folder that ends before this place, where a slash stands there and the folder is a reference which stands.
fn folder_at<'a>(
    pages: &'a [Page],
    name: &[u8],
    at: usize,
    start: u64,
    position: u64,
    gone: &Names2,
) -> Option<&'a RefName>
    requires well { IsWell pages.now }
    requires fits { at < length name.now }
    ensures { option_copied result ≡ (if nat_eq 47 (slice_index_or name.now at 0) then standing start position gone.now (take at name.now) (at_key (all pages.now) (take at name.now)) else None) }
{
    if name[at] == b'/' {
        standing(pages, front_of(name, at), start, position, gone)
    } else {
        None
    }
}

fn front_of(name: &[u8], end: usize) -> &[u8]
    requires { end ≤ length name.now }
    ensures { result.now ≡ take end name.now }
{
    &name[..end]
}

fn standing<'a>(
    pages: &'a [Page],
    folder: &[u8],
    start: u64,
    position: u64,
    gone: &Names2,
) -> Option<&'a RefName>
    requires { IsWell pages.now }
    ensures { option_copied result ≡ standing start position gone.now folder.now (at_key (all pages.now) folder.now) }
{
    match look(pages, folder) {
        None => None,
        Some(slot) => {
            if stands(slot, start, position, gone) {
                Some(&slot.0)
            } else {
                None
            }
        }
    }
}

/// The least reference from a place on that stands in a folder.
fn inside_from<'a>(
    pages: &'a [Page],
    place: SlotIndex,
    folder: &[u8],
    start: u64,
    position: u64,
    gone: &Names2,
) -> Option<&'a RefName>
    requires { IsPlace (folder.now ++ codes "/") pages.now place.page place.slot }
    ensures { option_copied result ≡ sought (seek start position gone.now (folder.now ++ codes "/") (rest pages.now place.page place.slot)) }
{
    let Some(first) = page_at(pages, place.page) else {
        return None;
    };
    match seek_slots(
        slots_from(first.slots(), place.slot),
        folder,
        start,
        position,
        gone,
    ) {
        Some(answer) => answer,
        None => seek_pages(
            pages_from(pages, place.page + 1),
            folder,
            start,
            position,
            gone,
        ),
    }
}

fn seek_pages<'a>(
    pages: &'a [Page],
    folder: &[u8],
    start: u64,
    position: u64,
    gone: &Names2,
) -> Option<&'a RefName>
    ensures { option_copied result ≡ sought (seek start position gone.now (folder.now ++ codes "/") (all pages.now)) }
{
    for page in pages {
        if let Some(answer) = seek_slots(page.slots(), folder, start, position, gone) {
            return answer;
        }
    }
    None
}

/// None where each stands in the folder's folder and doesn't stand itself.
fn seek_slots<'a>(
    slots: &'a [Slot],
    folder: &[u8],
    start: u64,
    position: u64,
    gone: &Names2,
) -> Option<Option<&'a RefName>>
    ensures { option_map option_copied result ≡ seek start position gone.now (folder.now ++ codes "/") slots.now }
{
    for slot in slots {
        if !is_under(slot.0.bytes(), folder) {
            return Some(None);
        }
        if stands(slot, start, position, gone) {
            return Some(Some(&slot.0));
        }
    }
    None
}

/// Whether a name stands in a folder.
fn is_under(name: &[u8], folder: &[u8]) -> bool
    ensures { result ≡ is_under name.now folder.now }
{
    name.starts_with(folder) && name[folder.len()..].starts_with(b"/")
}

/// Whether a reference names something, and isn't gone.
fn stands(slot: &Slot, start: u64, position: u64, gone: &Names2) -> bool
    ensures { result ≡ stands start position gone.now slot.now }
{
    slot.1.value_since(start, position).is_some() && !is_gone(&slot.0, gone)
}

/// Whether a name is gone. Where the names that are gone ascend, halving meets each of them. Only one that isn't met is
/// looked for in all: where they ascend that one stands, so `clash` answers it and asks for no other.
fn is_gone(name: &RefName, gone: &Names2) -> bool
    ensures { result ≡ is_gone gone.now name.now }
{
    is_met(name, gone.as_slice()) || is_among(name, gone.as_slice())
}

/// Whether halving meets a name. Where the names don't ascend, it may miss one.
fn is_met(name: &RefName, names: &[RefName]) -> bool
    ensures { result ≡ true → is_gone names.now name.now ≡ true }
{
    match names.binary_search(name) {
        Ok(_) => true,
        Err(_) => false,
    }
}

fn is_among(name: &RefName, names: &[RefName]) -> bool
    ensures { result ≡ is_gone names.now name.now }
{
    names.iter().any(|other| name == other)
}
