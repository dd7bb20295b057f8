ghost use Rattle.std.specs.Prelude.{◌≡◌, ◌<◌, ℕ, List, Option, None, nat_eq, if◌then◌else◌, length, slice_index_or, slice_set};
ghost use Rattle.std.specs.List.{remove};
ghost use Rattle.std.specs.Ordering.{eq_by_cmp};
ghost use Rattle.gt_model.specs.Contents.{key_cmp};
ghost use Rattle.gt_versions.proofs.Keys.{at_key};
ghost use Rattle.gt_slots.specs.Pages.{all, page, IsWell, IsAt, Inserts};

use crate::finding::{SlotIndex, find};
use crate::page::Page;
use gt_name::RefName;

/// Takes a reference out, where it is there.
pub(crate) fn remove_slot(pages: &mut Vec<Page>, name: &RefName)
    requires { IsWell pages.old.items }
    ensures well { IsWell pages.new.items }
    ensures slots { (x : List ℕ) → at_key (all pages.new.items) x ≡ (if eq_by_cmp key_cmp name.now x then None else at_key (all pages.old.items) x) }
{
    let Some(place) = find(pages.as_slice(), name.bytes()) else {
        return;
    };
    remove_at(pages, place);
}

/// Takes out the reference at a place, and the page with it that has no other.
fn remove_at(pages: &mut Vec<Page>, place: SlotIndex)
    requires well { IsWell pages.old.items }
    requires page_fits { place.page < length pages.old.items }
    requires slot_fits { place.slot < length (page pages.old.items place.page) }
    ensures well { IsWell pages.new.items }
    ensures slots { (d : List ℕ × (List (ℕ × Option (List ℕ)) × ℕ)) → Inserts (slice_index_or (page pages.old.items place.page) place.slot d) (all pages.new.items) (all pages.old.items) }
{
    if has_one(pages.as_slice(), place.page) {
        remove_page(pages, place.page);
    } else {
        remove_in_page(pages, place);
    }
}

/// Whether a page has one reference.
fn has_one(pages: &[Page], at: usize) -> bool
    requires { at < length pages.now }
    ensures { result ≡ nat_eq (length (page pages.now at)) 1 }
{
    pages[at].len() == 1
}

fn remove_page(pages: &mut Vec<Page>, at: usize)
    requires { at < length pages.old.items }
    ensures { pages.new.items ≡ remove pages.old.items at }
{
    // for the prover
    let _pages = pages.as_slice();
    let _page = pages.remove(at);
}

fn remove_in_page(pages: &mut Vec<Page>, place: SlotIndex)
    requires page_fits { place.page < length pages.old.items }
    requires slot_fits { place.slot < length (page pages.old.items place.page) }
    ensures { pages.new.items ≡ slice_set pages.old.items place.page (remove (page pages.old.items place.page) place.slot) }
{
    let Some(found) = pages.get_mut(place.page) else {
        return;
    };
    found.remove(place.slot);
}
