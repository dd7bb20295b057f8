ghost use Rattle.std.specs.Prelude.{◌≡◌, ◌<◌, ℕ, List, Option, not, nat_eq, IfSome, length};
ghost use Rattle.gt_versions.specs.Ascending.{IsAscending};
ghost use Rattle.gt_versions.specs.Raised.{raised_values};
ghost use Rattle.gt_versions.proofs.Keys.{at_key};
ghost use Rattle.gt_slots.specs.Slots.{items_of};
ghost use Rattle.gt_slots.specs.Pages.{all, IsWell};
ghost use Rattle.gt_slots.specs.Raised.{raised_slot, is_left, raised_page, raised_pages, AreAscending};

use crate::page::{Page, Slot};

/// Raises the versions of each reference, and takes out each that has none left, and each page that has no reference left.
pub(crate) fn raise_pages(pages: &mut Vec<Page>, start: u64, to: u64)
    requires { IsWell pages.old.items }
    ensures well { IsWell pages.new.items }
    ensures items { (x : List ℕ) → items_of (at_key (all pages.new.items) x) ≡ raised_values start to (items_of (at_key (all pages.old.items) x)) }
    ensures left { (x : List ℕ) → IfSome (at_key (all pages.new.items) x) (λ s. 0 < length s.0) }
    ensures ascending { (x : List ℕ) → IsAscending (items_of (at_key (all pages.old.items) x)) }
{
    raise_each(pages, start, to);
}

fn raise_each(pages: &mut Vec<Page>, start: u64, to: u64)
    ensures pages { pages.new.items ≡ raised_pages start to pages.old.items }
    ensures ascending { AreAscending (all pages.old.items) }
{
    pages.retain_mut(|page| page.raise(start, to));
}

/// Raises the versions of each reference, and takes out each that has none left.
pub(crate) fn raise_slots(slots: &mut Vec<Slot>, start: u64, to: u64)
    ensures slots { slots.new.items ≡ raised_page start to slots.old.items }
    ensures ascending { AreAscending slots.old.items }
{
    slots.retain_mut(|slot| raise_slot(slot, start, to));
}

/// Raises the versions of a reference. Whether one is left.
fn raise_slot(slot: &mut Slot, start: u64, to: u64) -> bool
    ensures slot { slot.new ≡ (slot.old.0, raised_slot start to slot.old.1) }
    ensures left { result ≡ is_left (raised_slot start to slot.old.1) }
    ensures ascending { IsAscending slot.old.1.0 }
{
    slot.1.raise_values(start, to);
    !slot.1.is_empty()
}
