ghost use Rattle.std.specs.Prelude.{◌≡◌, ◌↔◌, ◌<◌, Some, None, IfSome, length, IsErr, OnErr, IfOk, set, replicate, slice_index_or};
ghost use Rattle.gt_pins.specs.Slots.{free_slot, least_position};

use crate::PinsFull;
use gt_list::NoMemory;
use std::alloc::Global;
use std::marker::Model;

/// Slots from 0 up to a limit, each of which keeps a position or is free. Contracts see them as a list.
#[derive(Drop)]
pub struct Pins {
    slots: Vec<Option<u64>>,
}

impl Model for Pins {
    ghost use Rattle.std.specs.Prelude.{◌≤◌, ℕ, List, Option, length};

    ghost Value = { List (Option ℕ) };

    ghost view = { λ pins. pins.slots.items };

    ghost invariant = { λ pins. length pins.slots.items ≤ 255 };
}

impl Pins {
    /// As many free slots as the limit says. Later calls take no memory.
    pub fn new(alloc: Global, limit: u8) -> Result<Pins, NoMemory>
        ensures { IfOk result (λ pins. pins ≡ replicate limit None) }
    {
        match vec![in alloc; None; usize::from(limit)] {
            Ok(slots) => Ok(Pins { slots }),
            Err(_) => Err(NoMemory),
        }
    }

    /// Keeps a position in the least free slot, and gives its number. `PinsFull` comes exactly where no slot is free, and nothing
    /// has changed then.
    pub fn take(&mut self, position: u64) -> Result<u8, PinsFull>
        ensures least { IfOk result (λ slot. free_slot self.old ≡ Some slot) }
        ensures kept { IfOk result (λ slot. self.new ≡ set self.old slot (Some position)) }
        ensures full { IsErr result ↔ (free_slot self.old ≡ None) }
        ensures unchanged { OnErr result (self.new ≡ self.old) }
    {
        match first_free(&self.slots) {
            Some(slot) => {
                self.slots[slot] = Some(position);
                Ok(slot as u8)
            }
            None => Err(PinsFull),
        }
    }

    /// Frees a slot. Where it is free already, or none of the slots, nothing changes.
    pub fn release(&mut self, slot: u8)
        ensures { self.new ≡ set self.old slot None }
    {
        if let Some(kept) = self.slots.get_mut(usize::from(slot)) {
            *kept = None;
        }
    }

    /// The position that a slot keeps. None where it is free, or none of the slots.
    pub fn position(&self, slot: u8) -> Option<u64>
        ensures { result ≡ slice_index_or self.now slot None }
    {
        match self.slots.get(usize::from(slot)) {
            Some(kept) => *kept,
            None => None,
        }
    }

    /// The least position that a slot keeps. None where all are free.
    pub fn least(&self) -> Option<u64>
        ensures { result ≡ least_position self.now }
    {
        least_kept(&self.slots)
    }
}

fn first_free(slots: &[Option<u64>]) -> Option<usize>
    ensures least { result ≡ free_slot slots.now }
    ensures within { IfSome result (λ slot. slot < length slots.now) }
{
    slots.iter().position(|slot| slot.is_none())
}

fn least_kept(slots: &[Option<u64>]) -> Option<u64>
    ensures { result ≡ least_position slots.now }
{
    slots.iter().filter_map(|slot| *slot).min()
}
