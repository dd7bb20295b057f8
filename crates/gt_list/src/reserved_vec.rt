ghost use Rattle.std.specs.Prelude.{◌≡◌, [], ◌∷◌, ◌++◌, ◌+◌, ◌-◌, ◌<◌, ◌≤◌, length, slice_get, OnOk, OnErr};

use crate::NoMemory;
use std::alloc::Global;
use std::marker::Model;

/// A list with room for further items. Contracts see its items, and for how many more there is room.
#[derive(Debug, Drop)]
pub struct ReservedVec<T> {
    items: Vec<T>,
}

impl<T> Model for ReservedVec<T> {
    ghost use Rattle.std.specs.Prelude.{List, ℕ, ◌-◌, vec_len, vec_capacity};
    ghost use Rattle.std.specs.Coded.{coded×, coded_list, coded_ℕ};

    ghost Value = { List T × ℕ };

    ghost coded = { coded× (coded_list T.code) coded_ℕ };

    ghost view = { λ it. (it.items.items, vec_capacity it.items - vec_len it.items) };
}

impl<T> ReservedVec<T> {
    /// An empty list. It takes no memory.
    pub fn new(alloc: Global) -> ReservedVec<T>
        ensures { result.0 ≡ [] }
    {
        ReservedVec {
            items: Vec::new(alloc),
        }
    }

    /// The items in order.
    pub fn as_slice(&self) -> &[T]
        ensures { result.now ≡ self.now.0 }
    {
        self.items.as_slice()
    }
}

impl<T: Drop> ReservedVec<T> {
    /// Takes room for this many further items.
    pub fn reserve(&mut self, count: usize) -> Result<(), NoMemory>
        ensures same { self.new.0 ≡ self.old.0 }
        ensures ok { OnOk result (count ≤ self.new.1) }
        ensures kept { self.old.1 ≤ self.new.1 }
    {
        match self.items.reserve(count) {
            Ok(()) => Ok(()),
            Err(_) => Err(NoMemory),
        }
    }

    /// Adds an item, in room that was taken before.
    pub fn add(&mut self, item: T)
        requires { 0 < self.old.1 }
        ensures items { self.new.0 ≡ self.old.0 ++ item ∷ [] }
        ensures room { self.old.1 ≤ self.new.1 + 1 }
    {
        match self.items.push(item) {
            Ok(()) => {}
            Err(_) => unreachable!(),
        }
    }
}
