ghost use Rattle.std.specs.Prelude.{◌≡◌, ◌<◌, ◌≤◌, ℕ, [], None, Some, OnOk, IsTrue, vec_len, vec_capacity, length, nat_le, true, false};
ghost use Rattle.std.specs.List.Sorted.{IsPartitionPoint};
ghost use Rattle.std.specs.Option.{option_copied};
ghost use Rattle.gt_versions.specs.Ascending.{IsAscending};
ghost use Rattle.gt_versions.specs.Versions.{last_at, IsUpTo, ready, put_at, before, is_last};

use gt_list::NoMemory;
use std::alloc::Global;
use std::marker::Model;

/// The values of one key, each from its position on, with room for further ones. Contracts see the pairs of position and
/// value, ascending, and for how many more there is room.
#[derive(Drop)]
pub struct Versions<V> {
    pub(crate) items: Vec<(u64, V)>,
}

impl<V> Model for Versions<V> {
    ghost use Rattle.std.specs.Prelude.{List, ℕ, ◌-◌, vec_len, vec_capacity};
    ghost use Rattle.std.specs.Coded.{coded×, coded_list, coded_ℕ};
    ghost use Rattle.gt_versions.specs.Ascending.{IsAscending};

    ghost Value = { List (ℕ × V) × ℕ };

    ghost coded = { coded× (coded_list (coded× coded_ℕ V.code)) coded_ℕ };

    ghost invariant = { λ v. IsAscending v.items.items };

    ghost view = { λ v. (v.items.items, vec_capacity v.items - vec_len v.items) };
}

impl<V> Versions<V> {
    /// No value. It takes no memory.
    pub fn new(alloc: Global) -> Versions<V>
        ensures { result.0 ≡ [] }
    {
        Versions {
            items: Vec::new(alloc),
        }
    }

    /// The last version at or before a position: where it begins, and its value. None where each begins later.
    pub fn at(&self, position: u64) -> Option<&(u64, V)>
        ensures { option_copied result ≡ last_at self.now.0 position None }
    {
        let items = self.items.as_slice();
        let count = count_up_to(items, position);
        if count == 0 {
            return None;
        }
        Some(&items[count - 1])
    }
}

impl<V: Drop> Versions<V> {
    /// Takes room for one further version.
    pub fn reserve(&mut self) -> Result<(), NoMemory>
        ensures same { self.new.0 ≡ self.old.0 }
        ensures ok { OnOk result (0 < self.new.1) }
        ensures kept { self.old.1 ≤ self.new.1 }
    {
        match self.items.reserve(1) {
            Ok(()) => Ok(()),
            Err(_) => Err(NoMemory),
        }
    }

    /// The value from this position on, in room that was taken before, or in place of the one from this very position.
    pub fn put(&mut self, position: u64, value: V)
        requires after { IsUpTo position self.old.0 }
        requires ready { IsTrue (ready position self.old) }
        ensures { self.new.0 ≡ put_at position value self.old.0 }
    {
        drop_same(&mut self.items, position);
        match self.items.push((position, value)) {
            Ok(()) => {}
            Err(_) => unreachable!(),
        }
    }
}

/// Takes out the last version where it is from this position.
fn drop_same<V: Drop>(items: &mut Vec<(u64, V)>, position: u64)
    ensures items { items.new.items ≡ before position items.old.items }
    ensures room { IsTrue (is_last position items.old.items) → vec_len items.new < vec_capacity items.new }
    ensures kept { vec_len items.old < vec_capacity items.old → vec_len items.new < vec_capacity items.new }
{
    let Some(last) = items.pop() else {
        return;
    };
    if last.0 != position {
        match items.push(last) {
            Ok(()) => {}
            Err(_) => unreachable!(),
        }
    }
}

/// How many versions stand at or before a position.
pub(crate) fn count_up_to<V>(items: &[(u64, V)], position: u64) -> usize
    requires { IsAscending items.now }
    ensures bound { result ≤ length items.now }
    ensures parts { IsPartitionPoint (λ e. nat_le e.0 position ≡ true) (λ e. nat_le e.0 position ≡ false) items.now result }
{
    let mut low = 0;
    let mut high = items.len();
    'halves: while low < high {
        let middle = low + (high - low) / 2;
        if items[middle].0 <= position {
            low = middle + 1;
        } else {
            high = middle;
        }
    }
    low
}
