ghost use Rattle.std.specs.Prelude.{◌≡◌, ◌+◌, ◌-◌, ◌≤◌, nat_le, nat_eq, ◌&&◌, is_some, length, drop, vec_len, vec_capacity};
ghost use Rattle.gt_versions.specs.Ascending.{IsAscending};
ghost use Rattle.gt_versions.specs.Raised.{past, raised_lives, raised_values};

use crate::Versions;
use crate::versions::count_up_to;

impl<V> Versions<V> {
    /// Whether there is no version.
    pub fn is_empty(&self) -> bool
        ensures { result ≡ nat_eq (length self.now.0) 0 }
    {
        self.items.as_slice().is_empty()
    }
}

impl<V: Drop> Versions<V> {
    /// Drops the versions at or before a position. It takes no memory, and costs in proportion to how many there are.
    pub fn drop_up_to(&mut self, to: u64)
        ensures items { self.new.0 ≡ past to self.old.0 }
        ensures room { self.new.1 + length self.new.0 ≡ self.old.1 + length self.old.0 }
        ensures kept { self.old.1 ≤ self.new.1 }
        ensures ascending { IsAscending self.old.0 }
    {
        let count = past_from(self.items.as_slice(), to);
        drop_front(&mut self.items, count);
    }
}

impl Versions<bool> {
    /// Drops what only positions before `to` need: of the versions at or before it the last one stays, where it is there
    /// then. It takes no memory, and costs in proportion to how many versions there are.
    pub fn raise_lives(&mut self, to: u64)
        ensures items { self.new.0 ≡ raised_lives to self.old.0 }
        ensures room { self.new.1 + length self.new.0 ≡ self.old.1 + length self.old.0 }
        ensures kept { self.old.1 ≤ self.new.1 }
        ensures ascending { IsAscending self.old.0 }
    {
        let count = lives_from(self.items.as_slice(), to);
        drop_front(&mut self.items, count);
    }
}

impl<V: Drop> Versions<Option<V>> {
    /// Drops what only positions before `to` need, and what was given before `start`: of the versions at or before `to` the
    /// last one stays, where it has a value that counts. It takes no memory, and costs in proportion to how many versions
    /// there are.
    pub fn raise_values(&mut self, start: u64, to: u64)
        ensures items { self.new.0 ≡ raised_values start to self.old.0 }
        ensures room { self.new.1 + length self.new.0 ≡ self.old.1 + length self.old.0 }
        ensures kept { self.old.1 ≤ self.new.1 }
        ensures ascending { IsAscending self.old.0 }
    {
        let count = values_from(self.items.as_slice(), start, to);
        drop_front(&mut self.items, count);
    }
}

/// Where the versions past a position begin.
fn past_from<V>(items: &[(u64, V)], to: u64) -> usize
    requires { IsAscending items.now }
    ensures bound { result ≤ length items.now }
    ensures items { drop result items.now ≡ past to items.now }
{
    count_up_to(items, to)
}

/// Where the lives begin that a position or a later one needs.
fn lives_from(items: &[(u64, bool)], to: u64) -> usize
    requires { IsAscending items.now }
    ensures bound { result ≤ length items.now }
    ensures items { drop result items.now ≡ raised_lives to items.now }
{
    let count = count_up_to(items, to);
    if count == 0 {
        return count;
    }
    if items[count - 1].1 { count - 1 } else { count }
}

/// Where the values begin that a position or a later one needs, where those given before `start` don't count.
fn values_from<V>(items: &[(u64, Option<V>)], start: u64, to: u64) -> usize
    requires { IsAscending items.now }
    ensures bound { result ≤ length items.now }
    ensures items { drop result items.now ≡ raised_values start to items.now }
{
    let count = count_up_to(items, to);
    if count == 0 {
        return count;
    }
    if counts(&items[count - 1], start) {
        count - 1
    } else {
        count
    }
}

/// Whether a version counts from `start` on, and has a value.
fn counts<V>(version: &(u64, Option<V>), start: u64) -> bool
    ensures { result ≡ (nat_le start version.now.0 && is_some version.now.1) }
{
    start <= version.0 && version.1.is_some()
}

/// Drops so many at the front.
fn drop_front<V: Drop>(items: &mut Vec<(u64, V)>, count: usize)
    requires { count ≤ length items.old.items }
    ensures items { items.new.items ≡ drop count items.old.items }
    ensures room { (vec_capacity items.new - vec_len items.new) + length items.new.items ≡ (vec_capacity items.old - vec_len items.old) + length items.old.items }
    ensures kept { vec_capacity items.old - vec_len items.old ≤ vec_capacity items.new - vec_len items.new }
{
    let _front = items.drain(..count);
}
