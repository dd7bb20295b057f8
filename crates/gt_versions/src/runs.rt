// A value that counts, for as long as one counts.
ghost use Rattle.std.specs.Prelude.{◌≡◌, ◌≤◌, ◌&&◌, nat_lt, is_some, None};
ghost use Rattle.gt_versions.specs.Ascending.{IsAscending};
ghost use Rattle.gt_versions.specs.Versions.{last_at};
ghost use Rattle.gt_versions.specs.Lives.{start_of};
ghost use Rattle.gt_versions.specs.Runs.{next_after, set_at, value_at, SetsRun};

use crate::Versions;
use crate::versions::count_up_to;

impl<V> Versions<V> {
    /// Where the next version past a position begins. None where none is past it.
    pub fn next(&self, position: u64) -> Option<u64>
        ensures { result ≡ next_after self.now.0 position }
    {
        let items = self.items.as_slice();
        let count = count_up_to(items, position);
        if count < items.len() {
            Some(items[count].0)
        } else {
            None
        }
    }
}

impl<V> Versions<V> {
    /// Each begins where the one before does, or later. The call does nothing.
    pub fn law_order(&self)
        ensures { IsAscending self.now.0 }
    {
        // for the prover
        let _items = self.items.as_slice();
    }
}

impl<V: Drop> Versions<V> {
    /// The version that counts at a position gets this value. Nothing changes where each begins later.
    pub fn set(&mut self, position: u64, value: V)
        ensures { self.new.0 ≡ set_at position value self.old.0 }
    {
        set_last(&mut self.items, position, value);
    }
}

fn set_last<V: Drop>(items: &mut Vec<(u64, V)>, position: u64, value: V)
    requires { IsAscending items.old.items }
    ensures { items.new.items ≡ set_at position value items.old.items }
{
    let count = count_up_to(items.as_slice(), position);
    if count > 0 {
        let start = items[count - 1].0;
        items[count - 1] = (start, value);
    }
}

impl<V: Copy> Versions<Option<V>> {
    /// Whether a value counts at a position, of what is there at these times.
    fn counts(&self, lives: &Versions<bool>, position: u64) -> bool
        ensures ordered { IsAscending self.now.0 }
        ensures lives { IsAscending lives.now.0 }
        ensures value { result ≡ is_some (value_at lives.now.0 self.now.0 position) }
    {
        self.law_order();
        lives.law_order();
        match lives.lives_since(position) {
            None => false,
            Some(start) => self.value_since(start, position).is_some(),
        }
    }

    /// Whether the version that is found at a position past the floor begins before it.
    fn begins_before(&self, floor: u64, position: u64) -> bool
        ensures { result ≡ (nat_lt floor position && nat_lt (start_of (last_at self.now.0 position None)) position) }
    {
        floor < position && self.start(position) < position
    }

    /// From a position on, where a version begins, this value is the one that counts, for as long as one counts. At the floor
    /// the version may begin earlier; past it nothing changes then. It takes no memory.
    pub fn set_run(&mut self, lives: &Versions<bool>, floor: u64, position: u64, value: V)
        requires { floor ≤ position }
        ensures { SetsRun floor position value lives.now.0 self.old.0 self.new.0 }
    {
        self.law_order();
        lives.law_order();
        if self.begins_before(floor, position) {
            return;
        }
        let mut here = position;
        'run: while self.counts(lives, here) {
            self.set(here, Some(value));
            let Some(next) = self.next(here) else {
                return;
            };
            if !self.counts(lives, next - 1) {
                return;
            }
            here = next;
        }
    }
}
