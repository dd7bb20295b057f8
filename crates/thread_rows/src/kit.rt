ghost use Rattle.std.specs.Prelude.{◌≡◌, ◌+◌, ◌-◌, ◌%◌, ◌^◌, length, IfOk};
ghost use Rattle.gt_pool.specs.Ticketed.{IsTicket};

use gt_list::{ListOf, NoMemory};
use gt_pool::Kits;
use std::alloc::Global;

/// What a worker counts: how often it was called, how many tickets of each partition it took, and how many found no memory.
#[derive(Drop)]
pub(crate) struct Kit {
    pub calls: u64,
    pub taken: [u64; 8],
    pub lost: u64,
}

impl Kit {
    pub(crate) fn new() -> Kit {
        Kit {
            calls: 0,
            taken: [0; 8],
            lost: 0,
        }
    }

    pub(crate) fn call(&mut self)
        ensures { self.new.calls ≡ (self.old.calls + 1) % 2 ^ 64 }
    {
        self.calls = self.calls.wrapping_add(1);
    }

    pub(crate) fn take(&mut self, partition: u8)
        requires { IsTicket partition }
        ensures { self.new.calls ≡ self.old.calls }
    {
        let at = usize::from(partition) - 1;
        self.taken[at] = self.taken[at].wrapping_add(1);
    }

    pub(crate) fn lose(&mut self)
        ensures { self.new.calls ≡ self.old.calls }
    {
        self.lost = self.lost.wrapping_add(1);
    }

    fn add(&mut self, other: &Kit) {
        self.calls = self.calls.wrapping_add(other.calls);
        for at in 0..8 {
            self.taken[at] = self.taken[at].wrapping_add(other.taken[at]);
        }
        self.lost = self.lost.wrapping_add(other.lost);
    }
}

/// A new kit for each worker.
pub(crate) fn kits_of(alloc: Global, workers: u32) -> Result<Kits<Kit>, NoMemory>
    ensures { IfOk result (λ kits. length kits ≡ workers) }
{
    let mut kits = ListOf::new(alloc);
    'kits: for _ in 0..workers {
        kits.push(Kit::new())?;
    }
    Ok(kits)
}

/// What all counted.
pub(crate) fn sum_of(kits: &[Kit]) -> Kit {
    let mut sum = Kit::new();
    for kit in kits {
        sum.add(kit);
    }
    sum
}
