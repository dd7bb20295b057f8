ghost use Rattle.std.specs.Prelude.{◌≡◌, ◌≤◌, ◌-◌, [], ℕ, map, length, false, IfOk};
ghost use Rattle.std.specs.List.{AllByRecursion};
ghost use Rattle.gt_pool.specs.Counting.{total, times, below};
ghost use Rattle.gt_pool.specs.Workers.{IsHome, collected};

use crate::Kits;
use crate::claims::{Claimer, Claims};
use crate::numbered::Numbered;
use crate::turned::turned;
use crate::worker::Worker;
use crate::workers::append;
use gt_list::{ListOf, NoMemory};
use std::alloc::Global;

/// The pieces of all workers and their kits. Together they claimed each index once.
pub(crate) fn gathered<K: Drop, P: Drop>(
    alloc: Global,
    claims: &Claims,
    claimer: Claimer,
    workers: Vec<Worker<K, P>>,
) -> Result<(ListOf<Numbered<P>>, Kits<K>), NoMemory>
    requires claimer { claimer ≡ record { of = claims.now; parts = 1024 - length workers.items; finished = false; claims = [] } }
    requires some { (1 ≤ length workers.items) × (length workers.items ≤ 1023) }
    requires home { AllByRecursion (IsHome claims.now) workers.items }
    ensures pieces { IfOk result (λ r. r.0 ≡ collected workers.items) }
    ensures kits { IfOk result (λ r. r.1 ≡ map (λ w. w.kit) workers.items) }
    ensures once { IfOk result (λ r. (x : ℕ) → total (times x) (map (λ w. w.claimer.claims) workers.items) ≡ below x claims.now.count) }
{
    let mut claimer = claimer;
    let mut left = ListOf::from_vec(workers);
    let mut all = ListOf::new(alloc);
    let mut kits = ListOf::new(alloc);
    'workers: while let Some(worker) = left.pop() {
        let Worker {
            kit,
            claimer: theirs,
            pass: _,
            pieces,
            short: _,
        } = worker;
        claims.join(&mut claimer, theirs);
        append(&mut all, pieces, alloc)?;
        kits.push(kit)?;
    }
    claims.all(&mut claimer);
    let kits = turned(alloc, kits)?;
    Ok((all, kits))
}
