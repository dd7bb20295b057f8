ghost use Rattle.std.specs.Prelude.{◌≡◌, ◌≤◌, ◌<◌, ◌+◌, ◌-◌, ◌++◌, [], ℕ, map, length, reverse, true, false, IfOk};
ghost use Rattle.std.specs.List.{AllByRecursion, list_any};
ghost use Rattle.gt_pool.specs.Counting.{total, times, below};
ghost use Rattle.gt_pool.specs.Workers.{indices_of, AreGiven, IsReady, IsAt, IsDone};

use crate::claims::{Claimer, Claims};
use crate::numbered::Numbered;
use crate::turned::turned;
use crate::worker::Worker;
use crate::{Kits, TicketPass, Tickets};
use gt_list::{ListOf, NoMemory};
use std::alloc::Global;

/// A worker for each kit, in their order.
pub(crate) fn workers_of<K: Drop, P: Drop>(
    alloc: Global,
    claims: &Claims,
    claimer: &mut Claimer,
    tickets: &Tickets,
    pass: &mut TicketPass,
    kits: Kits<K>,
) -> Result<Vec<Worker<K, P>>, NoMemory>
    requires claimer { claimer.old ≡ record { of = claims.now; parts = 1024; finished = false; claims = [] } }
    requires pass { (pass.old.of ≡ tickets.now) × (pass.old.parts ≡ 1024) }
    requires few { length kits ≤ 1023 }
    ensures claimer { IfOk result (λ ws. claimer.new ≡ record { of = claims.now; parts = 1024 - length ws.items; finished = false; claims = [] }) }
    ensures kits { IfOk result (λ ws. map (λ w. w.kit) ws.items ≡ kits) }
    ensures ready { IfOk result (λ ws. AllByRecursion (IsReady claims.now tickets.now) ws.items) }
{
    let mut left = turned(alloc, kits)?;
    let mut workers = Vec::new(alloc);
    'kits: while let Some(kit) = left.pop() {
        workers.push(Worker {
            kit,
            claimer: claims.split(claimer),
            pass: tickets.split(pass),
            pieces: ListOf::new(alloc),
            short: false,
        })?;
    }
    Ok(workers)
}

/// Whether memory of one ran out.
pub(crate) fn is_short<K, P>(workers: &[Worker<K, P>]) -> bool
    ensures { result ≡ list_any (λ w. w.short) workers.now }
{
    workers.iter().any(|worker| worker.short)
}

/// Appends all.
pub(crate) fn append<P: Drop>(
    all: &mut ListOf<Numbered<P>>,
    more: ListOf<Numbered<P>>,
    alloc: Global,
) -> Result<(), NoMemory>
    ensures { IfOk result (λ _. all.new ≡ all.old ++ more) }
{
    let mut left = turned(alloc, more)?;
    'more: while let Some(piece) = left.pop() {
        all.push(piece)?;
    }
    Ok(())
}
