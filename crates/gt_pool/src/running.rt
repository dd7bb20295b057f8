ghost use Rattle.std.specs.Prelude.{◌≡◌, ◌≤◌, ◌-◌, [], map, length, true, false, IfOk};
ghost use Rattle.std.specs.List.{AllByRecursion};
ghost use Rattle.gt_pool.specs.Known.{Counted, Queued, Ticketing};
ghost use Rattle.gt_pool.specs.Working.{EachOnce, InOrder};
ghost use Rattle.gt_pool.specs.Workers.{IsReady, IsDone, AreDone};

use crate::claims::Claims;
use crate::gathering::gathered;
use crate::placing::in_order;
use crate::worker::{Worker, work_on};
use crate::workers::{is_short, workers_of};
use crate::{Kits, Pieces, TicketPass, Tickets, Work};
use gt_list::NoMemory;
use gt_outside::Gate;
use std::alloc::Global;
use std::sync::Wait;
use std::thread;
use std::thread::Threads;

/// All workers at once, each in a thread of its own where one can be made.
fn all_work<R: Threads + Wait + Sync, W: Work + Sync, G: Gate + Sync>(
    rt: &R,
    work: &W,
    gate: &G,
    claims: &Claims,
    tickets: &Tickets,
    workers: &mut [Worker<W::Kit, W::Piece>],
)
    requires some { 1 ≤ length workers.old }
    requires size { claims.now.count ≡ W.size work.now }
    requires ready { AllByRecursion (IsReady claims.now tickets.now) workers.old }
    ensures { AreDone (W.gives work.now) (W.steps work.now) claims.now tickets.now workers.old workers.new }
{
    let threads = workers.len();
    thread::for_each_mut(
        rt,
        workers,
        threads,
        &|_, worker: &mut Worker<W::Kit, W::Piece>|
            requires { (claims.now.count ≡ W.size work.now) × IsReady claims.now tickets.now worker.now }
            ensures { IsDone (W.gives work.entry.now) (W.steps work.entry.now) claims.entry.now tickets.entry.now worker.entry.now.kit worker.exit.now }
        { work_on(rt, work, gate, claims, tickets, worker) },
    );
}

/// The same, over workers that are kept.
fn work_on_all<R: Threads + Wait + Sync, W: Work + Sync, G: Gate + Sync>(
    rt: &R,
    work: &W,
    gate: &G,
    claims: &Claims,
    tickets: &Tickets,
    workers: &mut Vec<Worker<W::Kit, W::Piece>>,
)
    requires some { 1 ≤ length workers.old.items }
    requires size { claims.now.count ≡ W.size work.now }
    requires ready { AllByRecursion (IsReady claims.now tickets.now) workers.old.items }
    ensures done { AreDone (W.gives work.now) (W.steps work.now) claims.now tickets.now workers.old.items workers.new.items }
    ensures len { length workers.new.items ≡ length workers.old.items }
{
    all_work(rt, work, gate, claims, tickets, workers.as_mut_slice());
}

fn run_with<R: Threads + Wait + Sync, W: Work + Sync, G: Gate + Sync>(
    rt: &R,
    alloc: Global,
    kits: Kits<W::Kit>,
    work: &W,
    gate: &G,
    tickets: &Tickets,
    pass: TicketPass,
) -> Result<(Pieces<W::Piece>, Kits<W::Kit>), NoMemory>
    requires kits { (1 ≤ length kits) × (length kits ≤ 1023) }
    requires pass { (pass.of ≡ tickets.now) × (pass.parts ≡ 1024) }
    ensures pieces { IfOk result (λ r. InOrder (W.gives work.now) (W.size work.now) r.0) }
    ensures kits { IfOk result (λ r. EachOnce (W.steps work.now) (W.size work.now) kits r.1) }
{
    let count = work.count();
    let mut pass = pass;
    let (claims, mut claimer) = Claims::new(alloc, count)?;
    let mut workers = workers_of(alloc, &claims, &mut claimer, tickets, &mut pass, kits)?;
    work_on_all(rt, work, gate, &claims, tickets, &mut workers);
    if is_short(workers.as_slice()) {
        return Err(NoMemory);
    }
    let (all, kits) = gathered(alloc, &claims, claimer, workers)?;
    let pieces = in_order(alloc, work, count, all)?;
    Ok((pieces, kits))
}

/// The work on all indices, by one worker for each kit: which worker does the work on which index is open. It gives a piece for each
/// index, in their order, and the kits, in the order in which they came. After `NoMemory` the kits are lost, and what the workers did
/// stands.
pub fn run_all<R: Threads + Wait + Sync, W: Work + Sync, G: Gate + Sync>(
    rt: &R,
    alloc: Global,
    kits: Kits<W::Kit>,
    work: &W,
    gate: &G,
) -> Result<(Pieces<W::Piece>, Kits<W::Kit>), NoMemory>
    requires { (1 ≤ length kits) × (length kits ≤ 1023) }
    // A piece for each index below the count, in their order, that this index may give.
    ensures pieces { IfOk result (λ r. InOrder (W.gives work.now) (W.size work.now) r.0) }
    // Each kit did the work on indices of its own, one after the other, and together they did it on each index once.
    ensures kits { IfOk result (λ r. EachOnce (W.steps work.now) (W.size work.now) kits r.1) }
{
    let (tickets, pass) = Tickets::new(alloc)?;
    let done = run_with(rt, alloc, kits, work, gate, &tickets, pass);
    tickets.end();
    done
}
