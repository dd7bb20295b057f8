//! Workers that come to a gate, which holds each until all have come.
ghost use Rattle.std.specs.Prelude.{◌≡◌, ◌≤◌, ◌+◌, ◌%◌, ◌^◌};

use crate::kit::{Kit, kits_of};
use gt_list::NoMemory;
use gt_outside::Gate;
use gt_pool::{TicketPass, Tickets, Work, run_all};
use std::alloc::Global;
use std::sync::Wait;
use std::sync::atomic::{AtomicU64, Ordering};
use std::thread::Threads;
use std::{io, thread};

/// A gate gives up after so many turns.
const TURNS: u64 = 10_000_000;

#[derive(Drop)]
struct Together {
    wanted: u64,
    came: AtomicU64,
    gave_up: AtomicU64,
}

impl Gate for Together {
    fn meet(&self, _line: u32, _answered: bool) {
        self.came.fetch_add(1, Ordering::SeqCst);
        for _ in 0..TURNS {
            if self.came.load(Ordering::SeqCst) >= self.wanted {
                return;
            }
            thread::yield_now();
        }
        self.gave_up.fetch_add(1, Ordering::SeqCst);
    }
}

#[derive(Drop)]
struct Meeting {
    count: u32,
}

impl Work for Meeting {
    type Kit = Kit;

    type Piece = u32;

    ghost size = { λ w. w.count };

    ghost gives = { λ w i p. p ≡ i };

    ghost steps = { λ w before i after. after ≡ before };

    fn count(&self) -> u32 {
        self.count
    }

    fn run<R: Wait, G: Gate>(
        &self,
        _rt: &R,
        index: u32,
        _kit: &mut Kit,
        _tickets: &Tickets,
        _pass: &mut TicketPass,
        gate: &G,
    ) -> u32 {
        gate.meet(index, false);
        index
    }
}

pub(crate) fn together_row<R: Threads + Wait + Print + Sync>(
    rt: &R,
    alloc: Global,
    count: u32,
    workers: u32,
) -> io::Result<()>
    requires { (1 ≤ workers) × (workers ≤ 16) }
{
    let Ok(kits) = kits_of(alloc, workers) else {
        return println!(rt; "no memory");
    };
    let gate = Together {
        wanted: u64::from(count),
        came: AtomicU64::new(0),
        gave_up: AtomicU64::new(0),
    };
    match run_all(rt, alloc, kits, &Meeting { count }, &gate) {
        Err(NoMemory) => println!(rt; "no memory"),
        Ok((pieces, _)) => println!(rt;
            "{} came, {} gave up",
            pieces.len(),
            gate.gave_up.load(Ordering::SeqCst)
        ),
    }
}
