//! Each index gives a number of its own.
ghost use Rattle.std.specs.Prelude.{◌≡◌, ◌≤◌, ◌+◌, ◌*◌, ◌%◌, ◌^◌, ◌<◌};

use crate::kit::{Kit, kits_of, sum_of};
use gt_list::NoMemory;
use gt_outside::{Gate, NoGate};
use gt_pool::{TicketPass, Tickets, Work, run_all};
use std::alloc::Global;
use std::io;
use std::sync::Wait;
use std::thread::Threads;

#[derive(Drop)]
struct Numbers {
    count: u32,
}

impl Work for Numbers {
    type Kit = Kit;

    type Piece = u32;

    ghost size = { λ w. w.count };

    ghost gives = { λ w i p. p ≡ (i * 2654435761) % 2 ^ 32 };

    ghost steps = { λ w before i after. after.calls ≡ (before.calls + 1) % 2 ^ 64 };

    fn count(&self) -> u32 {
        self.count
    }

    fn run<R: Wait, G: Gate>(
        &self,
        _rt: &R,
        index: u32,
        kit: &mut Kit,
        _tickets: &Tickets,
        _pass: &mut TicketPass,
        _gate: &G,
    ) -> u32 {
        kit.call();
        index.wrapping_mul(2_654_435_761)
    }
}

/// A number that depends on each item and on their order.
fn folded(pieces: &[u32]) -> u32 {
    let mut sum = 0u32;
    for piece in pieces {
        sum = sum.wrapping_mul(31).wrapping_add(*piece);
    }
    sum
}

pub(crate) fn pieces_row<R: Threads + Wait + Print + Sync>(
    rt: &R,
    alloc: Global,
    count: u32,
    workers: u32,
) -> io::Result<()>
    requires { (1 ≤ workers) × (workers ≤ 16) }
{
    let Ok(kits) = kits_of(alloc, workers) else {
        return println!(rt; "no memory");
    };
    match run_all(rt, alloc, kits, &Numbers { count }, &NoGate) {
        Err(NoMemory) => println!(rt; "no memory"),
        Ok((pieces, kits)) => println!(rt;
            "{} pieces {} by {} calls",
            pieces.len(),
            folded(pieces.as_slice()),
            sum_of(kits.as_slice()).calls
        ),
    }
}
