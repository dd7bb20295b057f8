//! Each index puts a ticket, and its worker takes tickets until there is none.
ghost use Rattle.std.specs.Prelude.{◌≡◌, ◌≤◌, ◌<◌, ◌+◌, ◌%◌, ◌^◌};

use crate::kit::{Kit, kits_of, sum_of};
use gt_list::NoMemory;
use gt_outside::{Gate, NoGate};
use gt_pool::{TicketPass, Tickets, Work, run_all};
use std::alloc::Global;
use std::io;
use std::sync::Wait;
use std::thread::Threads;

#[derive(Drop)]
struct Relay {
    count: u32,
}

/// Takes tickets until there is none.
fn take_all<R: Wait>(rt: &R, tickets: &Tickets, pass: &mut TicketPass, kit: &mut Kit)
    requires { pass.old.of ≡ tickets.now }
    ensures pass { pass.new.of ≡ tickets.now }
    ensures calls { kit.new.calls ≡ kit.old.calls }
{
    'tickets: for _ in rt.forever() {
        match tickets.take(rt, pass) {
            Some(partition) => kit.take(partition),
            None => break,
        }
    }
}

impl Work for Relay {
    type Kit = Kit;

    type Piece = u8;

    ghost size = { λ w. w.count };

    ghost gives = { λ w i p. p ≡ i % 8 + 1 };

    ghost steps = { λ w before i after. after.calls ≡ (before.calls + 1) % 2 ^ 64 };

    fn count(&self) -> u32 {
        self.count
    }

    fn run<R: Wait, G: Gate>(
        &self,
        rt: &R,
        index: u32,
        kit: &mut Kit,
        tickets: &Tickets,
        pass: &mut TicketPass,
        _gate: &G,
    ) -> u8 {
        kit.call();
        let partition = (index % 8) as u8 + 1;
        if tickets.put(rt, pass, partition).is_err() {
            kit.lose();
        }
        take_all(rt, tickets, pass, kit);
        partition
    }
}

pub(crate) fn tickets_row<R: Threads + Wait + Print + Sync>(
    rt: &R,
    alloc: Global,
    count: u32,
    workers: u32,
) -> io::Result<()>
    requires { (1 ≤ workers) × (workers ≤ 16) }
{
    let Ok(kits) = kits_of(alloc, workers) else {
        return println!(rt; "no memory");
    };
    match run_all(rt, alloc, kits, &Relay { count }, &NoGate) {
        Err(NoMemory) => println!(rt; "no memory"),
        Ok((pieces, kits)) => taken_line(rt, pieces.len(), &sum_of(kits.as_slice())),
    }
}

fn taken_line(rt: &impl Print, put: usize, sum: &Kit) -> io::Result<()> {
    println!(rt; "{put} put, taken {:?}, lost {}", sum.taken, sum.lost)
}
