ghost use Rattle.std.specs.Prelude.{◌≡◌, ◌<◌, ◌≤◌, ◌+◌, ◌-◌, ℕ, [], ◌∷◌, ◌++◌, None, IfOk, IfNone, OnOk, OnErr, MatchOption};
ghost use Rattle.gt_pool.specs.Known.{Queued, Ticketing};
ghost use Rattle.gt_pool.specs.Counting.{times};
ghost use Rattle.gt_pool.specs.Ticketed.{IsTicket, Held, view};

use crate::ticket_rule::{Law, Parts, Put, Take};
use crate::ticket_view::TicketView;
use crossbeam_queue::{RuledSegQueue, SegPass};
use gt_list::NoMemory;
use std::alloc::Global;
use std::marker::Model;
use std::sync::Wait;

/// A queue of tickets, which are numbers of partitions, for many threads. It is ended by `end`.
pub struct Tickets {
    queue: RuledSegQueue<u8, TicketView, Law>,
}

impl Model for Tickets {
    ghost use Rattle.std.specs.declared.alloc.Global.{Global};
    ghost use Rattle.crossbeam_queue.specs.SegTies.{SegId};

    ghost Value = { SegId Global };

    ghost view = { λ t. t.queue };
}

/// By what a thread puts and takes tickets. A clause sees what it put and what it took.
#[derive(Drop)]
pub struct TicketPass {
    pass: SegPass<u8, TicketView>,
}

impl Model for TicketPass {
    ghost use Rattle.std.specs.Prelude.{◌≡◌, ◌≤◌, None};
    ghost use Rattle.gt_pool.specs.Known.{Ticketing};

    ghost Value = { Ticketing };

    ghost view = { λ p. record { of = record { web = p.pass.web; heap = p.pass.heap }; parts = p.pass.me.view.client.parts; put = p.pass.me.view.client.put; taken = p.pass.me.view.client.taken } };

    ghost invariant = { λ p. (p.pass.me.hand ≡ None) × (p.pass.me.spare ≡ None) × (1 ≤ p.pass.me.view.client.parts) };
}

impl Tickets {
    /// No ticket is there, and the pass has all parts.
    pub fn new(alloc: Global) -> Result<(Tickets, TicketPass), NoMemory>
        ensures { IfOk result (λ r. r.1 ≡ record { of = r.0; parts = 1024; put = []; taken = [] }) }
    {
        match RuledSegQueue::with_rule(alloc) {
            Err(_) => Err(NoMemory),
            Ok((queue, pass)) => Ok((Tickets { queue }, TicketPass { pass })),
        }
    }

    /// Puts a ticket behind those that are there. After an error nothing has changed.
    pub fn put<R: Wait>(&self, rt: &R, pass: &mut TicketPass, partition: u8) -> Result<(), NoMemory>
        requires pass { pass.old.of ≡ self.now }
        requires ticket { IsTicket partition }
        ensures ok { OnOk result (pass.new ≡ record { of = self.now; parts = pass.old.parts; put = pass.old.put ++ partition ∷ []; taken = pass.old.taken }) }
        ensures err { OnErr result (pass.new ≡ pass.old) }
    {
        match self.queue.push_as::<Put, R>(rt, &mut pass.pass, partition) {
            Ok(()) => Ok(()),
            Err(_) => Err(NoMemory),
        }
    }

    /// Takes the first ticket. None only where the queue was empty at a step of this call.
    pub fn take<R: Wait>(&self, rt: &R, pass: &mut TicketPass) -> Option<u8>
        requires { pass.old.of ≡ self.now }
        ensures taken { MatchOption result (pass.new ≡ pass.old) (λ p. IsTicket p × (pass.new ≡ record { of = self.now; parts = pass.old.parts; put = pass.old.put; taken = pass.old.taken ++ p ∷ [] })) }
        // At a step of the call the queue held nothing.
        ensures empty { IfNone result (Held (view pass.old.parts pass.old.put pass.old.taken) []) }
        // So by whoever has all parts, each ticket that was put was taken.
        ensures all { result ≡ None → pass.old.parts ≡ 1024 → (p : ℕ) → times p pass.old.put ≡ times p pass.old.taken }
    {
        self.first(rt, pass)
    }

    fn first<R: Wait>(&self, rt: &R, pass: &mut TicketPass) -> Option<u8>
        requires { pass.old.of ≡ self.now }
        ensures taken { MatchOption result (pass.new ≡ pass.old) (λ p. IsTicket p × (pass.new ≡ record { of = self.now; parts = pass.old.parts; put = pass.old.put; taken = pass.old.taken ++ p ∷ [] })) }
        // At a step of the call the queue held nothing.
        ensures empty { IfNone result (Held (view pass.old.parts pass.old.put pass.old.taken) []) }
        // So by whoever has all parts, each ticket that was put was taken.
        ensures all { result ≡ None → pass.old.parts ≡ 1024 → (p : ℕ) → times p pass.old.put ≡ times p pass.old.taken }
    {
        self.queue.pop_as::<Take, R>(rt, &mut pass.pass)
    }

    /// A pass of its own for another thread, with one part.
    pub fn split(&self, pass: &mut TicketPass) -> TicketPass
        requires of { pass.old.of ≡ self.now }
        requires parts { 2 ≤ pass.old.parts }
        ensures new { result ≡ record { of = self.now; parts = 1; put = []; taken = [] } }
        ensures kept { pass.new ≡ record { of = self.now; parts = pass.old.parts - 1; put = pass.old.put; taken = pass.old.taken } }
    {
        let pass = self.queue.another::<Parts>(&mut pass.pass);
        TicketPass { pass }
    }

    /// What both put and took, and the parts of both.
    pub fn join(&self, pass: &mut TicketPass, other: TicketPass)
        requires { (pass.old.of ≡ self.now) × (other.of ≡ self.now) }
        ensures { pass.new ≡ record { of = self.now; parts = pass.old.parts + other.parts; put = pass.old.put ++ other.put; taken = pass.old.taken ++ other.taken } }
    {
        let TicketPass { pass: other } = other;
        self.queue.absorb::<Parts>(&mut pass.pass, other);
    }

    /// Ends the queue. Tickets that are left are dropped.
    pub fn end(self) {
        let Tickets { queue } = self;
        queue.destroy();
    }
}
