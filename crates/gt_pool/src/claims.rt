ghost use Rattle.std.specs.Prelude.{◌≡◌, ◌<◌, ◌≤◌, ◌+◌, ◌-◌, ℕ, [], ◌∷◌, ◌++◌, ◌||◌, true, false, IfOk, MatchOption};
ghost use Rattle.gt_pool.specs.Known.{Counted, Claiming};
ghost use Rattle.gt_pool.specs.Counting.{times, below};

use crate::claim_rule::{Claim, Law, Look, Parts};
use crate::claim_view::ClaimView;
use atomic_table::{Seat, Table};
use gt_list::NoMemory;
use std::alloc::Global;
use std::marker::Model;

/// The numbers from 0 up to below a count, of which threads claim each once. All calls but `new` take no memory.
#[derive(Drop)]
pub(crate) struct Claims {
    count: u32,
    table: Table<u8, ClaimView, u64, Law, Global>,
}

impl Model for Claims {
    ghost use Rattle.std.specs.Prelude.{◌≡◌};
    ghost use Rattle.gt_pool.specs.Known.{Counted};

    ghost Value = { Counted };

    ghost view = { λ h. record { table = h.table.shared.table_id; count = h.count } };

    ghost invariant = { λ h. (h.table.shared.table_id.words ≡ 1) × (h.table.shared.key ≡ h.count) };
}

/// Who claims numbers. One that is dropped takes its parts with it, so nobody can show any more that all were claimed.
#[derive(Drop)]
pub(crate) struct Claimer {
    finished: bool,
    seat: Seat<u8, ClaimView>,
}

impl Model for Claimer {
    ghost use Rattle.std.specs.Prelude.{◌≡◌, ◌≤◌, [], true, false};
    ghost use Rattle.gt_pool.specs.Known.{Claiming};

    ghost Value = { Claiming };

    ghost view = { λ o. record { of = record { table = o.seat.table_id; count = o.seat.me.0.count }; parts = o.seat.me.0.parts; finished = o.finished; claims = o.seat.me.0.claims } };

    ghost invariant = { λ o. (o.seat.me.1 ≡ []) × (1 ≤ o.seat.me.0.parts) × (o.finished ≡ false → o.seat.me.0.over ≡ 0) × (o.finished ≡ true → 1 ≤ o.seat.me.0.over) };
}

impl Claims {
    /// No number is claimed, and the claimer has all parts.
    pub fn new(alloc: Global, count: u32) -> Result<(Claims, Claimer), NoMemory>
        ensures { IfOk result (λ r. (r.0.count ≡ count) × (r.1 ≡ record { of = r.0; parts = 1024; finished = false; claims = [] })) }
    {
        match Table::of_words(alloc, &[0], &u64::from(count)) {
            Err(_) => Err(NoMemory),
            Ok((table, seat)) => Ok((
                Claims { count, table },
                Claimer {
                    finished: false,
                    seat,
                },
            )),
        }
    }

    /// The next number below the count that nobody has. None once all are claimed, and from then on.
    pub fn claim(&self, claimer: &mut Claimer) -> Option<u32>
        requires { claimer.old.of ≡ self.now }
        ensures of { (claimer.new.of ≡ self.now) × (claimer.new.parts ≡ claimer.old.parts) }
        ensures claims { MatchOption result ((claimer.new.claims ≡ claimer.old.claims) × (claimer.new.finished ≡ true)) (λ n. (n < self.now.count) × (claimer.new.claims ≡ claimer.old.claims ++ n ∷ [])) }
    {
        if claimer.finished {
            return None;
        }
        let n = self
            .table
            .shared
            .fetch_add::<Claim>(&mut claimer.seat, 0, 1);
        if n < u64::from(self.count) {
            Some(n as u32)
        } else {
            claimer.finished = true;
            None
        }
    }

    /// A claimer of its own for another thread, with one part.
    pub fn split(&self, claimer: &mut Claimer) -> Claimer
        requires of { claimer.old.of ≡ self.now }
        requires parts { (2 ≤ claimer.old.parts) × (claimer.old.finished ≡ false) }
        ensures new { result ≡ record { of = self.now; parts = 1; finished = false; claims = [] } }
        ensures kept { claimer.new ≡ record { of = self.now; parts = claimer.old.parts - 1; finished = false; claims = claimer.old.claims } }
    {
        let seat = self.table.shared.split_seat::<Parts>(&mut claimer.seat);
        Claimer {
            finished: false,
            seat,
        }
    }

    /// The claims and the parts of both.
    pub fn join(&self, claimer: &mut Claimer, other: Claimer)
        requires { (claimer.old.of ≡ self.now) × (other.of ≡ self.now) }
        ensures of { claimer.new.of ≡ self.now }
        ensures parts { claimer.new.parts ≡ claimer.old.parts + other.parts }
        ensures claims { claimer.new.claims ≡ claimer.old.claims ++ other.claims }
        ensures finished { claimer.new.finished ≡ (claimer.old.finished || other.finished) }
    {
        let Claimer { finished, seat } = other;
        self.table
            .shared
            .join_seat::<Parts>(&mut claimer.seat, seat);
        claimer.finished = claimer.finished || finished;
    }

    /// With all parts, and once the count was found to be reached, the claims are the numbers below the count, each once.
    pub fn all(&self, claimer: &mut Claimer)
        requires of { claimer.old.of ≡ self.now }
        requires all { (claimer.old.parts ≡ 1024) × (claimer.old.finished ≡ true) }
        ensures each { (x : ℕ) → times x claimer.new.claims ≡ below x self.now.count }
        ensures same { claimer.new ≡ claimer.old }
    {
        self.table.shared.load::<Look>(&mut claimer.seat, 0);
    }
}
