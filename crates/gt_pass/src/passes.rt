ghost use Rattle.std.specs.Prelude.{◌≡◌, ◌≢◌, ℕ, List, [], ◌∷◌, ◌++◌, IfOk, true, false};
ghost use Rattle.gt_pass.specs.Known.{Keeping, Bearing};
ghost use Rattle.gt_pass.specs.Hands.{times, without, IsIn, bearing, both, dealt, taken};

use crate::hand::Hand;
use crate::rule::{Check, Deal, Empty, End, Law, Named, Open};
use atomic_table::{Seat, Table};
use gt_list::NoMemory;
use std::alloc::Global;
use std::marker::{Brand, Model};

/// What all threads share. A clause sees which table it is.
#[derive(Drop)]
pub struct Passes {
    table: Table<u8, Hand, (), Law, Global>,
}

impl Model for Passes {
    ghost use Rattle.std.specs.Prelude.{◌≡◌};
    ghost use Rattle.atomic_table.specs.Seated.{TableId};

    ghost Value = { TableId };

    ghost view = { λ p. p.table.shared.table_id };

    ghost invariant = { λ p. p.table.shared.table_id.words ≡ 1 };
}

/// Who knows which passes are live.
#[derive(Drop)]
pub struct Keeper {
    seat: Seat<u8, Hand>,
}

impl Model for Keeper {
    ghost use Rattle.std.specs.Prelude.{◌≡◌, []};
    ghost use Rattle.gt_pass.specs.Known.{Keeping};
    ghost use Rattle.gt_pass.specs.Hands.{keeping};

    ghost Value = { Keeping };

    ghost view = { λ k. record { table = k.seat.table_id; live = k.seat.me.0.live } };

    ghost invariant = { λ k. k.seat.me ≡ (keeping k.seat.me.0.live [], []) };
}

/// A pass that its bearer can show.
#[derive(Drop)]
pub struct PassSeat {
    number: u8,
    mark: u8,
    seat: Seat<u8, Hand>,
}

impl Model for PassSeat {
    ghost use Rattle.std.specs.Prelude.{◌≡◌, [], ◌∷◌};
    ghost use Rattle.gt_pass.specs.Known.{Bearing};
    ghost use Rattle.gt_pass.specs.Hands.{bearing};

    ghost Value = { Bearing };

    ghost view = { λ s. record { table = s.seat.table_id; number = s.number; mark = s.mark } };

    ghost invariant = { λ s. s.seat.me ≡ (bearing ((s.number, s.mark) ∷ []), []) };
}

impl Passes {
    /// No number is live.
    pub fn new(alloc: Global) -> Result<(Passes, Keeper), NoMemory>
        ensures { IfOk result (λ r. r.1 ≡ record { table = r.0; live = [] }) }
    {
        match Table::of_words(alloc, &[0], &()) {
            Ok((table, seat)) => Ok((Passes { table }, Keeper { seat })),
            Err(_) => Err(NoMemory),
        }
    }

    /// Makes a number live, with this mark, as the last one, and gives its seat. A seat that is dropped leaves its number live. It takes
    /// no memory, as all calls but `new`.
    pub fn open(&self, keeper: &mut Keeper, number: u8, mark: u8) -> PassSeat
        requires table { keeper.old.table ≡ self.now }
        requires free { times number keeper.old.live ≡ 0 }
        ensures seat { result ≡ record { table = self.now; number = number; mark = mark } }
        ensures live { keeper.new ≡ record { table = self.now; live = keeper.old.live ++ (number, mark) ∷ [] } }
    {
        self.open_as::<Brand>(keeper, number, mark)
    }

    fn open_as<B: Named>(&self, keeper: &mut Keeper, number: u8, mark: u8) -> PassSeat
        requires picked { B.pass ≡ (number, mark) }
        requires table { keeper.old.table ≡ self.now }
        requires free { times number keeper.old.live ≡ 0 }
        ensures seat { result ≡ record { table = self.now; number = number; mark = mark } }
        ensures live { keeper.new ≡ record { table = self.now; live = keeper.old.live ++ (number, mark) ∷ [] } }
    {
        let shared = &self.table.shared;
        shared.load::<Open<B>>(&mut keeper.seat, 0);
        let seat = shared.split_seat::<Deal>(&mut keeper.seat);
        PassSeat { number, mark, seat }
    }

    /// Shows that a seat's number is live, with the seat's mark. Nothing changes.
    pub fn meet(&self, keeper: &mut Keeper, seat: &mut PassSeat)
        requires keeper { keeper.old.table ≡ self.now }
        requires seat { seat.old.table ≡ self.now }
        ensures live { IsIn (seat.old.number, seat.old.mark) keeper.old.live }
        ensures same { (keeper.new ≡ keeper.old) × (seat.new ≡ seat.old) }
    {
        self.show(&mut keeper.seat, &mut seat.seat);
        self.table.shared.load::<Check>(&mut keeper.seat, 0);
        self.give_back(&mut keeper.seat, &mut seat.seat);
    }

    /// Shows that two seats have two numbers. Nothing changes.
    pub fn tell_apart(&self, keeper: &mut Keeper, one: &mut PassSeat, other: &mut PassSeat)
        requires keeper { keeper.old.table ≡ self.now }
        requires one { one.old.table ≡ self.now }
        requires other { other.old.table ≡ self.now }
        ensures numbers { one.old.number ≢ other.old.number }
        ensures same { (keeper.new ≡ keeper.old) × (one.new ≡ one.old) × (other.new ≡ other.old) }
    {
        self.show(&mut keeper.seat, &mut one.seat);
        self.show(&mut keeper.seat, &mut other.seat);
        self.table.shared.load::<Check>(&mut keeper.seat, 0);
        self.give_back(&mut keeper.seat, &mut other.seat);
        self.give_back(&mut keeper.seat, &mut one.seat);
    }

    // What a seat has in its hand goes to the front of the keeper's.
    fn show(&self, keeper: &mut Seat<u8, Hand>, seat: &mut Seat<u8, Hand>)
        requires keeper { (keeper.old.table_id ≡ self.now) × (keeper.old.me.0.keeps ≡ true) }
        requires seat { (seat.old.table_id ≡ self.now) × (seat.old.me.0.keeps ≡ false) × (seat.old.me.1 ≡ []) }
        ensures keeper { (keeper.new.table_id ≡ self.now) × (keeper.new.me ≡ (both keeper.old.me.0 seat.old.me.0, keeper.old.me.1)) }
        ensures seat { (seat.new.table_id ≡ self.now) × (seat.new.me ≡ (bearing [], [])) }
    {
        let shared = &self.table.shared;
        let empty = shared.split_seat::<Empty>(keeper);
        let shown = std::mem::replace(seat, empty);
        shared.join_seat::<Empty>(keeper, shown);
    }

    // The first of the keeper's hand goes to a seat, which is put in its hand's place.
    fn give_back(&self, keeper: &mut Seat<u8, Hand>, seat: &mut Seat<u8, Hand>)
        requires keeper { (keeper.old.table_id ≡ self.now) × (keeper.old.me.0.keeps ≡ true) }
        requires seat { (seat.old.table_id ≡ self.now) × (seat.old.me.0.keeps ≡ false) × (seat.old.me.1 ≡ []) }
        ensures keeper { (keeper.new.table_id ≡ self.now) × (keeper.new.me ≡ (both (dealt keeper.old.me.0) seat.old.me.0, keeper.old.me.1)) }
        ensures seat { (seat.new.table_id ≡ self.now) × (seat.new.me ≡ (taken keeper.old.me.0, [])) }
    {
        let shared = &self.table.shared;
        let back = shared.split_seat::<Deal>(keeper);
        let empty = std::mem::replace(seat, back);
        shared.join_seat::<Empty>(keeper, empty);
    }

    /// Ends a pass: its number isn't live any more.
    pub fn end(&self, keeper: &mut Keeper, seat: PassSeat)
        requires keeper { keeper.old.table ≡ self.now }
        requires seat { seat.table ≡ self.now }
        ensures { keeper.new ≡ record { table = self.now; live = without seat.number keeper.old.live } }
    {
        let PassSeat {
            number: _,
            mark: _,
            seat,
        } = seat;
        let shared = &self.table.shared;
        shared.join_seat::<Empty>(&mut keeper.seat, seat);
        shared.load::<End>(&mut keeper.seat, 0);
    }
}
