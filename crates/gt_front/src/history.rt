ghost use Rattle.std.specs.Prelude.{◌≡◌, ◌≤◌, ◌⊎◌, ℕ, List, [], max, IfOk};
ghost use mathlib.Core.List.{IsPrefix};
ghost use Rattle.gt_front.specs.Knowledge.{Named, Knowledge, last_of};

use crate::rule::{Check, Copied, Law, Listing, Load, Publish};
use crate::told::Told;
use crate::view::View;
use atomic_table::{Seat, Table};
use gt_list::NoMemory;
use std::alloc::Global;
use std::marker::{Brand, Model};

/// The word that all threads share, which is the last position that was published.
#[derive(Drop)]
pub struct History {
    table: Table<u8, View, u64, Law, Global>,
}

impl Model for History {
    ghost use Rattle.std.specs.Prelude.{◌≡◌};
    ghost use Rattle.gt_front.specs.Knowledge.{Named};

    ghost Value = { Named };

    ghost view = { λ h. record { table = h.table.shared.table_id; first = h.table.shared.key } };

    ghost invariant = { λ h. h.table.shared.table_id.words ≡ 1 };
}

/// Who raises the word. The list of what was published reaches to it.
#[derive(Drop)]
pub struct Owner {
    seat: Seat<u8, View>,
}

impl Model for Owner {
    ghost use Rattle.std.specs.Prelude.{◌≡◌, []};
    ghost use Rattle.gt_front.specs.Knowledge.{Knowledge};
    ghost use Rattle.gt_front.specs.Views.{owning};

    ghost Value = { Knowledge };

    ghost view = { λ o. record { history = record { table = o.seat.table_id; first = o.seat.me.0.first }; list = o.seat.me.0.list; number = o.seat.me.0.number } };

    ghost invariant = { λ o. o.seat.me ≡ (owning o.seat.me.0.first o.seat.me.0.list o.seat.me.0.told o.seat.me.0.number, []) };
}

/// Who reads the word. The list is a front of the owner's.
#[derive(Drop)]
pub struct Reader {
    seat: Seat<u8, View>,
}

impl Model for Reader {
    ghost use Rattle.std.specs.Prelude.{◌≡◌, []};
    ghost use Rattle.gt_front.specs.Knowledge.{Knowledge};
    ghost use Rattle.gt_front.specs.Views.{reading};

    ghost Value = { Knowledge };

    ghost view = { λ r. record { history = record { table = r.seat.table_id; first = r.seat.me.0.first }; list = r.seat.me.0.list; number = r.seat.me.0.number } };

    ghost invariant = { λ r. r.seat.me ≡ (reading r.seat.me.0.first r.seat.me.0.list r.seat.me.0.told r.seat.me.0.number, []) };
}

impl History {
    /// A history from this position on: the word is that position, and nothing was published.
    pub fn new(alloc: Global, first: u64) -> Result<(History, Owner), NoMemory>
        ensures history { IfOk result (λ r. r.0.first ≡ first) }
        ensures owner { IfOk result (λ r. r.1 ≡ record { history = r.0; list = []; number = 0 }) }
    {
        match Table::of_words(alloc, &[first], &first) {
            Ok((table, seat)) => Ok((History { table }, Owner { seat })),
            Err(_) => Err(NoMemory),
        }
    }

    /// Publishes a list: it becomes the owner's, of which the old one is a front, and the word becomes its last position. It takes no
    /// memory, as all calls but `new`.
    pub fn publish<L: Told>(&self, owner: &mut Owner, told: &L)
        requires history { owner.old.history ≡ self.now }
        requires first { L.first told.now ≡ self.now.first }
        requires extends { IsPrefix owner.old.list (L.list told.now) }
        ensures { owner.new ≡ record { history = owner.old.history; list = L.list told.now; number = owner.old.number } }
    {
        self.publish_list::<L, Brand>(owner, told);
    }

    fn publish_list<L: Told, B: Listing>(&self, owner: &mut Owner, told: &L)
        requires picked { B.list ≡ L.list told.now }
        requires history { owner.old.history ≡ self.now }
        requires first { L.first told.now ≡ self.now.first }
        requires extends { IsPrefix owner.old.list B.list }
        ensures { owner.new ≡ record { history = owner.old.history; list = B.list; number = owner.old.number } }
    {
        let last = told.last();
        self.table
            .shared
            .swap::<Publish<B>>(&mut owner.seat, 0, last);
    }

    /// The word, which becomes the reader's number. It is at least the reader's old number and its list's last position.
    pub fn load(&self, reader: &mut Reader) -> u64
        requires history { reader.old.history ≡ self.now }
        ensures reader { reader.new ≡ record { history = reader.old.history; list = reader.old.list; number = result } }
        ensures number { reader.old.number ≤ result }
        ensures list { last_of reader.old ≤ result }
    {
        self.table.shared.load::<Load>(&mut reader.seat, 0)
    }

    /// A reader with the owner's list.
    pub fn reader(&self, owner: &mut Owner) -> Reader
        requires history { owner.old.history ≡ self.now }
        ensures { (result ≡ owner.old) × (owner.new ≡ owner.old) }
    {
        let seat = self.table.shared.split_seat::<Copied>(&mut owner.seat);
        Reader { seat }
    }

    /// A reader that knows as much.
    pub fn split(&self, reader: &mut Reader) -> Reader
        requires history { reader.old.history ≡ self.now }
        ensures { (result ≡ reader.old) × (reader.new ≡ reader.old) }
    {
        let seat = self.table.shared.split_seat::<Copied>(&mut reader.seat);
        Reader { seat }
    }

    /// Joins another reader into this one: its list becomes the longer of the two, of which both are fronts, and its number the greater.
    pub fn join(&self, reader: &mut Reader, other: Reader)
        requires history { reader.old.history ≡ self.now }
        requires other { other.history ≡ self.now }
        ensures one { (reader.new.list ≡ reader.old.list) ⊎ (reader.new.list ≡ other.list) }
        ensures this { IsPrefix reader.old.list reader.new.list }
        ensures that { IsPrefix other.list reader.new.list }
        ensures number { reader.new.number ≡ max reader.old.number other.number }
        ensures history { reader.new.history ≡ reader.old.history }
    {
        let Reader { seat } = other;
        self.table
            .shared
            .join_seat::<Copied>(&mut reader.seat, seat);
        self.table.shared.load::<Check>(&mut reader.seat, 0);
    }

    /// The reader's list becomes the owner's, of which its old list is a front. The list's last position is at least the reader's
    /// old number.
    pub fn meet(&self, reader: &mut Reader, owner: &mut Owner)
        requires reader { reader.old.history ≡ self.now }
        requires owner { owner.old.history ≡ self.now }
        ensures list { reader.new.list ≡ owner.old.list }
        ensures before { IsPrefix reader.old.list reader.new.list }
        ensures number { reader.old.number ≤ last_of reader.new }
        ensures history { reader.new.history ≡ reader.old.history }
        ensures owner { (owner.new.history ≡ owner.old.history) × (owner.new.list ≡ owner.old.list) }
    {
        let shared = &self.table.shared;
        let copy = shared.split_seat::<Copied>(&mut reader.seat);
        shared.join_seat::<Copied>(&mut owner.seat, copy);
        shared.load::<Load>(&mut owner.seat, 0);
        let known = shared.split_seat::<Copied>(&mut owner.seat);
        shared.join_seat::<Copied>(&mut reader.seat, known);
    }
}
