ghost use Rattle.std.specs.Prelude.{◌≡◌, ◌↔◌, ◌≤◌, ◌<◌, ◌++◌, ◌∷◌, [], ℕ, length, nat_eq, find, map as map_list, true, false, Some, IsErr, IfOk, OnErr};
ghost use Rattle.gt_model.specs.Machine.{is_live, is_live_as, is_transaction, free_number, released, reading};
ghost use Rattle.gt_pins.specs.Live.{pin_of};

use crate::{Pin, PinsFull, free_numbers_are_free};
use gt_list::NoMemory;
use gt_name::RepoPath;
use std::alloc::Global;
use std::marker::Model;

/// A live transaction: the number of its pin, the position that it reads, and its repository.
#[derive(Drop)]
pub struct LivePin {
    pub number: u8,
    pub position: u64,
    pub path: RepoPath,
}

/// The live transactions, in order of beginning.
#[derive(Drop)]
pub struct Live {
    pins: Vec<LivePin>,
}

impl Model for Live {
    ghost use Rattle.std.specs.Prelude.{List, map as map_list};
    ghost use Rattle.gt_model.specs.Machine.{Pin};
    ghost use Rattle.gt_pins.specs.Live.{pin_of};

    ghost Value = { List Pin };

    ghost view = { λ l. map_list pin_of l.pins.items };
}

impl Live {
    /// None. It takes no memory.
    pub fn new(alloc: Global) -> Live
        ensures { result ≡ [] }
    {
        Live {
            pins: Vec::new(alloc),
        }
    }

    pub fn len(&self) -> usize
        ensures { result ≡ length self.now }
    {
        self.pins.len()
    }

    pub fn is_live(&self, pin: &Pin) -> bool
        ensures { result ≡ is_live self.now pin.now }
    {
        self.has(pin.number)
    }

    /// The transactions, in order of beginning.
    pub fn as_slice(&self) -> &[LivePin]
        ensures { map_list pin_of result.now ≡ self.now }
    {
        self.pins.as_slice()
    }

    /// The transaction of a live pin.
    pub fn get(&self, pin: &Pin) -> &LivePin
        requires { is_live self.now pin.now ≡ true }
        ensures { find (λ p. nat_eq p.number pin.now) self.now ≡ Some (pin_of result.now) }
    {
        self.find(pin.number)
    }

    /// The least number that isn't live. `PinsFull` comes exactly where as many are live as the limit says.
    pub fn free_number(&self, limit: u8) -> Result<u8, PinsFull>
        ensures least { IfOk result (λ number. number ≡ free_number self.now) }
        ensures free { IfOk result (λ number. is_live self.now number ≡ false) }
        ensures full { IsErr result ↔ (limit ≤ length self.now) }
    {
        if limit as usize <= self.pins.len() {
            return Err(PinsFull);
        }
        // a law, which does nothing
        free_numbers_are_free();
        Ok(self.least_free())
    }

    /// Begins a transaction under a number that isn't live, behind the others. Where memory runs out nothing has changed.
    pub fn begin(&mut self, number: u8, position: u64, path: &RepoPath) -> Result<Pin, NoMemory>
        requires { is_live self.old number ≡ false }
        ensures pin { IfOk result (λ pin. pin ≡ number) }
        ensures live { IfOk result (λ pin. self.new ≡ self.old ++ reading number position path.now ∷ []) }
        ensures unchanged { OnErr result (self.new ≡ self.old) }
    {
        let Ok(path) = path.clone() else {
            return Err(NoMemory);
        };
        let pin = LivePin {
            number,
            position,
            path,
        };
        match self.pins.push(pin) {
            Ok(()) => Ok(Pin { number }),
            Err(_) => Err(NoMemory),
        }
    }

    /// Ends the transaction of a pin. It takes no memory.
    pub fn release(&mut self, pin: &Pin)
        ensures { self.new ≡ released self.old pin.now }
    {
        self.drop_number(pin.number);
    }

    /// A law, which does nothing: what is live here is a transaction, and no job.
    pub fn are_transactions(&self)
        ensures { (number : ℕ) → is_live_as is_transaction self.now number ≡ is_live self.now number }
    {
        let _ = self.pins.len();
    }

    fn has(&self, number: u8) -> bool
        ensures { result ≡ is_live self.now number }
    {
        self.pins.iter().any(|pin| pin.number == number)
    }

    fn find(&self, number: u8) -> &LivePin
        requires { is_live self.now number ≡ true }
        ensures { find (λ p. nat_eq p.number number) self.now ≡ Some (pin_of result.now) }
    {
        match self.pins.iter().find(|pin| pin.number == number) {
            Some(pin) => pin,
            None => unreachable!(),
        }
    }

    fn least_free(&self) -> u8
        requires { length self.now < 256 }
        ensures { result ≡ free_number self.now }
    {
        let len = self.pins.len() as u8;
        for number in 0..len {
            if !self.has(number) {
                return number;
            }
        }
        len
    }

    fn drop_number(&mut self, number: u8)
        ensures { self.new ≡ released self.old number }
    {
        self.pins.retain(|pin| pin.number != number);
    }
}
