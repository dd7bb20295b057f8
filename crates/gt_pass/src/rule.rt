// The rule of the passes, and what its steps tell. These types are for the proofs alone.
use crate::hand::Hand;
use atomic_table::{Join, Play, Split, TableRule};
use std::marker::{Brand, PhantomData};

pub struct Law;

impl TableRule<u8, Hand, ()> for Law {
    ghost use Rattle.std.specs.Prelude.{[]};
    ghost use Rattle.gt_pass.specs.Hands.{keeping, Kept};

    ghost holds = { λ _. Kept };

    ghost first = { λ _. keeping [] [] };
}

/// A pass that a call picks.
pub trait Named {
    ghost use Rattle.std.specs.Prelude.{ℕ};

    ghost pass: { ℕ × ℕ };
}

impl Named for Brand {
    ghost pass = { (0, 0) };
}

pub struct Open<B> {
    marker: PhantomData<B>,
}

impl<B: Named> Play<u8, Hand> for Open<B> {
    ghost use Rattle.gt_pass.specs.Hands.{Opens};

    ghost then = { Opens B.pass };
}

pub struct Check;

impl Play<u8, Hand> for Check {
    ghost use Rattle.gt_pass.specs.Hands.{Checks};

    ghost then = { Checks };
}

pub struct End;

impl Play<u8, Hand> for End {
    ghost use Rattle.gt_pass.specs.Hands.{Ends};

    ghost then = { Ends };
}

/// A seat with nothing in its hand, and a hand that takes in another.
pub struct Empty;

impl Split<Hand> for Empty {
    ghost use Rattle.std.specs.Prelude.{[]};
    ghost use Rattle.gt_pass.specs.Hands.{bearing};

    ghost left = { λ v. v };

    ghost right = { λ v. bearing [] };
}

impl Join<Hand> for Empty {
    ghost use Rattle.std.specs.Prelude.{[]};
    ghost use Rattle.gt_pass.specs.Hands.{both, bearing};

    ghost both = { both };

    ghost spent = { bearing [] };
}

/// A seat with the first pass of the hand.
pub struct Deal;

impl Split<Hand> for Deal {
    ghost use Rattle.gt_pass.specs.Hands.{dealt, taken};

    ghost left = { dealt };

    ghost right = { taken };
}
