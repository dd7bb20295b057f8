// The rule of a history, and what its steps tell. These types are for the proofs alone.
use crate::view::View;
use atomic_table::{Join, Play, Split, TableRule};
use std::marker::{Brand, PhantomData};

/// The key is the first position.
pub struct Law;

impl TableRule<u8, View, u64> for Law {
    ghost use Rattle.std.specs.Prelude.{[]};
    ghost use Rattle.gt_front.specs.Views.{owning, Kept};

    ghost holds = { Kept };

    ghost first = { λ first. owning first [] [] 0 };
}

/// A list that a call picks.
pub trait Listing {
    ghost use Rattle.std.specs.Prelude.{List};
    ghost use Rattle.gt_model.specs.declared.entry.Entry.{Entry};

    ghost list: { List Entry };
}

impl Listing for Brand {
    ghost use Rattle.std.specs.Prelude.{[]};

    ghost list = { [] };
}

pub struct Publish<B> {
    marker: PhantomData<B>,
}

impl<B: Listing> Play<u8, View> for Publish<B> {
    ghost use Rattle.gt_front.specs.Views.{Publishes};

    ghost then = { Publishes B.list };
}

pub struct Load;

impl Play<u8, View> for Load {
    ghost use Rattle.gt_front.specs.Views.{Loads};

    ghost then = { Loads };
}

pub struct Check;

impl Play<u8, View> for Check {
    ghost use Rattle.gt_front.specs.Views.{Checks};

    ghost then = { Checks };
}

/// A copy that does not own, and a view that takes in another.
pub struct Copied;

impl Split<View> for Copied {
    ghost use Rattle.gt_front.specs.Views.{copy};

    ghost left = { λ v. v };

    ghost right = { copy };
}

impl Join<View> for Copied {
    ghost use Rattle.gt_front.specs.Views.{both, nobody};

    ghost both = { both };

    ghost spent = { nobody };
}
