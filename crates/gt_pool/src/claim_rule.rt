use crate::claim_view::ClaimView;
use atomic_table::{Join, Play, Split, TableRule};

/// The rule of the claim word. The key is the count.
pub(crate) struct Law;

impl TableRule<u8, ClaimView, u64> for Law {
    ghost use Rattle.std.specs.Prelude.{[]};
    ghost use Rattle.gt_pool.specs.Claimed.{view, Kept};

    ghost holds = { Kept };

    ghost first = { λ count. view 1024 count 0 [] };
}

/// One claim: one fetch_add.
pub(crate) struct Claim;

impl Play<u8, ClaimView> for Claim {
    ghost use Rattle.gt_pool.specs.Claimed.{Claims};

    ghost then = { Claims };
}

/// A look at the word, which changes nothing.
pub(crate) struct Look;

impl Play<u8, ClaimView> for Look {
    ghost use Rattle.gt_pool.specs.Claimed.{Looks};

    ghost then = { Looks };
}

/// A part goes to another claimer, or comes back.
pub(crate) struct Parts;

impl Split<ClaimView> for Parts {
    ghost use Rattle.gt_pool.specs.Claimed.{lent, started};

    ghost left = { lent };

    ghost right = { started };
}

impl Join<ClaimView> for Parts {
    ghost use Rattle.std.specs.Prelude.{[]};
    ghost use Rattle.gt_pool.specs.Claimed.{both, view};

    ghost both = { both };

    ghost spent = { view 0 0 0 [] };
}
