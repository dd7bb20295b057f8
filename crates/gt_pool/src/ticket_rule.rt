use crate::ticket_view::TicketView;
use crossbeam_queue::protocol::{Join, Lesson, Outcome, Protocol, Split};

/// The rule of the ticket queue.
pub(crate) struct Law;

impl Protocol<u8, TicketView> for Law {
    ghost use Rattle.std.specs.Prelude.{[]};
    ghost use Rattle.gt_pool.specs.Ticketed.{view, Kept};

    ghost holds = { Kept };

    ghost first = { view 1024 [] [] };
}

/// A ticket joins the queue.
pub(crate) struct Put;

impl Outcome<u8, TicketView> for Put {
    ghost use Rattle.gt_pool.specs.Ticketed.{Puts};

    ghost then = { Puts };
}

/// A ticket leaves the queue, or the queue is empty.
pub(crate) struct Take;

impl Outcome<u8, TicketView> for Take {
    ghost use Rattle.gt_pool.specs.Ticketed.{Takes};

    ghost then = { Takes };
}

impl Lesson<u8, TicketView> for Take {
    ghost use Rattle.gt_pool.specs.Ticketed.{Held};

    ghost fact = { Held };
}

/// A part goes to another pass, or comes back.
pub(crate) struct Parts;

impl Split<TicketView> for Parts {
    ghost use Rattle.std.specs.Prelude.{[]};
    ghost use Rattle.gt_pool.specs.Ticketed.{lent, view};

    ghost left = { lent };

    ghost right = { λ v. view 1 [] [] };
}

impl Join<TicketView> for Parts {
    ghost use Rattle.std.specs.Prelude.{[]};
    ghost use Rattle.gt_pool.specs.Ticketed.{both, view};

    ghost both = { both };

    ghost spent = { view 0 [] [] };
}
