ghost use Rattle.std.specs.Prelude.{◌≡◌, ◌<◌, ℕ};
ghost use Rattle.gt_pool.specs.Known.{Queued};

use crate::{TicketPass, Tickets};
use gt_outside::Gate;
use std::marker::Send;
use std::sync::Wait;

/// Work on each of some indices, by workers that each own a kit.
pub trait Work {
    /// What one worker owns.
    type Kit: Send + Drop;

    /// What the work on an index gives.
    type Piece: Send + Drop;

    // How many indices there are.
    ghost size: { Self → ℕ };

    // Which pieces an index may give.
    ghost gives: { Self → ℕ → Self.Piece → Type 0 };

    // What the work on an index may make of a kit.
    ghost steps: { Self → Self.Kit → ℕ → Self.Kit → Type 0 };

    /// How many indices there are, from 0 on.
    fn count(&self) -> u32
        ensures { result ≡ size self.now };

    /// The work on one index. It may put and take tickets.
    fn run<R: Wait, G: Gate>(
        &self,
        rt: &R,
        index: u32,
        kit: &mut Self::Kit,
        tickets: &Tickets,
        pass: &mut TicketPass,
        gate: &G,
    ) -> Self::Piece
        requires index { index < size self.now }
        requires pass { pass.old.of ≡ tickets.now }
        ensures piece { gives self.now index result }
        ensures kit { steps self.now kit.old index kit.new }
        ensures pass { pass.new.of ≡ tickets.now };
}
