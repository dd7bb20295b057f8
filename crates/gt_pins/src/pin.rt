ghost use Rattle.std.specs.Prelude.{◌≡◌};

use std::marker::Model;

/// The leave of a live transaction. Only `Live` makes one; contracts see its number.
#[derive(Drop)]
pub struct Pin {
    pub(crate) number: u8,
}

impl Model for Pin {
    ghost use Rattle.std.specs.Prelude.{ℕ};

    ghost Value = { ℕ };

    ghost view = { λ p. p.number };
}

impl Pin {
    pub fn number(&self) -> u8
        ensures { result ≡ self.now }
    {
        self.number
    }
}
