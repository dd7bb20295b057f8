ghost use Rattle.std.specs.Prelude.{ℕ};

use gt_pins::Pin;

/// A pass of a live transaction, which stands for it by a number.
pub trait Numbered: Drop {
    /// The number of a pass. No two live passes of a partition have the same.
    ghost number: { Self → ℕ };
}

impl Numbered for Pin {
    ghost number = { λ pin. pin };
}
