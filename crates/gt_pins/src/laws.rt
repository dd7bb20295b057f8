// Laws of the definitions alone. Each is the contract of a function that does nothing.
ghost use Rattle.std.specs.Prelude.{◌≡◌, ◌≢◌, ℕ, List, false};
ghost use Rattle.gt_model.specs.Machine.{Pin, is_live, free_number, released};

/// The number that a transaction gets isn't live.
pub fn free_numbers_are_free()
    ensures { (pins : List Pin) → is_live pins (free_number pins) ≡ false }
{}

/// A transaction that was ended isn't live.
pub fn released_pins_are_gone()
    ensures { (pins : List Pin) (number : ℕ) → is_live (released pins number) number ≡ false }
{}

/// The end of a transaction leaves the others as they were.
pub fn others_stay_live()
    ensures { (pins : List Pin) (number other : ℕ) → number ≢ other → is_live (released pins number) other ≡ is_live pins other }
{}
