ghost use Rattle.std.specs.Prelude.{ℕ, List};
ghost use Rattle.gt_objset.specs.declared.place.Place.{Place};

/// What is said of a record that stands elsewhere than in the file of an entry of the log. A clause can't speak of all
/// relations of a record and a place, so the laws speak of each that a value of such a type says.
pub trait Holding {
    /// This is said of the record with these bytes, and the place.
    ghost holds: { Self → List ℕ → Place → Type 0 };
}
