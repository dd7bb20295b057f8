//! What a caller's proof may want to know of versions. Each call does nothing.
ghost use Rattle.std.specs.Prelude.{◌≡◌, ◌<◌, ◌≤◌, ℕ, List, None, Some};
ghost use Rattle.gt_versions.specs.Versions.{last_at, put_at};

/// A version counts from its position on, and leaves each earlier position as it was.
pub fn later_versions_leave_earlier_positions<V>()
    ensures later { (q p : ℕ) (v : V) (es : List (ℕ × V)) → q ≤ p → last_at (put_at q v es) p None ≡ Some (q, v) }
    ensures earlier { (q p : ℕ) (v : V) (es : List (ℕ × V)) → p < q → last_at (put_at q v es) p None ≡ last_at es p None }
{}
