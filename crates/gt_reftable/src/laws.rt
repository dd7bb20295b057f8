//! What ties a table to the content of its log. Each call does nothing.
ghost use Rattle.std.specs.Prelude.{◌≡◌, ◌≤◌, ◌-◌, ℕ, List, [], ◌++◌, ◌∷◌, drop, IsTrue};
ghost use Rattle.std.specs.FinMap as map;
ghost use Rattle.gt_model.specs.Contents.{Content, value, after_all, at, fits};
ghost use Rattle.gt_model.specs.Verdicts.{refs_in};
ghost use Rattle.gt_model.specs.Histories.{all_refs};
ghost use Rattle.gt_model.specs.declared.entry.Entry.{Entry};
ghost use Rattle.gt_reftable.specs.Table.{Table, refs_at, all_at, Adds, IsSameTable};
ghost use Rattle.gt_reftable.specs.Agree.{Agrees};
ghost use Rattle.gt_reftable.specs.Raised.{Raises};

/// A table that has the references of a content, and no entry yet, agrees with it.
pub fn empty_tables_agree()
    ensures { (t : Table) (base : Content) → t.front ≡ t.floor → ((path : List ℕ) → refs_at t t.floor path ≡ refs_in base path) → Agrees t base [] }
{}

/// A table that agrees with its log does so after one more entry, where that fits.
pub fn tables_follow_their_log()
    ensures { (old new : Table) (base : Content) (log : List Entry) (entry : Entry) → Agrees old base log → IsTrue (fits (after_all base log) entry) → Adds entry old new
        → Agrees new base (log ++ entry ∷ []) }
{}

/// Memory that was taken changes nothing of that.
pub fn same_tables_agree()
    ensures { (old new : Table) (base : Content) (log : List Entry) → Agrees old base log → IsSameTable old new → Agrees new base log }
{}

/// A table whose floor was raised agrees with the rest of its log, over the content at the new floor.
pub fn raised_tables_agree()
    ensures { (old new : Table) (base : Content) (log : List Entry) (to : ℕ) → Agrees old base log → old.floor ≤ to → to ≤ old.front → Raises to old new
        → Agrees new (at old.floor base log to) (drop (to - old.floor) log) }
{}

/// What a reference names is what the references of its repository have at it.
pub fn references_are_values()
    ensures { (c : Content) (path name : List ℕ) → map.get (refs_in c path) name ≡ value c path name }
{}

/// All references of a table that agrees with its log, listed at the front, are those of the content there.
pub fn lists_are_of_contents()
    ensures { (t : Table) (base : Content) (log : List Entry) → Agrees t base log → all_at t t.front ≡ all_refs (after_all base log) }
{}
