//! What a caller's proof may want to know of tables and contents. Each call does nothing.
ghost use Rattle.std.specs.Prelude.{◌≡◌, ◌-◌, ◌≤◌, drop, ◌++◌, ◌∷◌, ℕ, List, [], Option, is_some};
ghost use Rattle.gt_model.specs.declared.entry.Entry.{Entry};
ghost use Rattle.gt_model.specs.Contents.{Content, at, own};
ghost use Rattle.gt_objset.specs.declared.place.Place.{Place};
ghost use Rattle.gt_objset.specs.Places.{head_in, places_at};
ghost use Rattle.gt_objset.specs.Table.{Table, head_at, own_at, Adds};
ghost use Rattle.gt_objset.specs.Agree.{Agrees, ArePlaced, ArePlacedBy};
ghost use Rattle.gt_objset.specs.Moved.{Repoints};
ghost use Rattle.gt_objset.specs.Raised.{Raises};

/// A table that agrees with the content of its log does so after one more entry, and so do the places of its objects.
pub fn tables_follow_their_logs()
    ensures agree { (old new : Table) (base : Content) (log : List Entry) (entry : Entry)
        → Agrees old base log → Adds entry old new → Agrees new base (log ++ entry ∷ []) }
    ensures placed { (old new : Table) (base : Content) (places : List ℕ → List ℕ → Option Place) (log : List Entry) (entry : Entry)
        → Agrees old base log → ArePlacedBy old base places log → Adds entry old new → ArePlacedBy new base places (log ++ entry ∷ []) }
{}

/// At each position the own objects of the content, and nothing else, have a place.
pub fn own_objects_have_places()
    ensures { (begin : ℕ) (base : Content) (places : List ℕ → List ℕ → Option Place) (log : List Entry) (position : ℕ)
        → ArePlaced base places → ArePlaced (at begin base log position) (places_at begin base places log position) }
{}

/// A table whose floor was seeded with the repositories of a content and the places of their own objects agrees with it.
pub fn seeded_tables_agree()
    ensures agree { (t : Table) (base : Content) (places : List ℕ → List ℕ → Option Place) → t.front ≡ t.floor → ArePlaced base places
        → ((path : List ℕ) → head_at t t.floor path ≡ head_in base path) → ((path x : List ℕ) → own_at t t.floor path x ≡ places path x) → Agrees t base [] }
    ensures placed { (t : Table) (base : Content) (places : List ℕ → List ℕ → Option Place) → t.front ≡ t.floor → ArePlaced base places
        → ((path : List ℕ) → head_at t t.floor path ≡ head_in base path) → ((path x : List ℕ) → own_at t t.floor path x ≡ places path x) → ArePlacedBy t base places [] }
{}

/// A table that agrees with the content of its log does so where a record of it stands elsewhere.
pub fn repointed_tables_agree()
    ensures { (old new : Table) (base : Content) (log : List Entry) (position : ℕ) (path x : List ℕ) (place : Place)
        → Agrees old base log → Repoints position path x place old new → Agrees new base log }
{}

/// A table that agrees with the content of its log does so from a raised floor on, with the content there and the rest of
/// the log.
pub fn raised_tables_agree()
    ensures { (old new : Table) (base : Content) (log : List Entry) (to : ℕ)
        → Agrees old base log → old.floor ≤ to → to ≤ old.front → Raises to old new → Agrees new (at old.floor base log to) (drop (to - old.floor) log) }
{}
