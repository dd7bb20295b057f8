// Laws of the definitions alone. Each is the contract of a function that does nothing.
ghost use Rattle.std.specs.Prelude.{◌≡◌, ◌≢◌, ◌+◌, ◌-◌, ◌≤◌, ℕ, List, [], ◌∷◌, ◌++◌, take, drop, length, Option, Some, All};
ghost use Rattle.gt_base.specs.Built.{IsBuilt};
ghost use Rattle.gt_disk.specs.Files.{States};
ghost use Rattle.gt_disk.specs.Kinds.{entry_file};
ghost use Rattle.gt_entry.specs.Fits.{IsEntry};
ghost use Rattle.gt_model.specs.declared.entry.Entry.{Entry};
ghost use Rattle.gt_model.specs.Contents.{Content, IsLegal};
ghost use Rattle.gt_moves.specs.Moves.{planned_moves};
ghost use Rattle.gt_moves.specs.Standing.{IsStillAt, StandsMoved};
ghost use Rattle.gt_moves.specs.declared.moved.Move.{Move};
ghost use Rattle.gt_objset.specs.declared.place.Place.{Place};
ghost use Rattle.gt_objset.specs.Agree.{Agrees, ArePlacedBy};
ghost use Rattle.gt_objset.specs.Moved.{Repoints};
ghost use Rattle.gt_objset.specs.Raised.{Raises};
ghost use Rattle.gt_objset.specs.Table.{Table, own_at, Adds};
ghost use Rattle.gt_standing.specs.Following.{Follows};
ghost use Rattle.gt_standing.specs.Standing.{AreHeld, BaseHeld, IsMoveHeld};
ghost use Rattle.gt_standing.specs.Moved.{AreMovedTo, RepointsAll};

use crate::Holding;

/// A table that is a base alone has its records where the base has them, and none in an entry's file where the base has none
/// there.
pub fn first_tables_are_held<H: Holding>()
    ensures held { (h : H) (begin : ℕ) (base : Content) (places : List ℕ → List ℕ → Option Place) (t : Table) → t.floor ≡ begin → t.front ≡ begin → ArePlacedBy t base places []
        → BaseHeld (H.holds h) base places → AreHeld (H.holds h) begin base [] t }
    ensures moved { (begin : ℕ) (base : Content) (places : List ℕ → List ℕ → Option Place) (t : Table) → t.floor ≡ begin → t.front ≡ begin → ArePlacedBy t base places []
        → ((path x : List ℕ) (place : Place) → places path x ≡ Some place → place.file.kind ≢ 4) → AreMovedTo begin begin [] t }
    ensures follows { (begin : ℕ) (base : Content) (t : Table) → t.floor ≡ begin → t.front ≡ begin → Agrees t base [] → Follows begin base [] t }
{}

/// One more legal entry has its records in its own file; the others stand as before.
pub fn added_entries_are_held<H: Holding>()
    ensures held { (h : H) (begin : ℕ) (base : Content) (log : List Entry) (e : Entry) (old new : Table) → Follows begin base log old → IsLegal base (begin + 1) (log ++ e ∷ []) → All IsEntry (log ++ e ∷ []) → Adds e old new
        → AreHeld (H.holds h) begin base log old → AreHeld (H.holds h) begin base (log ++ e ∷ []) new }
    ensures moved { (begin to : ℕ) (base : Content) (log : List Entry) (e : Entry) (old new : Table) → Follows begin base log old → IsLegal base (begin + 1) (log ++ e ∷ []) → IsBuilt e → Adds e old new
        → to ≤ old.front → AreMovedTo to begin log old → AreMovedTo to begin (log ++ e ∷ []) new }
    ensures follows { (begin : ℕ) (base : Content) (log : List Entry) (e : Entry) (old new : Table) → Follows begin base log old → Adds e old new → Follows begin base (log ++ e ∷ []) new }
{}

/// One more move behind others makes them one longer.
pub fn moves_follow_each_other()
    ensures { (ms : List Move) (m : Move) (old mid new : Table) → RepointsAll ms old mid → Repoints m.position m.path m.name m.place mid new → RepointsAll (ms ++ m ∷ []) old new }
{}

/// Once each record of the next entries of a log is moved, no own object's record stands in their files any more. The table
/// agrees with the same log, and its records stand as before or where they were moved to.
pub fn moved_tables_are_held<H: Holding>()
    ensures agree { (base : Content) (log : List Entry) (ms : List Move) (old new : Table) → Agrees old base log → RepointsAll ms old new → Agrees new base log }
    ensures moved { (begin to n next : ℕ) (base : Content) (log entries : List Entry) (old new : Table) → Follows begin base log old → IsLegal base (begin + 1) log → All IsBuilt log → old.floor ≤ to
        → entries ≡ take n (drop (to - begin) log) → RepointsAll (planned_moves next entries) old new → AreMovedTo to begin log old → AreMovedTo (to + length entries) begin log new }
    ensures held { (h : H) (begin to n next : ℕ) (base : Content) (log entries : List Entry) (old new : Table) → Follows begin base log old → IsLegal base (begin + 1) log → All IsBuilt log → old.floor ≤ to
        → entries ≡ take n (drop (to - begin) log) → RepointsAll (planned_moves next entries) old new → All (IsMoveHeld (H.holds h) begin log) (planned_moves next entries)
        → AreHeld (H.holds h) begin base log old → AreHeld (H.holds h) begin base log new }
    ensures stood { (h : H) (begin to n next : ℕ) (log entries : List Entry) (states : States) → begin ≤ to → entries ≡ take n (drop (to - begin) log) → ((whole : List ℕ) (place : Place) → IsStillAt states place whole → H.holds h whole place)
        → All (StandsMoved to entries states) (planned_moves next entries) → All (IsMoveHeld (H.holds h) begin log) (planned_moves next entries) }
    ensures follows { (begin : ℕ) (base : Content) (log : List Entry) (ms : List Move) (old new : Table) → Follows begin base log old → RepointsAll ms old new → Follows begin base log new }
{}

/// Where the floor rises, the records of the positions that stay stand as before.
pub fn raised_tables_are_held<H: Holding>()
    ensures held { (h : H) (begin to : ℕ) (base : Content) (log : List Entry) (old new : Table) → old.floor ≤ to → Raises to old new → AreHeld (H.holds h) begin base log old → AreHeld (H.holds h) begin base log new }
    ensures moved { (begin moved to : ℕ) (log : List Entry) (old new : Table) → old.floor ≤ to → Raises to old new → AreMovedTo moved begin log old → AreMovedTo moved begin log new }
    ensures follows { (begin to : ℕ) (base : Content) (log : List Entry) (old new : Table) → Follows begin base log old → old.floor ≤ to → to ≤ old.front → Raises to old new → Follows begin base log new }
{}

/// Where records are moved up to a position, no own object's record stands in the file of an entry up to it.
pub fn moved_records_leave_their_entries()
    ensures { (to begin : ℕ) (log : List Entry) (t : Table) (p n : ℕ) (path x : List ℕ) (place : Place) → AreMovedTo to begin log t → t.floor ≤ p → p ≤ t.front → n ≤ to
        → own_at t p path x ≡ Some place → place.file ≢ entry_file n }
{}
