// Laws of the definitions alone. Each is the contract of a function that does nothing.
ghost use Rattle.std.specs.Prelude.{◌+◌, ℕ, List, All, Any};
ghost use Rattle.gt_applied.specs.Applied.{HaveSpellings};
ghost use Rattle.gt_apply.specs.Plan.{added_by, planned_files};
ghost use Rattle.gt_base.specs.Built.{IsBuilt};
ghost use Rattle.gt_checkpoint.specs.Advancing.{AreKept};
ghost use Rattle.gt_disk.specs.Files.{States};
ghost use Rattle.gt_entry.specs.Fits.{IsEntry};
ghost use Rattle.gt_model.specs.Contents.{Content, IsLegal};
ghost use Rattle.gt_model.specs.declared.entry.Entry.{Entry};
ghost use Rattle.gt_moves.specs.Moves.{planned_moves};
ghost use Rattle.gt_moves.specs.Standing.{IsCarried, StandsMoved};
ghost use Rattle.gt_moves.specs.Within.{IsWithin, IsMoveOf};

/// Over entries that come next, each move is of one of them, and to a pack among the files that an application of them adds.
pub fn moves_are_within()
    ensures { (begin next : ℕ) (c : Content) (entries : List Entry) → IsLegal c (begin + 1) entries → All (IsWithin begin next entries) (planned_moves next entries) }
{}

/// Each record that an entry adds has a move.
pub fn every_added_record_moves()
    ensures { (next : ℕ) (entries : List Entry) → All (λ e. All (λ a. Any (IsMoveOf e a) (planned_moves next entries)) (added_by e.change)) entries }
{}

/// Over entries that come next, each move has the record that its entry added.
pub fn moves_have_their_records()
    ensures { (begin next : ℕ) (c : Content) (entries : List Entry) → IsLegal c (begin + 1) entries → All (IsCarried begin entries) (planned_moves next entries) }
{}

/// Where entries of kinds that are built come next, and the files that an application of them adds last as they are spelled,
/// each moved record stands where it is moved to.
pub fn moved_records_stand()
    ensures { (begin next : ℕ) (c : Content) (entries : List Entry) (states : States) → IsLegal c (begin + 1) entries → All IsEntry entries → All IsBuilt entries
        → HaveSpellings (planned_files next entries) → AreKept (planned_files next entries) states → All (StandsMoved begin entries states) (planned_moves next entries) }
{}
