// Laws of the definitions alone. Each is the contract of a function that does nothing.
ghost use Rattle.std.specs.Prelude.{◌≡◌, ◌≤◌, ◌+◌, ◌^◌, ℕ, List, Some, None, length};
ghost use Rattle.gt_disk.specs.Files.{Files, States, IsImage, still};
ghost use Rattle.gt_model.specs.declared.limits.Limits.{Limits};
ghost use Rattle.gt_model.specs.Contents.{found};
ghost use Rattle.gt_model.specs.Machine.{opening};
ghost use Rattle.gt_sound.specs.Sound.{IsSoundState};
ghost use Rattle.gt_objset.specs.declared.place.Place.{Place};
ghost use Rattle.gt_places.specs.Reading.{piece, IsRecordOf};
ghost use Rattle.gt_base.specs.Held.{HoldsPacks};
ghost use Rattle.gt_table.specs.Table.{content_at, place_at};
ghost use Rattle.gt_journal.specs.Ledger.{Ledger, HasLog, ground};
ghost use Rattle.gt_journal.specs.Histories.{IsGood};

/// What a stop leaves of a disk that may be handed in may be handed in itself.
pub fn stops_leave_good_disks()
    ensures { (limits : Limits) (states : States) (image : Files) → IsGood limits states → IsImage states image → IsGood limits (λ file. still (image file)) }
{}

/// A disk without files may be handed in.
pub fn empty_disks_are_good()
    ensures { (limits : Limits) → IsGood limits (λ file. still None) }
{}

/// Where no entry is gone, whatever a stop leaves of files that have a sound base and its log holds, at the place of each object that is seen at a
/// position, the record that is found there, which is one of that name.
pub fn placed_records_are_held()
    ensures held { (l : Ledger) (states : States) (image : Files) (position : ℕ) (path name whole : List ℕ) (place : Place) → l.floor ≡ l.past.begin → l.past.begin + 1 + length l.past.log ≤ 2 ^ 64 → HasLog l states → HoldsPacks l.past.repos states → IsSoundState (opening (ground l)) → IsImage states image
        → place_at l.past position path name ≡ Some place → found (content_at l.past position) path name ≡ Some whole → piece (image place.file) place ≡ whole }
    ensures good { (l : Ledger) (states : States) (image : Files) (position : ℕ) (path name whole : List ℕ) (place : Place) → l.floor ≡ l.past.begin → l.past.begin + 1 + length l.past.log ≤ 2 ^ 64 → HasLog l states → HoldsPacks l.past.repos states → IsSoundState (opening (ground l)) → IsImage states image
        → place_at l.past position path name ≡ Some place → found (content_at l.past position) path name ≡ Some whole → IsRecordOf name whole }
{}
