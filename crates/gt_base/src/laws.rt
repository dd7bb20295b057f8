// Laws of the definitions alone. Each is the contract of a function that does nothing.
ghost use Rattle.std.specs.Prelude.{◌≡◌, ℕ, List, Some};
ghost use Rattle.gt_disk.specs.declared.file_id.FileId.{FileId};
ghost use Rattle.gt_disk.specs.Files.{Files, States, View, now};
ghost use Rattle.gt_disk.specs.Moments.{Since};
ghost use Rattle.gt_model.specs.Contents.{own};
ghost use Rattle.gt_model.specs.declared.limits.Limits.{Limits};
ghost use Rattle.gt_reading.specs.Frames.{Agree, AnswersAs, Unasked, Touches};
ghost use Rattle.gt_objset.specs.Agree.{ArePlaced};
ghost use Rattle.gt_objset.specs.declared.place.Place.{Place};
ghost use Rattle.gt_base.specs.declared.held.BaseRepo.{BaseRepo};
ghost use Rattle.gt_base.specs.Held.{content_of, places_of, HoldsPacks, StandsStill};
ghost use Rattle.gt_base.specs.Recovery.{recovery, recover, files_by};

/// Files recover to the same, by the same files, where they agree on the files that some of them recover by.
pub fn recovery_goes_by_these_files()
    ensures { (limits : Limits) (a b : Files) → Agree a b (files_by limits a) → (recover limits b ≡ recover limits a) × (files_by limits b ≡ files_by limits a) }
{}

/// A device call on a file by which nothing that a stop may leave recovers changes at none of its moments what that recovers to,
/// and by which files.
pub fn calls_elsewhere_leave_recovery()
    ensures { (limits : Limits) (file : FileId) (v w : View) → Touches file v w → Unasked (recovery limits) (now v) file → Since (AnswersAs (recovery limits) (now v)) v w }
{}

/// Each name that a base has is placed, and no other.
pub fn names_of_a_base_are_placed()
    ensures { (repos : List BaseRepo) → ArePlaced (content_of repos) (places_of repos) }
{}

/// While the packs of a base are as they were read, the record that it has under a name is a good one, and stands at its
/// place in one of them.
pub fn records_of_a_base_stand_in_its_packs()
    ensures { (states : States) (repos : List BaseRepo) (path name whole : List ℕ) (place : Place) → HoldsPacks repos states → own (content_of repos) path name ≡ Some whole → places_of repos path name ≡ Some place → StandsStill states place whole }
{}
