// Laws of the definitions alone. Each is the contract of a function that does nothing.
ghost use Rattle.std.specs.Prelude.{◌≡◌, ◌+◌, ℕ, List, Option, Some};
ghost use Rattle.std.specs.List.{All};
ghost use Rattle.gt_model.specs.declared.entry.Entry.{Entry};
ghost use Rattle.gt_model.specs.Contents.{Content, at, own, found, IsLegal};
ghost use Rattle.gt_entry.specs.Fits.{IsEntry};
ghost use Rattle.gt_objset.specs.declared.place.Place.{Place};
ghost use Rattle.gt_objset.specs.Agree.{ArePlaced};
ghost use Rattle.gt_objset.specs.Places.{head_in, seen, places_at};
ghost use Rattle.gt_places.specs.Standing.{StandsIn};

/// In a legal log past a base, whose entries have their types, the record of each own object stands where the object is
/// placed: in an entry, with its length there, and then it is a good record; or where the base has it.
pub fn records_stand_where_they_are_placed()
    ensures { (begin : ℕ) (base : Content) (based : List ℕ → List ℕ → Option Place) (log : List Entry) (position : ℕ) (path name whole : List ℕ) (place : Place) → ArePlaced base based → IsLegal base (begin + 1) log → All IsEntry log
        → own (at begin base log position) path name ≡ Some whole → places_at begin base based log position path name ≡ Some place → StandsIn begin base based log place whole }
{}

/// The same of what is seen in a repository: its own objects first, and then its pool's.
pub fn seen_records_stand_where_they_are_placed()
    ensures { (begin : ℕ) (base : Content) (based : List ℕ → List ℕ → Option Place) (log : List Entry) (position : ℕ) (path name whole : List ℕ) (place : Place) → ArePlaced base based → IsLegal base (begin + 1) log → All IsEntry log
        → found (at begin base log position) path name ≡ Some whole → seen (head_in (at begin base log position) path) (places_at begin base based log position) path name ≡ Some place → StandsIn begin base based log place whole }
{}
