// Laws of the definitions alone. Each is the contract of a function that does nothing.
ghost use Rattle.std.specs.Prelude.{◌≡◌, List, length};
ghost use Rattle.gt_mark.specs.Reach.{Pair, Mentions};
ghost use Rattle.gt_mark.specs.Marking.{Found, IsUnderway, IsOnce, IsLeast};

/// Where all that was found was looked up, what was found is the least set that has the roots and what its members mention.
pub fn marks_end_with_the_least_set()
    ensures { (roots : List Pair) (mentions : Mentions) (f : Found) → IsUnderway roots mentions f → IsOnce f.pairs → f.looked ≡ length f.pairs → IsLeast roots mentions f.pairs }
{}
