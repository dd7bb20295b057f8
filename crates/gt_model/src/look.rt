ghost use Rattle.std.specs.Prelude.{◌≡◌};
ghost use Rattle.std.specs.Option.{option_copied};
ghost use Rattle.gt_model.specs.Contents.{Content, has_repo, value, is_visible};
ghost use Rattle.gt_model.specs.Verdicts.{clash};

use gt_name::{Name, Names2, RefName, RepoPath};

/// What the checks of a commit ask of a content.
pub trait Look {
    ghost content: { Self → Content };

    /// Whether the content has the path.
    fn has_repo(&self, path: &RepoPath) -> bool
        ensures { result ≡ has_repo (content self.now) path.now };

    /// What a reference names. None where it isn't there.
    fn value(&self, path: &RepoPath, name: &RefName) -> Option<Name>
        ensures { result ≡ value (content self.now) path.now name.now };

    /// Whether an object is the repository's own or its pool's.
    fn visible(&self, path: &RepoPath, name: &Name) -> bool
        ensures { result ≡ is_visible (content self.now) path.now name.now };

    /// The least reference that stands in the folder of `name`, or in whose folder `name` stands, and that isn't gone.
    fn clash(&self, path: &RepoPath, name: &RefName, gone: &Names2) -> Option<&RefName>
        ensures { option_copied result ≡ clash (content self.now) path.now name.now gone.now };
}
