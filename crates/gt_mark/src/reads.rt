// What marking asks.
ghost use Rattle.std.specs.Prelude.{◌≡◌, ℕ, Bool, List, Option, None, Some, Err, IsTrue, IfOk, OnOk};
ghost use Rattle.gt_disk.specs.declared.file_id.FileId.{FileId};
ghost use Rattle.gt_mark.specs.Reach.{Mentions};
ghost use Rattle.gt_mark.specs.Reading.{HasReadCause};

use crate::ReadError;
use gt_name::{Name, Names, RepoPath};

/// Tells what pairs of a repository and a name mention.
pub trait Reads {
    /// Whether the reader tells what it reads.
    ghost tells: { Bool };

    /// The names that each pair's record mentions; none where none is found.
    ghost mentions: { Self → Mentions };

    /// The pairs whose record isn't where it should stand, each with the file and the place there.
    ghost bad: { Self → List ℕ → List ℕ → Option (FileId × ℕ) };

    /// How often a device has failed.
    ghost fault_count: { Self → ℕ };

    /// The names that the record of a pair mentions; none where no record is found. What the reader tells stays as it is, also
    /// where it fails.
    fn deps(&mut self, path: &RepoPath, name: &Name) -> Result<Names, ReadError>
        ensures mentions { IsTrue tells → mentions self.new ≡ mentions self.old }
        ensures bad { IsTrue tells → bad self.new ≡ bad self.old }
        ensures found { IsTrue tells → IfOk result (λ names. names ≡ mentions self.old path.now name.now) }
        ensures good { IsTrue tells → OnOk result (bad self.old path.now name.now ≡ None) }
        ensures damaged { IsTrue tells → (file : FileId) (at : ℕ) → result ≡ Err (ReadError.Damaged file at) → bad self.old path.now name.now ≡ Some (file, at) }
        ensures cause { HasReadCause (fault_count self.old) (fault_count self.new) result };
}
