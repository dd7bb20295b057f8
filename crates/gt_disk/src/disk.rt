// What the store asks of a disk.
ghost use Rattle.std.specs.Prelude.{◌≡◌, ◌≤◌, ◌<◌, ◌+◌, ℕ, Bool, List, length, IsTrue, IfOk, OnOk, MatchResult, MatchOption, IfSome};
ghost use Rattle.gt_disk.specs.Files.{View, Becomes, Appends, Removes, Synced, Touched, Unchanged, Quiet, HasCause, HasDiskCause, length_of, ReadGives, IsImage, loose, grow, now, IsPast, IsNext};

use crate::{DiskError, Failed, FileId};

/// A disk: files by kind and number, each a sequence of bytes.
///
/// At each moment of the disk's clock each file is in one of three states. Still: a stop leaves it as it is. Grown: a stop
/// leaves what was synced, and behind it any bytes, at most as many as were appended since. Loose, after a write or a removal
/// that no sync has followed: a stop leaves the file absent or with any bytes. A stop acts on each file by itself. A call that
/// failed counts as one that didn't, but for a sync, which then leaves the state.
///
/// Every method but `tick` and `faults` is a call that may fail: `Failed` is answered only where the count of faults rose in
/// this call, or stands at 2^64 - 1 after it. A call that is Ok or gives up for want of memory leaves the count.
pub trait Disk {
    /// Whether the disk tells what reads show and what stops leave. Of files of an operating system nothing is told.
    ghost tells: { Bool };

    /// What a read shows, the clock, and the state of each file at each moment up to now.
    ghost view: { Self → View };

    /// How often a call has failed.
    ghost fault_count: { Self → ℕ };

    /// How many calls were made: a call counts for one at most.
    ghost call_count: { Self → ℕ } = { λ _. 0 };

    /// The disk's clock. It never falls, and each call that changes the disk moves it. That binds a disk that tells nothing too:
    /// a clock that stood still there would let a caller take the one disk for the other.
    fn tick(&self) -> u64
        ensures { result ≡ (view self.now).clock };

    /// The count of faults. It never falls.
    fn faults(&self) -> u64
        ensures { result ≡ fault_count self.now };

    /// The length of a file in bytes, or None where it is absent. After `Failed` nothing has changed.
    fn len(&mut self, file: FileId) -> Result<Option<u64>, Failed>
        ensures length { IsTrue tells → IfOk result (λ n. n ≡ length_of ((view self.old).reads file)) }
        ensures moment { IsTrue tells → Quiet (view self.old) (view self.new) }
        ensures later { (view self.old).clock ≤ (view self.new).clock }
        ensures cause { HasCause (fault_count self.old) (fault_count self.new) result }
        ensures counted { call_count self.new ≤ call_count self.old + 1 };

    /// Copies bytes of a file from this place on to the front of the buffer, as many as there are and it takes, and answers
    /// how many: 0 past the file's end, and for an absent file. After `Failed` nothing on the disk has changed.
    fn read_at(&mut self, file: FileId, at: u64, into: &mut [u8]) -> Result<usize, Failed>
        ensures bound { IfOk result (λ n. n ≤ length into.old) }
        ensures bytes { IsTrue tells → IfOk result (λ n. ReadGives ((view self.old).reads file) at into.old into.new n) }
        ensures moment { IsTrue tells → Quiet (view self.old) (view self.new) }
        ensures later { (view self.old).clock ≤ (view self.new).clock }
        ensures cause { HasCause (fault_count self.old) (fault_count self.new) result }
        ensures counted { call_count self.new ≤ call_count self.old + 1 };

    /// Replaces the whole file, or makes it. After `Failed` it is absent or has any bytes; after `Memory` it is unchanged.
    fn write(&mut self, file: FileId, bytes: &[u8]) -> Result<(), DiskError>
        ensures written { IsTrue tells → OnOk result ((view self.new).reads file ≡ Some bytes.now) }
        ensures moment { IsTrue tells → Touched result (Becomes file loose (view self.old) (view self.new)) (Unchanged (view self.old) (view self.new)) }
        ensures later { (view self.old).clock ≤ (view self.new).clock }
        ensures moves { OnOk result ((view self.old).clock < (view self.new).clock) }
        ensures cause { HasDiskCause (fault_count self.old) (fault_count self.new) result }
        ensures counted { call_count self.new ≤ call_count self.old + 1 };

    /// Adds bytes at the end of a file, and makes it where it is absent. After `Failed` a front part of them may have been
    /// added; after `Memory` the file is unchanged.
    fn append(&mut self, file: FileId, bytes: &[u8]) -> Result<(), DiskError>
        ensures appended { IsTrue tells → Appends bytes.now result ((view self.old).reads file) ((view self.new).reads file) }
        ensures moment { IsTrue tells → Touched result (Becomes file (grow (length bytes.now) (now (view self.old) file)) (view self.old) (view self.new)) (Unchanged (view self.old) (view self.new)) }
        ensures later { (view self.old).clock ≤ (view self.new).clock }
        ensures moves { OnOk result ((view self.old).clock < (view self.new).clock) }
        ensures cause { HasDiskCause (fault_count self.old) (fault_count self.new) result }
        ensures counted { call_count self.new ≤ call_count self.old + 1 };

    /// Makes a file last: after it a stop leaves what a read shows. It is Ok for an absent file. After `Failed` the file's
    /// state is as before.
    fn sync(&mut self, file: FileId) -> Result<(), Failed>
        ensures moment { IsTrue tells → MatchResult result (λ _. Synced file (view self.old) (view self.new)) (λ _. Unchanged (view self.old) (view self.new)) }
        ensures later { (view self.old).clock ≤ (view self.new).clock }
        ensures cause { HasCause (fault_count self.old) (fault_count self.new) result }
        ensures counted { call_count self.new ≤ call_count self.old + 1 };

    /// Removes a file. It is Ok for an absent file, and then nothing changes. After `Failed` the file is there or absent.
    fn remove(&mut self, file: FileId) -> Result<(), Failed>
        ensures removed { IsTrue tells → Removes result ((view self.old).reads file) ((view self.new).reads file) }
        ensures moment { IsTrue tells → MatchOption ((view self.old).reads file) (Unchanged (view self.old) (view self.new)) (λ _. Becomes file loose (view self.old) (view self.new)) }
        ensures later { (view self.old).clock ≤ (view self.new).clock }
        ensures cause { HasCause (fault_count self.old) (fault_count self.new) result }
        ensures counted { call_count self.new ≤ call_count self.old + 1 };

    /// The least file after this one, by kind and then by number, or None where there is none. After None it begins with the
    /// least of all. After `Failed` nothing has changed.
    fn list(&mut self, after: Option<FileId>) -> Result<Option<FileId>, Failed>
        ensures order { IfOk result (λ next. IfSome next (IsPast after)) }
        ensures next { IsTrue tells → IfOk result (λ next. IsNext (view self.old).reads after next) }
        ensures moment { IsTrue tells → Quiet (view self.old) (view self.new) }
        ensures later { (view self.old).clock ≤ (view self.new).clock }
        ensures cause { HasCause (fault_count self.old) (fault_count self.new) result }
        ensures counted { call_count self.new ≤ call_count self.old + 1 };

    /// What a read shows is among what a stop may leave.
    ghost shows: { (disk : Self) → IsTrue tells → IsImage (now (view disk)) (view disk).reads };
}
