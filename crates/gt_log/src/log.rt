// Entry n is in the log where the gate has at least n bytes.
ghost use Rattle.std.specs.Prelude.{cond, if◌then◌else◌, ◌↔◌, ◌⊎◌, ◌≡◌, ◌≤◌, ◌<◌, ◌+◌, ◌-◌, ◌^◌, ◌++◌, [], ◌∷◌, ℕ, Bool, false, true, List, length, IsTrue, IfOk, OnOk, OnErr, IfErr, IsErrOf, None};
ghost use Rattle.gt_disk.specs.Files.{View, Rose, Quiet, now, still, content, HasCause, HasDiskCause};
ghost use Rattle.gt_disk.specs.Moments.{Since, Narrows, Runs, AnyState, Lasting};
ghost use Rattle.gt_log.specs.Log.{gate_file, entry_file, content_length, Stands, Doubts, Recovers, KeepsEntries, Adding, AddMoment, AfterAdd, AddImages, ImagesAfterAdd, leaves_doubt, AfterSettle, HasLogCause};

use crate::LogError;
use gt_disk::{Disk, DiskError, Failed, GATE, append_synced, entry_file, read_whole, write_synced};
use std::alloc::Global;
use std::marker::Model;

/// A log on a disk that is handed to each call. It knows how many entries are in, and whether one more may be.
#[derive(Drop)]
pub struct Log {
    len: u64,
    in_doubt: bool,
}

impl Model for Log {
    ghost use Rattle.std.specs.Prelude.{◌<◌, ◌-◌, ◌^◌, IsTrue};
    ghost use Rattle.gt_log.specs.State.{LogState};

    ghost Value = { LogState };

    ghost view = { λ l. record { len = l.len; in_doubt = l.in_doubt } };

    ghost invariant = { λ l. IsTrue l.in_doubt → l.len < 2 ^ 64 - 1 };
}

impl Log {
    /// How many entries are in. The entry in doubt isn't counted.
    pub fn len(&self) -> u64
        ensures { result ≡ self.now.len }
    {
        self.len
    }

    /// Whether the entry after the last may be in: `settle` finds out.
    pub fn in_doubt(&self) -> bool
        ensures doubt { result ≡ self.now.in_doubt }
        ensures room { IsTrue self.now.in_doubt → self.now.len < 2 ^ 64 - 1 }
    {
        self.in_doubt
    }

    /// Finds the log of a disk: makes the gate last, and counts its bytes.
    pub fn mount<D: Disk>(disk: &mut D) -> Result<Log, Failed>
        ensures cause { HasCause (D.fault_count disk.old) (D.fault_count disk.new) result }
        ensures counted { D.call_count disk.new ≤ D.call_count disk.old + 2 }
        ensures settled { IfOk result (λ log. log.in_doubt ≡ false) }
        ensures len { IsTrue D.tells → IfOk result (λ log. log.len ≡ content_length ((D.view disk.old).reads gate_file)) }
        ensures gate { IsTrue D.tells → OnOk result (now (D.view disk.new) gate_file ≡ still ((D.view disk.old).reads gate_file)) }
        ensures narrows { IsTrue D.tells → Narrows (D.view disk.old) (D.view disk.new) }
        // At each moment the gate is as it was, or what was read of it lasts, and no other file changes.
        ensures run { IsTrue D.tells → Runs gate_file (Lasting (now (D.view disk.old) gate_file) ((D.view disk.old).reads gate_file)) (D.view disk.old) (D.view disk.new) }
        ensures later { (D.view disk.old).clock ≤ (D.view disk.new).clock }
        ensures reads { IsTrue D.tells → (D.view disk.new).reads ≡ (D.view disk.old).reads }
        ensures stands { IsTrue D.tells → IfOk result (λ log. (first : ℕ) (entries : List (List ℕ)) → Recovers first (D.view disk.old).reads entries → KeepsEntries first entries (now (D.view disk.old))
            → (log.len + 1 ≡ length entries + first) × Stands first entries (now (D.view disk.new))) }
    {
        disk.sync(GATE)?;
        let len = disk.len(GATE)?;
        Ok(Log {
            len: len.unwrap_or(0),
            in_doubt: false,
        })
    }

    /// Adds an entry, and answers its number. The entry is written and synced before a byte is appended to the gate,
    /// and the gate is synced before the answer.
    ///
    /// `Untouched`: a device failed before the append to the gate began, and the entry is out. `Unsure`: a device failed
    /// from then on, the entry is in or out, and the log is in doubt. `Memory`: the entry is out.
    pub fn add<D: Disk>(&mut self, disk: &mut D, bytes: &[u8]) -> Result<u64, LogError>
        requires settled { self.old.in_doubt ≡ false }
        requires room { self.old.len < 2 ^ 64 - 1 }
        ensures ok { IfOk result (λ n. (n ≡ self.old.len + 1) × (self.new.len ≡ n)) }
        ensures err { OnErr result (self.new.len ≡ self.old.len) }
        ensures doubt { self.new.in_doubt ≡ leaves_doubt result }
        ensures cause { HasLogCause (D.fault_count disk.old) (D.fault_count disk.new) result }
        ensures later { (D.view disk.old).clock ≤ (D.view disk.new).clock }
        ensures counted { D.call_count disk.new ≤ D.call_count disk.old + 4 }

        // At each moment of the call the entry is out, in or in doubt, and no other file changes.
        ensures any_moment { IsTrue D.tells → (first : ℕ) (entries : List (List ℕ)) → self.old.len + 1 ≡ length entries + first → Stands first entries (now (D.view disk.old))
            → Since (AddMoment result first entries bytes.now (now (D.view disk.old))) (D.view disk.old) (D.view disk.new) }
        ensures after { IsTrue D.tells → (first : ℕ) (entries : List (List ℕ)) → self.old.len + 1 ≡ length entries + first → Stands first entries (now (D.view disk.old))
            → AfterAdd result first entries bytes.now (now (D.view disk.new)) }

        // So each image of each moment has the old entries, or these and the new one.
        ensures images { IsTrue D.tells → (first : ℕ) (entries : List (List ℕ)) → self.old.len + 1 ≡ length entries + first → Stands first entries (now (D.view disk.old))
            → Since (AddImages result first entries bytes.now) (D.view disk.old) (D.view disk.new) }
        ensures images_after { IsTrue D.tells → (first : ℕ) (entries : List (List ℕ)) → self.old.len + 1 ≡ length entries + first → Stands first entries (now (D.view disk.old))
            → ImagesAfterAdd result first entries bytes.now (now (D.view disk.new)) }
    {
        let number = self.len + 1;
        match write_synced(disk, entry_file(number), bytes) {
            Ok(()) => {}
            Err(DiskError::Failed) => return Err(LogError::Untouched),
            Err(DiskError::Memory) => return Err(LogError::Memory),
        }
        match append_synced(disk, GATE, &[1]) {
            Ok(()) => {
                self.len = number;
                Ok(number)
            }
            Err(DiskError::Failed) => {
                self.in_doubt = true;
                Err(LogError::Unsure)
            }
            Err(DiskError::Memory) => Err(LogError::Memory),
        }
    }

    /// Finds out whether the entry in doubt is in: whether the gate has its byte. It takes no memory.
    /// Where a device fails the doubt stays.
    pub fn settle<D: Disk>(&mut self, disk: &mut D) -> Result<bool, Failed>
        requires { IsTrue self.old.in_doubt }
        ensures err { OnErr result ((self.new.len ≡ self.old.len) × (self.new.in_doubt ≡ true)) }
        ensures ok { OnOk result (self.new.in_doubt ≡ false) }
        ensures gate { IsTrue D.tells → IfOk result (λ is_in. IsTrue is_in ↔ (self.old.len < content_length ((D.view disk.old).reads gate_file))) }
        ensures len { IfOk result (λ is_in. self.new.len ≡ (if is_in then self.old.len + 1 else self.old.len)) }
        ensures cause { HasCause (D.fault_count disk.old) (D.fault_count disk.new) result }
        ensures later { (D.view disk.old).clock ≤ (D.view disk.new).clock }
        ensures counted { D.call_count disk.new ≤ D.call_count disk.old + 2 }
        ensures narrows { IsTrue D.tells → Narrows (D.view disk.old) (D.view disk.new) }
        ensures run { IsTrue D.tells → Runs gate_file (Lasting (now (D.view disk.old) gate_file) ((D.view disk.old).reads gate_file)) (D.view disk.old) (D.view disk.new) }
        ensures any_moment { IsTrue D.tells → (first : ℕ) (entries : List (List ℕ)) (last : List ℕ) → self.old.len + 1 ≡ length entries + first → Doubts first entries last (now (D.view disk.old))
            → Since (Adding first entries last (now (D.view disk.old))) (D.view disk.old) (D.view disk.new) }
        ensures after { IsTrue D.tells → (first : ℕ) (entries : List (List ℕ)) (last : List ℕ) → self.old.len + 1 ≡ length entries + first → Doubts first entries last (now (D.view disk.old))
            → AfterSettle result first entries last self.new.len (now (D.view disk.new)) }
    {
        disk.sync(GATE)?; // The byte lasts before it counts.
        let len = disk.len(GATE)?;
        let is_in = len.unwrap_or(0) > self.len;
        if is_in {
            self.len += 1;
        }
        self.in_doubt = false;
        Ok(is_in)
    }

    /// The whole of an entry's file, whether or not the entry is in. None exactly where the file is absent.
    /// A file that doesn't fit memory is want of memory.
    pub fn read<D: Disk>(
        &self,
        alloc: Global,
        disk: &mut D,
        n: u64,
    ) -> Result<Option<Vec<u8>>, DiskError>
        ensures bytes { IsTrue D.tells → IfOk result (λ bytes. content bytes ≡ (D.view disk.old).reads (entry_file n)) }
        ensures quiet { IsTrue D.tells → Quiet (D.view disk.old) (D.view disk.new) }
        ensures later { (D.view disk.old).clock ≤ (D.view disk.new).clock }
        ensures cause { HasDiskCause (D.fault_count disk.old) (D.fault_count disk.new) result }
        ensures counted { D.call_count disk.new ≤ D.call_count disk.old + 2 }
    {
        read_whole(alloc, disk, entry_file(n))
    }

    /// Removes the file of an entry for good: after `Ok` no stop leaves it. It takes no memory.
    /// The log stays as it is, so of an entry that is in it, only the files of a later checkpoint can stand for it.
    pub fn drop_entry<D: Disk>(&mut self, disk: &mut D, n: u64) -> Result<(), Failed>
        ensures same { self.new ≡ self.old }
        ensures gone { IsTrue D.tells → OnOk result (now (D.view disk.new) (entry_file n) ≡ still None) }
        ensures reads { IsTrue D.tells → OnOk result ((D.view disk.new).reads (entry_file n) ≡ None) }
        // At each moment no other file changes.
        ensures run { IsTrue D.tells → Runs (entry_file n) AnyState (D.view disk.old) (D.view disk.new) }
        ensures later { (D.view disk.old).clock ≤ (D.view disk.new).clock }
        ensures cause { HasCause (D.fault_count disk.old) (D.fault_count disk.new) result }
        ensures counted { D.call_count disk.new ≤ D.call_count disk.old + 2 }
        // Below the first entry, and past the last and the one in doubt, it changes nothing of the log.
        ensures any_moment { IsTrue D.tells → (first : ℕ) (entries : List (List ℕ)) → (n < first) ⊎ (length entries + first ≤ n) → Stands first entries (now (D.view disk.old))
            → Since (Stands first entries) (D.view disk.old) (D.view disk.new) }
        ensures after { IsTrue D.tells → (first : ℕ) (entries : List (List ℕ)) → (n < first) ⊎ (length entries + first ≤ n) → Stands first entries (now (D.view disk.old))
            → Stands first entries (now (D.view disk.new)) }
    {
        disk.remove(entry_file(n))?;
        disk.sync(entry_file(n))
    }
}
