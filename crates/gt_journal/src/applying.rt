// The application of a log's entries: they go into files of their own, which a manifest names.
ghost use Rattle.std.specs.Prelude.{◌≡◌, ◌<◌, ◌≤◌, ◌+◌, ◌-◌, ◌^◌, ◌||◌, ◌↔◌, nat_le, length, List, true, false, IsTrue, OnOk, OnErr, is_some, None, drop, take};
ghost use Rattle.gt_apply.specs.Plan.{planned_files};
ghost use Rattle.gt_checkpoint.specs.Advancing.{calls_of};
ghost use Rattle.gt_disk.specs.Files as files;
ghost use Rattle.gt_disk.specs.Files.{now};
ghost use Rattle.gt_model.specs.Machine.{Pin, SettledTurn};
ghost use Rattle.gt_model.specs.declared.limits.Limits.{Limits as Most};
ghost use Rattle.gt_journal.specs.Applying.{AppliesTo, HasApplyCause, next_entries};
ghost use Rattle.gt_journal.specs.Histories.{Goes, GoesSettling};
ghost use Rattle.gt_journal.specs.Ledger.{Stored, Remembers, front_of, state_of};

use crate::{ApplyError, Journal};
use gt_applied::{built_entries_keep_good_pools, few_entries_add_few_files};
use gt_apply::plans_fit;
use gt_base::SwitchError;
use gt_checkpoint::advance;
use gt_disk::{Disk, Failed};
use gt_model::{Entry, Limits};
use std::alloc::Global;

/// No file number from this one on is given out.
const NO_NUMBER: u64 = 9_223_372_036_854_775_808;

/// The entries behind the first so many, as many as this at most.
fn some_behind(entries: &[Entry], first: u64, n: u32) -> &[Entry]
    ensures { result.now ≡ take n (drop first entries.now) }
{
    let first = entries.len().min(first as usize);
    let (_, rest) = entries.split_at(first);
    let (some, _) = rest.split_at(rest.len().min(n as usize));
    some
}

impl Journal {
    /// Finds out whether the manifest in doubt counts. It takes no memory. Where nothing is in doubt the disk isn't asked.
    pub fn settle_turn<D: Disk>(&mut self, disk: &mut D) -> Result<(), Failed>
        // For whatever is live, the machine's application in doubt is settled.
        ensures settles { OnOk result ((pins : List Pin) → SettledTurn true (state_of self.old pins) (state_of self.new pins)) }
        ensures in_doubt { OnErr result (IsTrue (is_some self.old.base.doubt)) }
        ensures settled { OnOk result (self.new.base.doubt ≡ None) }
        ensures past { self.new.past ≡ self.old.past }
        ensures floor { self.new.floor ≡ self.old.floor }
        ensures doubt { self.new.doubt ≡ self.old.doubt }
        ensures same { OnErr result (self.new ≡ self.old) }
        ensures idle { self.old.base.doubt ≡ None → disk.new ≡ disk.old }
        ensures cause { files.HasCause (D.fault_count disk.old) (D.fault_count disk.new) result }
        ensures later { (D.view disk.old).clock ≤ (D.view disk.new).clock }
        ensures counted { D.call_count disk.new ≤ D.call_count disk.old + 2 }
        ensures goes { IsTrue D.tells → (limits : Most) (before after : List Pin) → Remembers self.old (now (D.view disk.old)) → GoesSettling limits (state_of self.old before) (state_of self.new after) (D.view disk.old) (D.view disk.new) }
        ensures remembers { IsTrue D.tells → Remembers self.old (now (D.view disk.old)) → Remembers self.new (now (D.view disk.new)) }
    {
        if !self.base.in_doubt() {
            return Ok(());
        }
        let _counts = self.base.settle(disk)?;
        Ok(())
    }

    /// Up to which position entries are applied.
    fn applied(&self) -> u64
        ensures { result ≡ self.now.base.manifest.applied }
    {
        self.base.manifest().applied
    }

    /// Whether entries are left to apply, of at most so many.
    fn has_left(&self, n: u32) -> bool
        ensures { IsTrue result ↔ (1 ≤ length (next_entries self.now n)) }
    {
        let floor = self.table.floor();
        !some_behind(
            self.table.entries(),
            self.base.manifest().applied - floor,
            n,
        )
        .is_empty()
    }

    /// Whether the epoch is at its limit, or no file number is left.
    fn is_full(&self, limits: &Limits) -> bool
        ensures full { result ≡ (nat_le limits.now.epochs self.now.base.manifest.epoch || nat_le 9223372036854775808 self.now.next) }
        ensures last { result ≡ false → self.now.base.manifest.epoch < 2 ^ 64 - 1 }
    {
        limits.epochs <= self.base.manifest().epoch || NO_NUMBER <= self.next
    }

    /// Applies the next entries, at most as many as this, where nothing is in doubt, and gives the new applied position, or the
    /// old one where none is left: each new file is written and synced, then the manifest, and then a byte is appended to
    /// turn. `EpochFull` comes exactly where something is to apply and the epoch is at its limit or no file number is left.
    /// After `Failed` the manifest may be in doubt.
    pub fn apply<D: Disk>(
        &mut self,
        alloc: Global,
        limits: &Limits,
        disk: &mut D,
        n: u32,
    ) -> Result<u64, ApplyError>
        requires settled { self.old.doubt ≡ None }
        requires flat { self.old.base.doubt ≡ None }
        requires most { n ≤ 16 }
        ensures applies { (pins : List Pin) → AppliesTo limits.now (state_of self.old pins) n result (state_of self.new pins) }
        ensures past { self.new.past ≡ self.old.past }
        ensures floor { self.new.floor ≡ self.old.floor }
        ensures doubt { self.new.doubt ≡ None }
        ensures cause { HasApplyCause (D.fault_count disk.old) (D.fault_count disk.new) result }
        ensures later { (D.view disk.old).clock ≤ (D.view disk.new).clock }
        ensures counted { D.call_count disk.new ≤ D.call_count disk.old + (calls_of (planned_files self.old.next (next_entries self.old n)) + 4) }
        ensures goes { IsTrue D.tells → (before after : List Pin) → Remembers self.old (now (D.view disk.old)) → Goes limits.now (state_of self.old before) (state_of self.new after) (D.view disk.old) (D.view disk.new) }
        ensures remembers { IsTrue D.tells → (pins : List Pin) → Stored limits.now (state_of self.old pins) (now (D.view disk.old)) → Remembers self.old (now (D.view disk.old)) → Remembers self.new (now (D.view disk.new)) }
    {
        let front = self.table().front();
        if !self.has_left(n) {
            return Ok(self.applied());
        }
        if self.is_full(limits) {
            return Err(ApplyError::EpochFull);
        }
        self.apply_some(alloc, limits, disk, n, front)
    }

    /// Applies some entries, where a manifest and numbers are left. The limits and the front are there for the contract.
    fn apply_some<D: Disk>(
        &mut self,
        alloc: Global,
        limits: &Limits,
        disk: &mut D,
        n: u32,
        front: u64,
    ) -> Result<u64, ApplyError>
        requires settled { self.old.doubt ≡ None }
        requires flat { self.old.base.doubt ≡ None }
        requires most { n ≤ 16 }
        requires some { 1 ≤ length (next_entries self.old n) }
        requires epochs { self.old.base.manifest.epoch < limits.now.epochs }
        requires last { self.old.base.manifest.epoch < 2 ^ 64 - 1 }
        requires numbers { self.old.next < 2 ^ 63 }
        requires front { front ≡ front_of self.old }
        ensures applies { (pins : List Pin) → AppliesTo limits.now (state_of self.old pins) n result (state_of self.new pins) }
        ensures past { self.new.past ≡ self.old.past }
        ensures floor { self.new.floor ≡ self.old.floor }
        ensures doubt { self.new.doubt ≡ None }
        ensures cause { HasApplyCause (D.fault_count disk.old) (D.fault_count disk.new) result }
        ensures later { (D.view disk.old).clock ≤ (D.view disk.new).clock }
        ensures counted { D.call_count disk.new ≤ D.call_count disk.old + (calls_of (planned_files self.old.next (next_entries self.old n)) + 4) }
        ensures goes { IsTrue D.tells → (before after : List Pin) → Remembers self.old (now (D.view disk.old)) → Goes limits.now (state_of self.old before) (state_of self.new after) (D.view disk.old) (D.view disk.new) }
        ensures remembers { IsTrue D.tells → (pins : List Pin) → Stored limits.now (state_of self.old pins) (now (D.view disk.old)) → Remembers self.old (now (D.view disk.old)) → Remembers self.new (now (D.view disk.new)) }
    {
        // laws, which do nothing
        built_entries_keep_good_pools();
        few_entries_add_few_files();
        plans_fit();
        let floor = self.table.floor();
        let entries = some_behind(
            self.table.entries(),
            self.base.manifest().applied - floor,
            n,
        );
        match advance(alloc, disk, &mut self.base, self.next, entries) {
            Ok(()) => {
                self.next = self.base.next();
                Ok(self.base.manifest().applied)
            }
            Err(SwitchError::Unsure) => {
                self.next = self.base.next();
                Err(ApplyError::Failed)
            }
            Err(SwitchError::Untouched) => Err(ApplyError::Failed),
            Err(SwitchError::Memory) => Err(ApplyError::Memory),
        }
    }
}
