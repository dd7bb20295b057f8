// Which calls of a disk in memory are to fail.
ghost use Rattle.std.specs.Prelude.{◌≡◌, ◌≤◌, ◌+◌, ◌^◌, ◌-◌, min, ℕ, length, OnOk, OnErr, IsOk, IsErr, MatchOption, is_some, if◌then◌else◌, None};
ghost use Rattle.std.specs.Ordering.{nat_cmp};
ghost use Rattle.std.specs.BTreeMap as tree;
ghost use Rattle.std.specs.BTreeMap.{btree_map_len};
ghost use Rattle.gt_disk.specs.Plan.{listed};

use crate::{Failed, Fault};
use std::alloc::{AllocError, Global};
use std::collections::BTreeMap;

/// The calls that are to fail, and counts of the calls so far.
#[derive(Drop)]
pub struct Plan {
    /// How many bytes of a piece are there after the call of this number fails.
    pub faults: BTreeMap<u64, u64>,
    /// How many calls were made.
    pub made: u64,
    /// How many of them failed.
    pub failed: u64,
}

impl Plan {
    /// No call is to fail.
    pub fn new(alloc: Global) -> Plan
        ensures none { (call : ℕ) → tree.get nat_cmp result.faults call ≡ None }
        ensures len { btree_map_len result.faults ≡ 0 }
        ensures counts { (result.made ≡ 0) × (result.failed ≡ 0) }
    {
        Plan {
            faults: BTreeMap::new(alloc),
            made: 0,
            failed: 0,
        }
    }

    /// Counts a call, and finds out whether it is to fail.
    pub fn next(&mut self) -> Option<u64>
        ensures fails { result ≡ tree.get nat_cmp self.old.faults self.old.made }
        ensures made { self.new.made ≡ min (self.old.made + 1) (2 ^ 64 - 1) }
        ensures failed { self.new.failed ≡ self.old.failed }
        ensures used { btree_map_len self.new.faults + (if is_some result then 1 else 0) ≡ btree_map_len self.old.faults }
        ensures others { (call : ℕ) → self.old.made + 1 ≤ call → tree.get nat_cmp self.new.faults call ≡ tree.get nat_cmp self.old.faults call }
    {
        let call = self.made;
        self.made = call.saturating_add(1);
        self.faults.remove(&call)
    }

    /// Counts a failure.
    pub fn count_failure(&mut self)
        ensures failed { self.new.failed ≡ min (self.old.failed + 1) (2 ^ 64 - 1) }
        ensures later { self.old.failed ≤ self.new.failed }
        ensures same { (self.new.made ≡ self.old.made) × (self.new.faults ≡ self.old.faults) }
    {
        self.failed = self.failed.saturating_add(1);
    }

    /// Counts a call that takes no memory. It fails where that is planned, and the failure is counted too.
    pub fn pass(&mut self) -> Result<(), Failed>
        ensures fails { MatchOption (tree.get nat_cmp self.old.faults self.old.made) (IsOk result) (λ _. IsErr result) }
        ensures made { self.new.made ≡ min (self.old.made + 1) (2 ^ 64 - 1) }
        ensures failed { OnErr result (self.new.failed ≡ min (self.old.failed + 1) (2 ^ 64 - 1)) }
        ensures passed { OnOk result (self.new.failed ≡ self.old.failed) }
        ensures later { self.old.failed ≤ self.new.failed }
        ensures used { btree_map_len self.new.faults ≤ btree_map_len self.old.faults }
        ensures others { (call : ℕ) → self.old.made + 1 ≤ call → tree.get nat_cmp self.new.faults call ≡ tree.get nat_cmp self.old.faults call }
    {
        match self.next() {
            None => Ok(()),
            Some(_) => {
                self.count_failure();
                Err(Failed)
            }
        }
    }

    /// These calls are to fail too.
    pub fn add(&mut self, faults: &[Fault]) -> Result<(), AllocError>
        ensures ok { OnOk result ((call : ℕ) → tree.get nat_cmp self.new.faults call ≡ listed faults.now call (tree.get nat_cmp self.old.faults call)) }
        ensures len { OnOk result (btree_map_len self.new.faults ≤ btree_map_len self.old.faults + length faults.now) }
        ensures err { OnErr result (self.new.faults ≡ self.old.faults) }
        ensures counts { (self.new.made ≡ self.old.made) × (self.new.failed ≡ self.old.failed) }
    {
        let mut more = self.faults.clone()?;
        for fault in faults {
            if let Err(_) = more.insert(fault.call, fault.kept) {
                return Err(AllocError);
            }
        }
        self.faults = more;
        Ok(())
    }
}
