ghost use Rattle.std.specs.Prelude.{◌≡◌, ◌≤◌, ◌↔◌, Contains, IsTrue, IfOk};
ghost use Rattle.std.specs.Bool.{OnTrue, OnFalse};
ghost use Rattle.gt_outside.specs.Failing.{one_more};

use gt_list::NoMemory;
use std::alloc::Global;

/// Which calls of an object in memory are to fail, by their numbers from 0, and how many have failed.
#[derive(Drop)]
pub(crate) struct FailingCalls {
    numbers: Vec<u64>,
    made: u64,
    pub(crate) faults: u64,
}

impl FailingCalls {
    pub(crate) fn new(alloc: Global, numbers: &[u64]) -> Result<FailingCalls, NoMemory>
        ensures numbers { IfOk result (λ calls. calls.numbers.items ≡ numbers.now) }
        ensures made { IfOk result (λ calls. calls.made ≡ 0) }
        ensures faults { IfOk result (λ calls. calls.faults ≡ 0) }
    {
        let numbers = numbers.to_vec(alloc)?;
        Ok(FailingCalls {
            numbers,
            made: 0,
            faults: 0,
        })
    }

    /// Counts a call, and tells whether it is to fail. A fault is counted too. A count stands still at its end.
    pub(crate) fn next_fails(&mut self) -> bool
        ensures fails { IsTrue result ↔ Contains self.old.numbers.items self.old.made }
        ensures made { self.new.made ≡ one_more self.old.made }
        ensures failed { OnTrue result (self.new.faults ≡ one_more self.old.faults) }
        ensures passed { OnFalse result (self.new.faults ≡ self.old.faults) }
        ensures later { self.old.faults ≤ self.new.faults }
        ensures numbers { self.new.numbers.items ≡ self.old.numbers.items }
    {
        let fails = self.numbers.contains(&self.made);
        self.made = self.made.saturating_add(1);
        if fails {
            self.count_fault();
        }
        fails
    }

    /// Counts a fault.
    pub(crate) fn count_fault(&mut self)
        ensures faults { self.new.faults ≡ one_more self.old.faults }
        ensures later { self.old.faults ≤ self.new.faults }
        ensures made { self.new.made ≡ self.old.made }
        ensures numbers { self.new.numbers.items ≡ self.old.numbers.items }
    {
        self.faults = self.faults.saturating_add(1);
    }
}
