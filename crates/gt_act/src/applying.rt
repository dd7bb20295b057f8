ghost use Rattle.std.specs.Prelude.{◌≡◌, ◌≤◌, ◌+◌, IsTrue, None};
ghost use Rattle.gt_disk.specs.Files.{now};
ghost use Rattle.gt_model.specs.declared.event.Event.{Event};
ghost use Rattle.gt_model.specs.Machine.{Step, Acts};
ghost use Rattle.gt_journal.specs.Histories.{Goes};
ghost use Rattle.gt_journal.specs.Ledger.{Stored, Remembers};
ghost use Rattle.gt_act.specs.PartitionState.{state_of};
ghost use Rattle.gt_act.specs.Causes.{CallCause, application_calls};
ghost use Rattle.gt_act.specs.Ended.{answer_of};
ghost use Rattle.gt_act.specs.Turning.{ActsSure};

use crate::ended::Ended;
use crate::partition_state::PartitionState;
use gt_disk::{Disk, Failed};
use gt_journal::ApplyError;
use gt_model::Limits;
use std::alloc::Global;

/// Settles what is in doubt, the entry first, and then applies the next entries, at most as many as this.
pub fn apply<D: Disk>(
    alloc: Global,
    limits: &Limits,
    state: &mut PartitionState,
    disk: &mut D,
    n: u32,
) -> Ended
    requires most { n ≤ 16 }
    ensures step { Step limits.now (state_of state.old) (Event.Apply n) (answer_of result) (state_of state.new) }
    ensures pins { state.new.live ≡ state.old.live }
    ensures cause { CallCause (D.fault_count disk.old) (D.fault_count disk.new) (answer_of result) }
    ensures counted { state.old.journal.doubt ≡ None → state.old.journal.base.doubt ≡ None → D.call_count disk.new ≤ D.call_count disk.old + application_calls (state_of state.old) n }
    ensures goes { IsTrue D.tells → Stored limits.now (state_of state.old) (now (D.view disk.old)) → Remembers state.old.journal (now (D.view disk.old)) → Goes limits.now (state_of state.old) (state_of state.new) (D.view disk.old) (D.view disk.new) }
    ensures remembers { IsTrue D.tells → Stored limits.now (state_of state.old) (now (D.view disk.old)) → Remembers state.old.journal (now (D.view disk.old)) → Remembers state.new.journal (now (D.view disk.new)) }
{
    if let Err(Failed) = state.journal.settle(disk) {
        return Ended::DeviceFault;
    }
    apply_sure(alloc, limits, state, disk, n)
}

/// Settles an application in doubt, where no entry is in doubt, and then applies the next entries.
fn apply_sure<D: Disk>(
    alloc: Global,
    limits: &Limits,
    state: &mut PartitionState,
    disk: &mut D,
    n: u32,
) -> Ended
    requires most { n ≤ 16 }
    requires settled { state.old.journal.doubt ≡ None }
    ensures acts { ActsSure limits.now (state_of state.old) (Event.Apply n) (answer_of result) (state_of state.new) }
    ensures pins { state.new.live ≡ state.old.live }
    ensures cause { CallCause (D.fault_count disk.old) (D.fault_count disk.new) (answer_of result) }
    ensures counted { state.old.journal.base.doubt ≡ None → D.call_count disk.new ≤ D.call_count disk.old + application_calls (state_of state.old) n }
    ensures goes { IsTrue D.tells → Stored limits.now (state_of state.old) (now (D.view disk.old)) → Remembers state.old.journal (now (D.view disk.old)) → Goes limits.now (state_of state.old) (state_of state.new) (D.view disk.old) (D.view disk.new) }
    ensures remembers { IsTrue D.tells → Stored limits.now (state_of state.old) (now (D.view disk.old)) → Remembers state.old.journal (now (D.view disk.old)) → Remembers state.new.journal (now (D.view disk.new)) }
{
    if let Err(Failed) = state.journal.settle_turn(disk) {
        return Ended::DeviceFault;
    }
    apply_settled(alloc, limits, state, disk, n)
}

/// Applies the next entries, where nothing is in doubt.
fn apply_settled<D: Disk>(
    alloc: Global,
    limits: &Limits,
    state: &mut PartitionState,
    disk: &mut D,
    n: u32,
) -> Ended
    requires most { n ≤ 16 }
    requires settled { state.old.journal.doubt ≡ None }
    requires flat { state.old.journal.base.doubt ≡ None }
    ensures acts { Acts limits.now (state_of state.old) (Event.Apply n) (answer_of result) (state_of state.new) }
    ensures pins { state.new.live ≡ state.old.live }
    ensures cause { CallCause (D.fault_count disk.old) (D.fault_count disk.new) (answer_of result) }
    ensures counted { D.call_count disk.new ≤ D.call_count disk.old + application_calls (state_of state.old) n }
    ensures goes { IsTrue D.tells → Stored limits.now (state_of state.old) (now (D.view disk.old)) → Remembers state.old.journal (now (D.view disk.old)) → Goes limits.now (state_of state.old) (state_of state.new) (D.view disk.old) (D.view disk.new) }
    ensures remembers { IsTrue D.tells → Stored limits.now (state_of state.old) (now (D.view disk.old)) → Remembers state.old.journal (now (D.view disk.old)) → Remembers state.new.journal (now (D.view disk.new)) }
{
    match state.journal.apply(alloc, limits, disk, n) {
        Ok(position) => Ended::Applied { position },
        Err(ApplyError::EpochFull) => Ended::EpochFull,
        Err(ApplyError::Failed) => Ended::DeviceFault,
        Err(ApplyError::Memory) => Ended::Memory,
    }
}
