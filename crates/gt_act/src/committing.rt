ghost use Rattle.gt_journal.specs.Ledger.{front_of, known};
ghost use Rattle.gt_table.specs.Table as table;
ghost use Rattle.std.specs.Prelude.{◌≡◌, ◌≤◌, ◌⊎◌, ◌+◌, length, true, false, IsTrue, None, Err};
ghost use Rattle.gt_model.specs.declared.event.Event.{Event};
ghost use Rattle.gt_model.specs.declared.done.Done.TheVariants.{Committed};
ghost use Rattle.gt_model.specs.declared.refusal.Refusal.{Refusal as Why};
ghost use Rattle.gt_model.specs.Machine.{Step, Acts, Ends, adds, pin_of, is_live, is_empty, released};
ghost use Rattle.gt_act.specs.PartitionState.{state_of};
ghost use Rattle.gt_act.specs.Causes.{CallCause, settling_calls};
ghost use Rattle.gt_act.specs.Ended.{answer_of, IsKeptOf};
ghost use Rattle.gt_act.specs.declared.ended.Ended.{Ended as End};
ghost use Rattle.gt_journal.specs.Histories.{Moves};
ghost use Rattle.gt_write.specs.declared.checked.Checked.{Checked as Came};
ghost use Rattle.gt_write.specs.Checking.{IsChecked, IsGoodWrite};
ghost use Rattle.gt_base.specs.Built.{IsBuilt};

use crate::ended::Ended;
use crate::partition_state::PartitionState;
use crate::reply::Reply;
use gt_disk::{Disk, Failed};
use gt_log::LogError;
use gt_model::{Entry, Limits};
use gt_pins::Pin;
use gt_stage::Stage;
use gt_write::{Checked, check_commit};
use std::alloc::Global;

/// Commits what a transaction has staged. Where nothing is staged, nothing is settled and no check is made.
pub fn commit<D: Disk>(
    alloc: Global,
    limits: &Limits,
    state: &mut PartitionState,
    disk: &mut D,
    pin: &Pin,
    stage: &Stage,
) -> Reply
    requires { is_live state.old.live pin.now ≡ true }
    ensures step { Step limits.now (state_of state.old) (Event.Commit pin.now stage.now.staged.refs stage.now.staged.records) result.answer (state_of state.new) }
    ensures kept { IsKeptOf (state_of state.old) (Event.Commit pin.now stage.now.staged.refs stage.now.staged.records) result }
    ensures fewer { length state.new.live ≤ length state.old.live }
    ensures cause { CallCause (D.fault_count disk.old) (D.fault_count disk.new) result.answer }
    ensures counted { D.call_count disk.new ≤ D.call_count disk.old + settling_calls state.old.journal.doubt + 4 }
    ensures known { known state.new.journal ≡ known state.old.journal }
    ensures moves { IsTrue D.tells → Moves limits.now (state_of state.old) (state_of state.new) (D.view disk.old) (D.view disk.new) }
{
    // a law, which does nothing
    state.live.are_transactions();
    if stage.is_empty() {
        return Reply::of(finish(state, pin));
    }
    if let Err(Failed) = state.journal.settle(disk) {
        return Reply::of(Ended::DeviceFault);
    }
    let checked = check(alloc, limits, state, pin, stage);
    carry_out(alloc, limits, state, disk, pin, stage, checked)
}

/// Ends a transaction that has staged nothing.
fn finish(state: &mut PartitionState, pin: &Pin) -> Ended
    requires { is_live state.old.live pin.now ≡ true }
    ensures answer { result ≡ End.Finished (pin_of (state_of state.old) pin.now).position }
    ensures journal { state.new.journal ≡ state.old.journal }
    ensures live { state.new.live ≡ released state.old.live pin.now }
{
    let position = state.live.get(pin).position;
    state.live.release(pin);
    Ended::Finished { position }
}

/// Checks what a transaction has staged against the content at the front.
fn check(
    alloc: Global,
    limits: &Limits,
    state: &PartitionState,
    pin: &Pin,
    stage: &Stage,
) -> Checked
    requires { is_live state.now.live pin.now ≡ true }
    ensures { IsChecked limits.now (front_of state.now.journal) (table.content state.now.journal.past) (pin_of (state_of state.now) pin.now).path stage.now.staged result }
{
    let live = state.live.get(pin);
    let table = state.journal.table();
    check_commit(alloc, limits, table.front(), table, &live.path, stage)
}

/// Carries out what the checks of a commit came to, where nothing is in doubt. The stage is there for the contract.
fn carry_out<D: Disk>(
    alloc: Global,
    limits: &Limits,
    state: &mut PartitionState,
    disk: &mut D,
    pin: &Pin,
    stage: &Stage,
    checked: Checked,
) -> Reply
    requires settled { state.old.journal.doubt ≡ None }
    requires live { is_live state.old.live pin.now ≡ true }
    requires staged { is_empty stage.now.staged.refs stage.now.staged.records ≡ false }
    requires checked { IsChecked limits.now (front_of state.old.journal) (table.content state.old.journal.past) (pin_of (state_of state.old) pin.now).path stage.now.staged checked }
    ensures acts { Acts limits.now (state_of state.old) (Event.Commit pin.now stage.now.staged.refs stage.now.staged.records) result.answer (state_of state.new) }
    ensures kept { IsKeptOf (state_of state.old) (Event.Commit pin.now stage.now.staged.refs stage.now.staged.records) result }
    // A refusal and a full log are answered as such: no memory is wanted for that any more.
    ensures refused { (answer kept : Why) → checked ≡ Came.Refused answer kept → result.answer ≡ Err answer }
    ensures full { checked ≡ Came.Full → result.answer ≡ Err Why.LogFull }
    ensures fewer { length state.new.live ≤ length state.old.live }
    ensures cause { CallCause (D.fault_count disk.old) (D.fault_count disk.new) result.answer }
    ensures counted { D.call_count disk.new ≤ D.call_count disk.old + 4 }
    ensures known { known state.new.journal ≡ known state.old.journal }
    ensures moves { IsTrue D.tells → Moves limits.now (state_of state.old) (state_of state.new) (D.view disk.old) (D.view disk.new) }
{
    match checked {
        Checked::Good(entry) => Reply::of(add_write(alloc, limits, state, disk, pin, entry)),
        Checked::Refused { answer, kept } => {
            state.live.release(pin);
            Reply::refused(answer, kept)
        }
        Checked::Full => Reply::of(Ended::LogFull),
        Checked::Memory => Reply::of(Ended::Memory),
    }
}

/// Adds the entry of a good commit, and ends its transaction.
fn add_write<D: Disk>(
    alloc: Global,
    limits: &Limits,
    state: &mut PartitionState,
    disk: &mut D,
    pin: &Pin,
    entry: Entry,
) -> Ended
    requires settled { state.old.journal.doubt ≡ None }
    requires live { is_live state.old.live pin.now ≡ true }
    requires built { IsBuilt entry }
    requires good { IsGoodWrite limits.now (front_of state.old.journal) (table.content state.old.journal.past) entry }
    ensures adds { Ends (adds entry (Committed entry.position) (released state.old.live pin.now)) (state_of state.old) (answer_of result) (state_of state.new) ⊎ (((result ≡ End.Memory) ⊎ (result ≡ End.DeviceFault)) × (state_of state.new ≡ state_of state.old)) }
    ensures fewer { length state.new.live ≤ length state.old.live }
    ensures cause { CallCause (D.fault_count disk.old) (D.fault_count disk.new) (answer_of result) }
    ensures counted { D.call_count disk.new ≤ D.call_count disk.old + 4 }
    ensures known { known state.new.journal ≡ known state.old.journal }
    ensures moves { IsTrue D.tells → Moves limits.now (state_of state.old) (state_of state.new) (D.view disk.old) (D.view disk.new) }
{
    let position = entry.position;
    match state.journal.add(alloc, limits, disk, entry) {
        Ok(()) => {
            state.live.release(pin);
            Ended::Committed { position }
        }
        Err(LogError::Unsure) => {
            state.live.release(pin);
            Ended::Unsure { position }
        }
        Err(LogError::Untouched) => Ended::DeviceFault,
        Err(LogError::Memory) => Ended::Memory,
    }
}
