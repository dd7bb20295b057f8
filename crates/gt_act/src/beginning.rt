ghost use Rattle.gt_journal.specs.Ledger.{front_of, known};
ghost use Rattle.std.specs.Prelude.{◌≡◌, ◌≤◌, ◌<◌, ◌+◌, length, false, IsTrue, None};
ghost use Rattle.gt_model.specs.declared.event.Event.{Event};
ghost use Rattle.gt_model.specs.Machine.{Step, Acts, is_faulty, free_number};
ghost use Rattle.gt_act.specs.PartitionState.{state_of};
ghost use Rattle.gt_act.specs.declared.ended.Ended.{Ended as End};
ghost use Rattle.gt_act.specs.Causes.{CallCause, settling_calls};
ghost use Rattle.gt_act.specs.Ended.{answer_of};
ghost use Rattle.gt_act.specs.Live.{GivesPin};
ghost use Rattle.gt_journal.specs.Histories.{Moves};

use crate::ended::Ended;
use crate::partition_state::PartitionState;
use gt_disk::{Disk, Failed};
use gt_model::Limits;
use gt_name::RepoPath;
use gt_pins::Pin;

/// Settles what is in doubt, and then begins a transaction at the front.
pub fn begin<D: Disk>(
    limits: &Limits,
    state: &mut PartitionState,
    disk: &mut D,
    path: &RepoPath,
    seen: u64,
) -> (Ended, Option<Pin>)
    ensures step { Step limits.now (state_of state.old) (Event.Begin path.now seen) (answer_of result.0) (state_of state.new) }
    ensures one { length state.new.live ≤ length state.old.live + 1 }
    ensures gives { GivesPin (answer_of result.0) result.1 (free_number state.old.live) }
    ensures cause { CallCause (D.fault_count disk.old) (D.fault_count disk.new) (answer_of result.0) }
    ensures counted { D.call_count disk.new ≤ D.call_count disk.old + settling_calls state.old.journal.doubt }
    ensures known { known state.new.journal ≡ known state.old.journal }
    ensures moves { IsTrue D.tells → Moves limits.now (state_of state.old) (state_of state.new) (D.view disk.old) (D.view disk.new) }
{
    if let Err(Failed) = state.journal.settle(disk) {
        return (Ended::DeviceFault, None);
    }
    begin_settled(limits, state, path, seen)
}

/// Begins a transaction at the front, where nothing is in doubt.
fn begin_settled(
    limits: &Limits,
    state: &mut PartitionState,
    path: &RepoPath,
    seen: u64,
) -> (Ended, Option<Pin>)
    requires { state.old.journal.doubt ≡ None }
    ensures acts { Acts limits.now (state_of state.old) (Event.Begin path.now seen) (answer_of result.0) (state_of state.new) }
    ensures one { length state.new.live ≤ length state.old.live + 1 }
    ensures gives { GivesPin (answer_of result.0) result.1 (free_number state.old.live) }
    ensures journal { state.new.journal ≡ state.old.journal }
    ensures behind { front_of state.old.journal < seen → result.0 ≡ End.Behind seen (front_of state.old.journal) }
    ensures full { seen ≤ front_of state.old.journal → limits.now.pins ≤ length state.old.live → result.0 ≡ End.PinsFull }
    ensures sure { is_faulty (answer_of result.0) ≡ false }
{
    let front = state.journal.table().front();
    if front < seen {
        return (Ended::Behind { seen, front }, None);
    }
    let Ok(number) = state.live.free_number(limits.pins) else {
        return (Ended::PinsFull, None);
    };
    if !state.journal.table().has_repo(path) {
        return (Ended::NoRepository, None);
    }
    match state.live.begin(number, front, path) {
        Ok(pin) => (Ended::Begun { position: front }, Some(pin)),
        Err(_) => (Ended::Memory, None),
    }
}
