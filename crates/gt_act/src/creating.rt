ghost use Rattle.gt_journal.specs.Ledger.{front_of, known};
ghost use Rattle.gt_table.specs.Table as table;
ghost use Rattle.std.specs.Prelude.{◌≡◌, ◌≤◌, ◌+◌, IsTrue, None, length, true, false};
ghost use Rattle.gt_model.specs.declared.event.Event.{Event};
ghost use Rattle.gt_model.specs.Machine.{Step, Acts};
ghost use Rattle.gt_model.specs.Contents.{has_repo};
ghost use Rattle.gt_act.specs.PartitionState.{state_of};
ghost use Rattle.gt_act.specs.declared.ended.Ended.{Ended as End};
ghost use Rattle.gt_act.specs.Causes.{CallCause, settling_calls};
ghost use Rattle.gt_act.specs.Ended.{answer_of};
ghost use Rattle.gt_journal.specs.Histories.{Moves};

use crate::adding::add_change;
use crate::ended::Ended;
use crate::partition_state::PartitionState;
use gt_disk::{Disk, Failed};
use gt_model::{Change, Limits};
use gt_name::RepoPath;
use std::alloc::Global;

/// Settles what is in doubt, and then makes a repository, or a pool.
pub fn create<D: Disk>(
    alloc: Global,
    limits: &Limits,
    state: &mut PartitionState,
    disk: &mut D,
    path: &RepoPath,
    pool: bool,
) -> Ended
    ensures step { Step limits.now (state_of state.old) (Event.Create path.now pool) (answer_of result) (state_of state.new) }
    ensures pins { state.new.live ≡ state.old.live }
    ensures cause { CallCause (D.fault_count disk.old) (D.fault_count disk.new) (answer_of result) }
    ensures counted { D.call_count disk.new ≤ D.call_count disk.old + settling_calls state.old.journal.doubt + 4 }
    ensures known { known state.new.journal ≡ known state.old.journal }
    ensures moves { IsTrue D.tells → Moves limits.now (state_of state.old) (state_of state.new) (D.view disk.old) (D.view disk.new) }
{
    if let Err(Failed) = state.journal.settle(disk) {
        return Ended::DeviceFault;
    }
    create_settled(alloc, limits, state, disk, path, pool)
}

/// Makes a repository, or a pool, where nothing is in doubt.
fn create_settled<D: Disk>(
    alloc: Global,
    limits: &Limits,
    state: &mut PartitionState,
    disk: &mut D,
    path: &RepoPath,
    pool: bool,
) -> Ended
    requires { state.old.journal.doubt ≡ None }
    ensures acts { Acts limits.now (state_of state.old) (Event.Create path.now pool) (answer_of result) (state_of state.new) }
    ensures pins { state.new.live ≡ state.old.live }
    ensures cause { CallCause (D.fault_count disk.old) (D.fault_count disk.new) (answer_of result) }
    ensures counted { D.call_count disk.new ≤ D.call_count disk.old + 4 }
    ensures exists { has_repo (table.content state.old.journal.past) path.now ≡ true → result ≡ End.RepositoryExists }
    ensures full { has_repo (table.content state.old.journal.past) path.now ≡ false → limits.now.positions ≤ front_of state.old.journal → result ≡ End.LogFull }
    ensures known { known state.new.journal ≡ known state.old.journal }
    ensures moves { IsTrue D.tells → Moves limits.now (state_of state.old) (state_of state.new) (D.view disk.old) (D.view disk.new) }
{
    if state.journal.table().has_repo(path) {
        return Ended::RepositoryExists;
    }
    match add_change(alloc, limits, state, disk, path, Change::Create { pool }) {
        Ok(position) => Ended::Created { position, pool },
        Err(ended) => ended,
    }
}
