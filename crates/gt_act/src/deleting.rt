ghost use Rattle.gt_journal.specs.Ledger.{front_of, known};
ghost use Rattle.gt_table.specs.Table as table;
ghost use Rattle.std.specs.Prelude.{◌≡◌, ◌≤◌, ◌+◌, IsTrue, IfOk, None, Err, true, false, length};
ghost use Rattle.gt_model.specs.declared.event.Event.{Event};
ghost use Rattle.gt_model.specs.declared.refusal.Refusal.{Refusal as Why};
ghost use Rattle.gt_model.specs.Contents.{has_repo, least_member};
ghost use Rattle.gt_model.specs.Histories.{kept};
ghost use Rattle.gt_model.specs.Machine.{Step, Acts};
ghost use Rattle.gt_act.specs.PartitionState.{state_of};
ghost use Rattle.gt_act.specs.Causes.{CallCause, settling_calls};
ghost use Rattle.gt_act.specs.Ended.{answer_of, IsKeptOf};
ghost use Rattle.gt_act.specs.declared.ended.Ended.{Ended as End};
ghost use Rattle.gt_journal.specs.Histories.{Moves};

use crate::adding::add_change;
use crate::ended::Ended;
use crate::partition_state::PartitionState;
use crate::reply::Reply;
use gt_disk::{Disk, Failed};
use gt_list::NoMemory;
use gt_model::{Change, Limits, Refusal};
use gt_name::RepoPath;
use std::alloc::Global;

/// Settles what is in doubt, and then deletes a repository.
pub fn delete<D: Disk>(
    alloc: Global,
    limits: &Limits,
    state: &mut PartitionState,
    disk: &mut D,
    path: &RepoPath,
) -> Reply
    ensures step { Step limits.now (state_of state.old) (Event.Delete path.now) result.answer (state_of state.new) }
    ensures kept { IsKeptOf (state_of state.old) (Event.Delete path.now) result }
    ensures pins { state.new.live ≡ state.old.live }
    ensures cause { CallCause (D.fault_count disk.old) (D.fault_count disk.new) result.answer }
    ensures counted { D.call_count disk.new ≤ D.call_count disk.old + settling_calls state.old.journal.doubt + 4 }
    ensures known { known state.new.journal ≡ known state.old.journal }
    ensures moves { IsTrue D.tells → Moves limits.now (state_of state.old) (state_of state.new) (D.view disk.old) (D.view disk.new) }
{
    if let Err(Failed) = state.journal.settle(disk) {
        return Reply::of(Ended::DeviceFault);
    }
    delete_settled(alloc, limits, state, disk, path)
}

/// Deletes a repository, where nothing is in doubt.
fn delete_settled<D: Disk>(
    alloc: Global,
    limits: &Limits,
    state: &mut PartitionState,
    disk: &mut D,
    path: &RepoPath,
) -> Reply
    requires { state.old.journal.doubt ≡ None }
    ensures lacks { has_repo (table.content state.old.journal.past) path.now ≡ false → result.answer ≡ Err Why.NoRepository }
    ensures acts { Acts limits.now (state_of state.old) (Event.Delete path.now) result.answer (state_of state.new) }
    ensures kept { IsKeptOf (state_of state.old) (Event.Delete path.now) result }
    ensures pins { state.new.live ≡ state.old.live }
    ensures cause { CallCause (D.fault_count disk.old) (D.fault_count disk.new) result.answer }
    ensures counted { D.call_count disk.new ≤ D.call_count disk.old + 4 }
    ensures known { known state.new.journal ≡ known state.old.journal }
    ensures moves { IsTrue D.tells → Moves limits.now (state_of state.old) (state_of state.new) (D.view disk.old) (D.view disk.new) }
{
    if !state.journal.table().has_repo(path) {
        return Reply::of(Ended::NoRepository);
    }
    if let Some(member) = state.journal.table().least_member(path) {
        return match in_use(member) {
            Ok(reply) => reply,
            Err(NoMemory) => Reply::of(Ended::Memory),
        };
    }
    Reply::of(delete_unused(alloc, limits, state, disk, path))
}

/// A pool is in use by a member.
fn in_use(member: &RepoPath) -> Result<Reply, NoMemory>
    ensures answer { IfOk result (λ reply. reply.answer ≡ Err (Why.PoolInUse member.now)) }
    ensures kept { IfOk result (λ reply. reply.kept ≡ Err (Why.PoolInUse member.now)) }
{
    let Ok(member) = member.clone() else {
        return Err(NoMemory);
    };
    let Ok(kept) = member.clone() else {
        return Err(NoMemory);
    };
    Ok(Reply::refused(
        Refusal::PoolInUse { member },
        Refusal::PoolInUse { member: kept },
    ))
}

/// Deletes a repository that is there, and that none has as its pool.
fn delete_unused<D: Disk>(
    alloc: Global,
    limits: &Limits,
    state: &mut PartitionState,
    disk: &mut D,
    path: &RepoPath,
) -> Ended
    requires settled { state.old.journal.doubt ≡ None }
    requires there { has_repo (table.content state.old.journal.past) path.now ≡ true }
    requires unused { least_member (table.content state.old.journal.past) path.now ≡ None }
    ensures full { limits.now.positions ≤ front_of state.old.journal → result ≡ End.LogFull }
    ensures acts { Acts limits.now (state_of state.old) (Event.Delete path.now) (answer_of result) (state_of state.new) }
    ensures kept { kept (state_of state.old) (Event.Delete path.now) (answer_of result) ≡ answer_of result }
    ensures pins { state.new.live ≡ state.old.live }
    ensures cause { CallCause (D.fault_count disk.old) (D.fault_count disk.new) (answer_of result) }
    ensures counted { D.call_count disk.new ≤ D.call_count disk.old + 4 }
    ensures known { known state.new.journal ≡ known state.old.journal }
    ensures moves { IsTrue D.tells → Moves limits.now (state_of state.old) (state_of state.new) (D.view disk.old) (D.view disk.new) }
{
    match add_change(alloc, limits, state, disk, path, Change::Delete) {
        Ok(position) => Ended::Deleted { position },
        Err(ended) => ended,
    }
}
