ghost use Rattle.gt_journal.specs.Ledger.{front_of, known};
ghost use Rattle.gt_table.specs.Table as table;
ghost use Rattle.std.specs.Prelude.{◌≡◌, ◌≤◌, ◌+◌, IsTrue, IfErr, OnOk, None, Err, true, length};
ghost use Rattle.gt_entry.specs.Fits.{HasChangeSpelling};
ghost use Rattle.gt_model.specs.Contents.{change_fits};
ghost use Rattle.gt_base.specs.Built.{IsBuilt, is_built};
ghost use Rattle.gt_journal.specs.Histories.{Moves};
ghost use Rattle.gt_write.specs.Checking.{IsGoodWrite};
ghost use Rattle.gt_act.specs.PartitionState.{state_of};
ghost use Rattle.gt_act.specs.Adding.{AddsEntry, AddsChange};
ghost use Rattle.gt_act.specs.Causes.{CallCause};
ghost use Rattle.gt_act.specs.Ended.{answer_of};
ghost use Rattle.gt_act.specs.declared.ended.Ended.{Ended as End};

use crate::ended::Ended;
use crate::partition_state::PartitionState;
use gt_disk::Disk;
use gt_log::LogError;
use gt_model::{Change, Entry, Limits};
use gt_name::RepoPath;
use std::alloc::Global;

/// Adds the entry of a change that fits, where nothing is in doubt, and gives its position. `LogFull` comes exactly at the
/// limit of positions.
pub(crate) fn add_change<D: Disk>(
    alloc: Global,
    limits: &Limits,
    state: &mut PartitionState,
    disk: &mut D,
    path: &RepoPath,
    change: Change,
) -> Result<u64, Ended>
    requires settled { state.old.journal.doubt ≡ None }
    requires built { is_built change ≡ true }
    requires spelled { HasChangeSpelling change }
    requires fit { IsTrue (change_fits (table.content state.old.journal.past) path.now change) }
    ensures full { limits.now.positions ≤ front_of state.old.journal → result ≡ Err End.LogFull }
    ensures adds { AddsChange limits.now (state_of state.old) path.now change result (state_of state.new) }
    ensures pins { state.new.live ≡ state.old.live }
    ensures sure { OnOk result (D.fault_count disk.new ≡ D.fault_count disk.old) }
    ensures cause { IfErr result (λ ended. CallCause (D.fault_count disk.old) (D.fault_count disk.new) (answer_of ended)) }
    ensures counted { D.call_count disk.new ≤ D.call_count disk.old + 4 }
    ensures known { known state.new.journal ≡ known state.old.journal }
    ensures moves { IsTrue D.tells → Moves limits.now (state_of state.old) (state_of state.new) (D.view disk.old) (D.view disk.new) }
{
    let front = state.journal.table().front();
    if limits.positions <= front {
        return Err(Ended::LogFull);
    }
    let Ok(path) = path.clone() else {
        return Err(Ended::Memory);
    };
    let entry = Entry {
        position: front + 1,
        path,
        change,
    };
    add_entry(alloc, limits, state, disk, entry)
}

/// Adds an entry that may stand behind the front, where nothing is in doubt, and gives its position.
fn add_entry<D: Disk>(
    alloc: Global,
    limits: &Limits,
    state: &mut PartitionState,
    disk: &mut D,
    entry: Entry,
) -> Result<u64, Ended>
    requires settled { state.old.journal.doubt ≡ None }
    requires built { IsBuilt entry }
    requires good { IsGoodWrite limits.now (front_of state.old.journal) (table.content state.old.journal.past) entry }
    ensures adds { AddsEntry (state_of state.old) entry result (state_of state.new) }
    ensures pins { state.new.live ≡ state.old.live }
    ensures sure { OnOk result (D.fault_count disk.new ≡ D.fault_count disk.old) }
    ensures cause { IfErr result (λ ended. CallCause (D.fault_count disk.old) (D.fault_count disk.new) (answer_of ended)) }
    ensures counted { D.call_count disk.new ≤ D.call_count disk.old + 4 }
    ensures known { known state.new.journal ≡ known state.old.journal }
    ensures moves { IsTrue D.tells → Moves limits.now (state_of state.old) (state_of state.new) (D.view disk.old) (D.view disk.new) }
{
    let position = entry.position;
    match state.journal.add(alloc, limits, disk, entry) {
        Ok(()) => Ok(position),
        Err(LogError::Unsure) => Err(Ended::Unsure { position }),
        Err(LogError::Untouched) => Err(Ended::DeviceFault),
        Err(LogError::Memory) => Err(Ended::Memory),
    }
}
