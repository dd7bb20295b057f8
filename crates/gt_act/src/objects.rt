ghost use Rattle.std.specs.Prelude.{◌≡◌, ◌⊎◌, ◌≤◌, ◌+◌, true, IsTrue, None, Err};
ghost use Rattle.gt_disk.specs.Files.{Quiet};
ghost use Rattle.gt_model.specs.declared.event.Event.{Event};
ghost use Rattle.gt_model.specs.declared.refusal.Refusal.{Refusal as Why};
ghost use Rattle.gt_model.specs.Machine.{is_live, pin_of};
ghost use Rattle.gt_table.specs.Table.{place_at};
ghost use Rattle.gt_act.specs.PartitionState.{state_of};
ghost use Rattle.gt_act.specs.Cat.{CatHappens, CatGives, CatNamed};
ghost use Rattle.gt_act.specs.Causes.{CallCause};
ghost use Rattle.gt_act.specs.Ended.{IsKeptOf};

use crate::ended::Ended;
use crate::partition_state::PartitionState;
use crate::reply::Reply;
use gt_disk::Disk;
use gt_model::{Done, Limits};
use gt_name::Name;
use gt_pins::Pin;
use gt_places::{ReadError, fetch};
use std::alloc::Global;

/// The record of an object that is visible at the position of a transaction, read once at its place.
pub fn cat<D: Disk>(
    alloc: Global,
    limits: &Limits,
    state: &PartitionState,
    disk: &mut D,
    pin: &Pin,
    name: &Name,
) -> Reply
    requires { is_live state.now.live pin.now ≡ true }
    ensures happens { CatHappens limits.now (state_of state.now) pin.now name.now result.answer }
    ensures kept { IsKeptOf (state_of state.now) (Event.Cat pin.now name.now) result }
    ensures whole { state.now.journal.floor ≡ state.now.journal.past.begin }
    ensures gives { IsTrue D.tells → CatGives state.now.journal.past (state_of state.now) pin.now name.now (D.view disk.old).reads result.answer }
    ensures hidden { place_at state.now.journal.past (pin_of (state_of state.now) pin.now).position (pin_of (state_of state.now) pin.now).path name.now ≡ None → result.answer ≡ Err (Why.Absent name.now) }
    ensures memory { IsTrue D.tells → result.answer ≡ Err Why.Memory → (disk.new ≡ disk.old) ⊎ CatNamed state.now.journal.past (state_of state.now) pin.now name.now (D.view disk.old).reads }
    ensures cause { CallCause (D.fault_count disk.old) (D.fault_count disk.new) result.answer }
    ensures counted { D.call_count disk.new ≤ D.call_count disk.old + 1 }
    ensures later { (D.view disk.old).clock ≤ (D.view disk.new).clock }
    ensures quiet { IsTrue D.tells → Quiet (D.view disk.old) (D.view disk.new) }
{
    let live = state.live.get(pin);
    let Some(place) = state
        .journal
        .table()
        .place_at(live.position, &live.path, name)
    else {
        return Reply::of(Ended::Absent { name: *name });
    };
    match fetch(alloc, disk, place, name) {
        Ok(whole) => Reply {
            answer: Ok(Done::Object { whole }),
            kept: Ended::Finished {
                position: live.position,
            }
            .answer(),
        },
        Err(ReadError::Failed) => Reply::of(Ended::DeviceFault),
        Err(ReadError::Damaged) => Reply::of(Ended::Damaged {
            file: place.file,
            at: place.at,
        }),
        Err(ReadError::Memory) => Reply::of(Ended::Memory),
    }
}
