ghost use Rattle.std.specs.Prelude.{◌≡◌, true, false};
ghost use Rattle.gt_model.specs.declared.event.Event.{Event};
ghost use Rattle.gt_model.specs.Machine.{Step, is_live, is_faulty};
ghost use Rattle.gt_act.specs.PartitionState.{state_of};
ghost use Rattle.gt_act.specs.Ended.{answer_of, IsKeptOf};

use crate::ended::Ended;
use crate::partition_state::PartitionState;
use crate::reply::Reply;
use gt_model::{Done, Limits};
use gt_name::RefName;
use gt_pins::Pin;
use std::alloc::Global;

/// What a reference names at the position of a transaction.
pub fn get_ref(limits: &Limits, state: &PartitionState, pin: &Pin, name: &RefName) -> Ended
    requires { is_live state.now.live pin.now ≡ true }
    ensures step { Step limits.now (state_of state.now) (Event.GetRef pin.now name.now) (answer_of result) (state_of state.now) }
    ensures sure { is_faulty (answer_of result) ≡ false }
{
    let live = state.live.get(pin);
    Ended::Value {
        value: state
            .journal
            .table()
            .value_at(live.position, &live.path, name),
    }
}

/// The references whose names begin so, at the position of a transaction.
pub fn list_refs(
    alloc: Global,
    limits: &Limits,
    state: &PartitionState,
    pin: &Pin,
    prefix: &[u8],
) -> Reply
    requires { is_live state.now.live pin.now ≡ true }
    ensures step { Step limits.now (state_of state.now) (Event.ListRefs pin.now prefix.now) result.answer (state_of state.now) }
    ensures kept { IsKeptOf (state_of state.now) (Event.ListRefs pin.now prefix.now) result }
    ensures sure { is_faulty result.answer ≡ false }
{
    let live = state.live.get(pin);
    match state
        .journal
        .table()
        .list_at(alloc, live.position, &live.path, prefix)
    {
        Ok(list) => Reply {
            answer: Ok(Done::Refs { list }),
            kept: Ended::Finished {
                position: live.position,
            }
            .answer(),
        },
        Err(_) => Reply::of(Ended::Memory),
    }
}
