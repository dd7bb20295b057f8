ghost use Rattle.std.specs.Prelude.{◌≡◌, true};
ghost use Rattle.gt_model.specs.declared.event.Event.{Event};
ghost use Rattle.gt_model.specs.Machine.{Step, is_live, released};
ghost use Rattle.gt_act.specs.PartitionState.{state_of};
ghost use Rattle.gt_act.specs.Ended.{answer_of};
ghost use Rattle.gt_act.specs.declared.ended.Ended.{Ended as End};

use crate::ended::Ended;
use crate::partition_state::PartitionState;
use gt_model::Limits;
use gt_pins::Pin;

/// Gives a transaction up. It takes no memory.
pub fn abort(limits: &Limits, state: &mut PartitionState, pin: &Pin) -> Ended
    requires { is_live state.old.live pin.now ≡ true }
    ensures step { Step limits.now (state_of state.old) (Event.Abort pin.now) (answer_of result) (state_of state.new) }
    ensures always { result ≡ End.Aborted }
    ensures live { state.new.live ≡ released state.old.live pin.now }
    ensures journal { state.new.journal ≡ state.old.journal }
{
    state.live.release(pin);
    Ended::Aborted
}
