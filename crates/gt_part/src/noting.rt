ghost use Rattle.std.specs.Prelude.{◌≡◌, ◌<◌, ◌≤◌, ◌+◌, ◌++◌, ◌∷◌, [], OnOk};
ghost use Rattle.gt_part.specs.Shown.{turn_of};

use gt_act::Reply;
use gt_list::NoMemory;
use gt_model::{Answer, Event, Trail, Turn, Who};

/// Takes room for this many records, and for the end of each live transaction.
pub(crate) fn take_room(trail: &mut Trail, live: usize, count: usize) -> Result<(), NoMemory>
    ensures same { trail.new.turns.0 ≡ trail.old.turns.0 }
    ensures opening { trail.new.opening ≡ trail.old.opening }
    ensures ok { OnOk result (live + count ≤ trail.new.turns.1) }
    ensures kept { trail.old.turns.1 ≤ trail.new.turns.1 }
{
    match live.checked_add(count) {
        Some(count) => trail.turns.reserve(count),
        None => Err(NoMemory),
    }
}

/// Keeps the record of an event in room that was taken before, and gives its answer.
pub(crate) fn note(trail: &mut Trail, tick: u64, who: Who, event: Event, reply: Reply) -> Answer
    requires { 0 < trail.old.turns.1 }
    ensures answer { result ≡ reply.answer }
    ensures turns { trail.new.turns.0 ≡ trail.old.turns.0 ++ turn_of who event reply.kept tick ∷ [] }
    ensures opening { trail.new.opening ≡ trail.old.opening }
    ensures room { trail.old.turns.1 ≤ trail.new.turns.1 + 1 }
{
    trail.turns.add(Turn {
        who,
        event,
        answer: reply.kept,
        tick,
    });
    reply.answer
}
