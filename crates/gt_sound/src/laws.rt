// Laws of the definitions alone. Each is the contract of a function that does nothing.
ghost use Rattle.std.specs.Prelude.{◌≡◌, List, None, Result, []};
ghost use Rattle.gt_model.specs.declared.done.Done.{Done};
ghost use Rattle.gt_model.specs.declared.event.Event.{Event};
ghost use Rattle.gt_model.specs.declared.limits.Limits.{Limits};
ghost use Rattle.gt_model.specs.declared.refusal.Refusal.{Refusal};
ghost use Rattle.gt_model.specs.Machine.{State, Recovered, StepOnAny, MayRecover, IsInOrder, opening, unapplied};
ghost use Rattle.gt_model.specs.Histories.{IsPart};
ghost use Rattle.gt_sound.specs.Sound.{IsSoundState, IsKnown};

/// A step by an event that is known leaves each content of the log with its doubt sound, and each entry says what it needs.
pub fn steps_keep_states_sound()
    ensures { (limits : Limits) (old new : State) (event : Event) (answer : Result Done Refusal) → IsKnown event → StepOnAny limits old event answer new → IsSoundState old → IsSoundState new }
{}

/// A state that has a front of what a sound one has, and no doubt, is sound.
pub fn parts_of_sound_states_are_sound()
    ensures { (old new : State) → IsPart old new → new.doubt ≡ None → IsSoundState old → IsSoundState new }
{}

/// What the files of a sound state may recover to is sound.
pub fn openings_keep_states_sound()
    ensures { (old : State) (r : Recovered) → IsInOrder old → MayRecover old r → IsSoundState old → IsSoundState (opening r) }
{}

/// Where nothing was written the content is empty, which is sound.
pub fn the_empty_log_is_sound()
    ensures { IsSoundState (opening (unapplied [])) }
{}
