// Laws of the machine and its histories. Each is the contract of a function that does nothing.
ghost use Rattle.std.specs.Prelude.{◌≡◌, ◌⊎◌, ◌≤◌, ◌++◌, List, None, Result, Ok, Err, ℕ, true, false};
ghost use Rattle.gt_disk.specs.declared.file_id.FileId.{FileId};
ghost use Rattle.gt_model.specs.declared.added.Added.{Added};
ghost use Rattle.gt_model.specs.declared.done.Done.{Done};
ghost use Rattle.gt_model.specs.declared.done.Done.TheVariants.{Begun, Trimmed, Aborted};
ghost use Rattle.gt_model.specs.declared.entry.Entry.{Entry};
ghost use Rattle.gt_model.specs.declared.event.Event.{Event};
ghost use Rattle.gt_model.specs.declared.event.Event.TheVariants.{Begin, GetRef, ListRefs, Cat, Commit, Abort, HouseStep, HouseCommit, Apply, Trim};
ghost use Rattle.gt_model.specs.declared.limits.Limits.{Limits};
ghost use Rattle.gt_model.specs.declared.refusal.Refusal.{Refusal};
ghost use Rattle.gt_model.specs.declared.refusal.Refusal.TheVariants.{DeviceFault, Damaged};
ghost use Rattle.gt_model.specs.declared.update.RefUpdate.{RefUpdate};
ghost use Rattle.gt_model.specs.Machine.{State, Pin, Recovered, opening, effect, refuses, Step, StepOnAny, MayRecover, IsInOrder, front, is_live, is_live_as, is_transaction, is_job, is_ready_job, with_pins, released, low_water, is_free};
ghost use Rattle.gt_model.specs.declared.job.Job.{Job};
ghost use Rattle.gt_model.specs.Contents.{Content};
ghost use Rattle.gt_model.specs.Jobs.{AreUnits, IsPruned};
ghost use Rattle.gt_model.specs.Histories.{Happening, IsPart, position, last_state, acked, IsRun};

/// A step leaves a state in order, entries only join its log, and the position that it acknowledges is in the log.
pub fn steps_only_grow()
    ensures order { (limits : Limits) (old new : State) (event : Event) (answer : Result Done Refusal) → IsInOrder old → StepOnAny limits old event answer new → IsInOrder new }
    ensures log { (limits : Limits) (old new : State) (event : Event) (answer : Result Done Refusal) → IsInOrder old → StepOnAny limits old event answer new
        → (new.begin ≡ old.begin) × (new.base ≡ old.base) × ((more : List Entry) × (new.log ≡ old.log ++ more)) }
    ensures acked { (limits : Limits) (old new : State) (event : Event) (answer : Result Done Refusal) → IsInOrder old → StepOnAny limits old event answer new → position answer ≤ front new }
{}

/// What files may recover to opens in order, over a front of the log with its doubt last, and no entry that is sure is left out.
pub fn openings_are_parts()
    ensures order { (r : Recovered) → IsInOrder (opening r) }
    ensures part { (old : State) (r : Recovered) → IsInOrder old → MayRecover old r → IsPart old (opening r) }
{}

/// What a run has acknowledged until a moment is in the log at its end, and its state is in order.
pub fn runs_keep_what_they_acknowledged()
    ensures acked { (limits : Limits) (start : State) (history : List Happening) (m : ℕ) → IsRun limits start history → acked start history m ≤ front (last_state start history) }
    ensures order { (limits : Limits) (start : State) (history : List Happening) → IsRun limits start history → IsInOrder (last_state start history) }
{}

/// No event steps by a pin that isn't live, or is of another kind.
pub fn only_live_pins_step()
    ensures get { (limits : Limits) (old new : State) (pin : ℕ) (name : List ℕ) (answer : Result Done Refusal) → is_live old.pins pin ≡ false → StepOnAny limits old (GetRef pin name) answer new → ⊥ }
    ensures list { (limits : Limits) (old new : State) (pin : ℕ) (prefix : List ℕ) (answer : Result Done Refusal) → is_live old.pins pin ≡ false → StepOnAny limits old (ListRefs pin prefix) answer new → ⊥ }
    ensures cat { (limits : Limits) (old new : State) (pin : ℕ) (name : List ℕ) (answer : Result Done Refusal) → is_live old.pins pin ≡ false → StepOnAny limits old (Cat pin name) answer new → ⊥ }
    ensures commit { (limits : Limits) (old new : State) (pin : ℕ) (refs : List RefUpdate) (records : List Added) (answer : Result Done Refusal) → is_live_as is_transaction old.pins pin ≡ false → StepOnAny limits old (Commit pin refs records) answer new → ⊥ }
    ensures abort { (limits : Limits) (old new : State) (pin : ℕ) (answer : Result Done Refusal) → is_live old.pins pin ≡ false → StepOnAny limits old (Abort pin) answer new → ⊥ }
    ensures step { (limits : Limits) (old new : State) (pin n : ℕ) (answer : Result Done Refusal) → is_live_as is_job old.pins pin ≡ false → StepOnAny limits old (HouseStep pin n) answer new → ⊥ }
    ensures close { (limits : Limits) (old new : State) (pin : ℕ) (answer : Result Done Refusal) → is_live_as is_ready_job old.pins pin ≡ false → StepOnAny limits old (HouseCommit pin) answer new → ⊥ }
{}

/// What is refused with nothing in doubt is never answered by a fault in place of the refusal.
pub fn refusals_stand()
    ensures { (limits : Limits) (old new : State) (event : Event) (refusal : Refusal) (pins : List Pin) → old.doubt ≡ None → old.turning ≡ None → effect limits old event ≡ refuses refusal pins
        → Step limits old event (Err DeviceFault) new → refusal ≡ DeviceFault }
{}

/// A begin without a doubt never answers a fault.
pub fn begins_never_fail()
    ensures { (limits : Limits) (old new : State) (path : List ℕ) (seen : ℕ) → old.doubt ≡ None → StepOnAny limits old (Begin path seen) (Err DeviceFault) new → ⊥ }
{}

/// A transaction that begins reads the front, which is no earlier than what was seen.
pub fn begins_show_what_was_seen()
    ensures { (limits : Limits) (old new : State) (path : List ℕ) (seen position : ℕ) → StepOnAny limits old (Begin path seen) (Ok (Begun position)) new → (seen ≤ position) × (position ≡ front new) }
{}

/// A fault in a step of a job ends it, and changes nothing else. After one in its commit its pin is gone.
pub fn faults_end_jobs()
    ensures step { (limits : Limits) (old new : State) (pin n : ℕ) → Step limits old (HouseStep pin n) (Err DeviceFault) new → new ≡ with_pins old (released old.pins pin) }
    ensures close { (limits : Limits) (old new : State) (pin : ℕ) → Step limits old (HouseCommit pin) (Err DeviceFault) new → new.pins ≡ released old.pins pin }
{}

/// A trim with nothing in doubt moves the floor to the low water; where the disk fails, the floor is the old one or that.
pub fn trims_are_decided()
    ensures ok { (limits : Limits) (old new : State) (done : Done) → old.doubt ≡ None → old.turning ≡ None → Step limits old Trim (Ok done) new → (done ≡ Trimmed (low_water old)) × (new ≡ record old { floor = low_water old }) }
    ensures fault { (limits : Limits) (old new : State) → old.doubt ≡ None → old.turning ≡ None → Step limits old Trim (Err DeviceFault) new → (new ≡ old) ⊎ (new ≡ record old { floor = low_water old }) }
{}

/// After a fault in an application with nothing in doubt, what is applied stands, and the log.
pub fn failed_applications_stay()
    ensures { (limits : Limits) (old new : State) (n : ℕ) → old.doubt ≡ None → old.turning ≡ None → Step limits old (Apply n) (Err DeviceFault) new → (new.applied ≡ old.applied) × (new.epoch ≡ old.epoch) × (new.log ≡ old.log) × (new.pins ≡ old.pins) × (new.floor ≡ old.floor) }
{}

/// A transaction or a job is always given up.
pub fn aborts_are_certain()
    ensures { (limits : Limits) (old new : State) (pin : ℕ) (answer : Result Done Refusal) → StepOnAny limits old (Abort pin) answer new → (answer ≡ Ok Aborted) × (new ≡ with_pins old (released old.pins pin)) }
{}

/// Over a disk that holds what was written to it no event finds anything damaged.
pub fn nothing_is_damaged()
    ensures { (limits : Limits) (old new : State) (event : Event) (file : FileId) (place : ℕ) → Step limits old event (Err (Damaged file place)) new → ⊥ }
{}

/// With nothing in doubt, and without want of memory and faults, an event is answered in one way and leaves one state.
pub fn steps_are_decided()
    ensures { (limits : Limits) (event : Event) (old one two : State) (a b : Result Done Refusal) → old.doubt ≡ None → old.turning ≡ None → is_free a ≡ false → is_free b ≡ false
        → Step limits old event a one → Step limits old event b two → (a ≡ b) × (one ≡ two) }
{}

/// A prune drops one list of names, and marks so many pairs.
pub fn prunes_are_decided()
    ensures dropped { (c : Content) (path : List ℕ) (one two : List (List ℕ)) → IsPruned c path one → IsPruned c path two → one ≡ two }
    ensures units { (c : Content) (path : List ℕ) (job : Job) (one two : ℕ) → AreUnits c path job one → AreUnits c path job two → one ≡ two }
{}
