// Laws of the definitions alone. Each is the contract of a function that does nothing.
ghost use Rattle.std.specs.Prelude.{◌≡◌, ℕ, ◌+◌, List, [], ◌∷◌, ◌++◌, length, Result, Ok};
ghost use Rattle.std.specs.List.{AllByRecursion, flat_map};
ghost use Rattle.gt_disk.specs.declared.file_id.FileId.{FileId};
ghost use Rattle.gt_disk.specs.Files.{Files, States, View, now, IsImage};
ghost use Rattle.gt_disk.specs.Kinds.{gate_file, turn_file};
ghost use Rattle.gt_disk.specs.Moments.{Since, Runs, AnyState, Narrows};
ghost use Rattle.gt_log.specs.Log.{Stands, AddMoment, AfterAdd};
ghost use Rattle.gt_log.specs.declared.log_error.LogError.{LogError};
ghost use Rattle.gt_manifest.specs.Whole.{IsWhole};
ghost use Rattle.gt_model.specs.declared.entry.Entry.{Entry};
ghost use Rattle.gt_model.specs.declared.limits.Limits.{Limits};
ghost use Rattle.gt_reading.specs.Frames.{AreStill, Calls};
ghost use Rattle.gt_reading.specs.Reading.{run, asked};
ghost use Rattle.gt_base.specs.Recovery.{Based, Loaded, based_on, recovery, recover, recovered, files_by, Keeps};
ghost use Rattle.gt_base.specs.Switching.{Counts, SwitchMoment, AfterSwitch};
ghost use Rattle.gt_base.specs.declared.switch_error.SwitchError.{SwitchError};
ghost use Rattle.gt_ahead.specs.Adds.{with_entries, MayAdd, AddLoads, LoadsAfterAdd};
ghost use Rattle.gt_ahead.specs.Files.{repo_files, files_of, HoldsNothingOf, IsUnnamed, IsNew, IsOld};
ghost use Rattle.gt_ahead.specs.Later.{moved_on, ReadsOn, with_entry, AddsOn};
ghost use Rattle.gt_ahead.specs.Loads.{IsOneOf, Loads, LoadsUnder, LoadsOver, HasBothEpochs, HasBothLogs, IsCounter, GateCounts, IsBetween, IsOrOtherEpoch, IsOrOtherFront, IsElsewhere, AllElseStands, RunsOn};
ghost use Rattle.gt_ahead.specs.Switches.{MaySwitchOn, SwitchLoads, LoadsAfterSwitch};

/// What was recovered tells by which files, in the order in which they are read.
pub fn what_is_recovered_tells_by_which_files()
    ensures base { (files : Files) (b : Based) → run files (based_on b.manifest) ≡ Ok b → asked files (based_on b.manifest) ≡ flat_map repo_files b.manifest.repos }
    ensures whole { (limits : Limits) (files : Files) (x : Loaded) → run files (recovery limits) ≡ Ok x → files_by limits files ≡ files_of x }
{}

/// Whatever a stop leaves recovers to one of those that load, and keeps it.
pub fn what_is_loaded_is_recovered()
    ensures { (limits : Limits) (xs : List Loaded) (states : States) (image : Files) → Loads limits xs states → IsImage states image
        → (x : Loaded) × IsOneOf xs x × (run image (recovery limits) ≡ Ok x) × (recover limits image ≡ Ok (recovered x)) × Keeps limits image states }
{}

/// Where each of these is one of those, whatever loads one of these loads one of those.
pub fn what_loads_is_among_more()
    ensures { (limits : Limits) (xs ys : List Loaded) (states : States) → AllByRecursion (IsOneOf ys) xs → Loads limits xs states → Loads limits ys states }
{}

/// Once nothing of turn is in doubt, those of other epochs load no more; once nothing of the gate is, those with more or fewer
/// entries don't.
pub fn lengths_tell_which_loads()
    ensures turn { (limits : Limits) (xs kept : List Loaded) (states : States) (epoch : ℕ) → AllByRecursion (IsOrOtherEpoch epoch kept) xs → Loads limits xs states → Counts epoch states → Loads limits kept states }
    ensures gate { (limits : Limits) (xs kept : List Loaded) (states : States) (gate : ℕ) → AllByRecursion (IsOrOtherFront gate kept) xs → Loads limits xs states → GateCounts gate states → Loads limits kept states }
{}

/// Where one thing that a stop may leave recovers by files that are still, everything that it may leave recovers to the same,
/// by files that are still.
pub fn still_files_have_one_recovery()
    ensures one { (limits : Limits) (states : States) (a image : Files) (x : Loaded) → IsImage states a → run a (recovery limits) ≡ Ok x → AreStill states (files_of x) → IsImage states image
        → run image (recovery limits) ≡ Ok x }
    ensures loads { (limits : Limits) (states : States) (a : Files) (x : Loaded) → IsImage states a → run a (recovery limits) ≡ Ok x → AreStill states (files_of x) → Loads limits (x ∷ []) states }
{}

/// A pack, a packed file or a loose file that the manifest doesn't name holds nothing of what was recovered.
pub fn unnamed_files_hold_nothing()
    ensures { (x : Loaded) (f : FileId) → IsUnnamed x f → HoldsNothingOf x f }
{}

/// Nor does one of a number that the manifest hasn't given out.
pub fn new_files_hold_nothing()
    ensures whole { (x : Loaded) (f : FileId) → IsWhole x.base.manifest → IsNew x f → HoldsNothingOf x f }
    ensures read { (limits : Limits) (files : Files) (x : Loaded) (f : FileId) → run files (recovery limits) ≡ Ok x → IsNew x f → HoldsNothingOf x f }
{}

/// The manifest of another epoch holds nothing of what was recovered, nor does the entry of a position that was applied.
pub fn old_files_hold_nothing()
    ensures { (limits : Limits) (files : Files) (x : Loaded) (f : FileId) → run files (recovery limits) ≡ Ok x → IsOld x f → HoldsNothingOf x f }
{}

/// Device calls one after the other, whether they succeed or fail, each on a file that holds nothing of what loads: at each
/// moment the same loads, and all other files are as they were.
pub fn calls_elsewhere_keep_what_loads()
    ensures calls { (limits : Limits) (xs : List Loaded) (files : List FileId) (v w : View) → Calls files v w → AllByRecursion (IsElsewhere xs) files → Loads limits xs (now v)
        → Since (λ states. Loads limits xs states × AllElseStands files (now v) states) v w }
    ensures runs { (limits : Limits) (xs : List Loaded) (files : List FileId) (v w : View) → RunsOn files v w → AllByRecursion (IsElsewhere xs) files → Loads limits xs (now v)
        → Since (λ states. Loads limits xs states × AllElseStands files (now v) states) v w }
{}

/// Calls on gate or turn alone after which a stop leaves nothing that it couldn't leave before, as syncs, keep what loads.
pub fn calls_that_leave_nothing_new_keep_what_loads()
    ensures { (limits : Limits) (xs : List Loaded) (counter : FileId) (v w : View) → IsCounter counter → Runs counter AnyState v w → Narrows v w → Loads limits xs (now v) → Since (Loads limits xs) v w }
{}

/// A later base, with some entries more applied and the content after them, is recovered with the rest of the log.
pub fn a_later_base_reads_on()
    ensures { (limits : Limits) (old : Loaded) (new : Based) (count : ℕ) (a b : Files) → run a (recovery limits) ≡ Ok old → ReadsOn limits old new count a b
        → run b (recovery limits) ≡ Ok (moved_on old new count) }
{}

/// With a gate that is one longer, and the entry of that position there and fitting, the log has that entry more.
pub fn an_added_entry_is_read()
    ensures { (limits : Limits) (old : Loaded) (e : Entry) (a b : Files) → run a (recovery limits) ≡ Ok old → AddsOn limits old e a b → run b (recovery limits) ≡ Ok (with_entry old e) }
{}

/// A switch to a later base: at each of its moments whatever a stop leaves loads the old or the new, and where it succeeds the
/// new afterwards; where a device failed before the append to turn, or memory ran out, all the time the old.
pub fn a_switch_goes_from_old_to_new()
    ensures moments { (limits : Limits) (gate : ℕ) (old : Loaded) (new : Based) (count : ℕ) (result : Result Unit SwitchError) (v w : View) → IsImage (now v) v.reads → MaySwitchOn limits gate old new count (now v) v.reads
        → Since (SwitchMoment result old.base.manifest.epoch new.manifest (now v)) v w → Since (SwitchLoads result limits old (moved_on old new count)) v w }
    ensures after { (limits : Limits) (gate : ℕ) (old : Loaded) (new : Based) (count : ℕ) (result : Result Unit SwitchError) (v w : View) → IsImage (now v) v.reads → MaySwitchOn limits gate old new count (now v) v.reads
        → AfterSwitch result old.base.manifest.epoch new.manifest (now v) (now w) → LoadsAfterSwitch result limits old (moved_on old new count) (now w) }
{}

/// While both epochs are there, calls on turn alone, whether they succeed or fail, leave at each moment what loads the old or
/// the new, and both epochs stay there. Once nothing of turn is in doubt, its length decides.
pub fn calls_on_turn_leave_old_or_new()
    ensures moments { (limits : Limits) (epoch : ℕ) (olds news : List Loaded) (v w : View) → HasBothEpochs limits epoch olds news (now v) → Runs turn_file (IsBetween epoch) v w
        → Since (λ states. HasBothEpochs limits epoch olds news states × Loads limits (olds ++ news) states) v w }
    ensures after { (limits : Limits) (epoch : ℕ) (olds news : List Loaded) (v w : View) → HasBothEpochs limits epoch olds news (now v) → Runs turn_file AnyState v w → HasBothEpochs limits epoch olds news (now w) }
    ensures either { (limits : Limits) (epoch : ℕ) (olds news : List Loaded) (states : States) → HasBothEpochs limits epoch olds news states → IsBetween epoch (states turn_file) → Loads limits (olds ++ news) states }
    ensures decided { (limits : Limits) (epoch : ℕ) (xs : List Loaded) (states : States) → LoadsUnder limits epoch xs states → Counts epoch states → Loads limits xs states }
{}

/// While the next entry is there, calls on the gate alone, whether they succeed or fail, leave at each moment what loads the
/// old or the new, and the entry stays there. Once nothing of the gate is in doubt, its length decides.
pub fn calls_on_gate_leave_old_or_new()
    ensures moments { (limits : Limits) (gate : ℕ) (olds news : List Loaded) (v w : View) → HasBothLogs limits gate olds news (now v) → Runs gate_file (IsBetween gate) v w
        → Since (λ states. HasBothLogs limits gate olds news states × Loads limits (olds ++ news) states) v w }
    ensures after { (limits : Limits) (gate : ℕ) (olds news : List Loaded) (v w : View) → HasBothLogs limits gate olds news (now v) → Runs gate_file AnyState v w → HasBothLogs limits gate olds news (now w) }
    ensures either { (limits : Limits) (gate : ℕ) (olds news : List Loaded) (states : States) → HasBothLogs limits gate olds news states → IsBetween gate (states gate_file) → Loads limits (olds ++ news) states }
    ensures decided { (limits : Limits) (gate : ℕ) (xs : List Loaded) (states : States) → LoadsOver limits gate xs states → GateCounts gate states → Loads limits xs states }
{}

/// An entry is added, over a base that may be in doubt: at each moment whatever a stop leaves loads what it did, or that with
/// the entry; where the addition succeeds all of it has the entry afterwards, and where a device failed before the gate began
/// to grow, or memory ran out, all the time none.
pub fn an_addition_goes_from_old_to_new()
    ensures moments { (limits : Limits) (gate : ℕ) (olds : List Loaded) (e : Entry) (bytes : List ℕ) (first : ℕ) (entries : List (List ℕ)) (result : Result ℕ LogError) (v w : View) → IsImage (now v) v.reads → MayAdd limits gate olds e bytes (now v)
        → gate + 1 ≡ length entries + first → Stands first entries (now v) → Since (AddMoment result first entries bytes (now v)) v w → Since (AddLoads result limits olds (with_entries olds e)) v w }
    ensures after { (limits : Limits) (gate : ℕ) (olds : List Loaded) (e : Entry) (bytes : List ℕ) (first : ℕ) (entries : List (List ℕ)) (result : Result ℕ LogError) (v w : View) → IsImage (now v) v.reads → MayAdd limits gate olds e bytes (now v)
        → gate + 1 ≡ length entries + first → Stands first entries (now v) → Since (AddMoment result first entries bytes (now v)) v w → AfterAdd result first entries bytes (now w) → LoadsAfterAdd result limits gate olds (with_entries olds e) (now w) }
{}
