// What small disks recover to, and which first epochs they may be switched to.
ghost use Rattle.std.specs.Prelude.{◌≡◌, ◌≤◌, [], ◌∷◌, Ok};
ghost use Rattle.gt_model.specs.declared.limits.Limits.{Limits};
ghost use Rattle.gt_reading.specs.Reading.{run};
ghost use Rattle.gt_base.specs.Recovery.{recovery};
ghost use Rattle.gt_ahead.specs.Example.{no_files, no_states, nothing_loaded, first_epoch, one_entry, one_entry_states, one_loaded, created_epoch};
ghost use Rattle.gt_ahead.specs.Loads.{Loads};
ghost use Rattle.gt_ahead.specs.Switches.{MaySwitchOn};

/// No files recover to nothing.
pub fn no_files_recover_to_nothing()
    ensures files { (limits : Limits) → run no_files (recovery limits) ≡ Ok nothing_loaded }
    ensures states { (limits : Limits) → Loads limits (nothing_loaded ∷ []) no_states }
{}

/// They may be switched to an epoch without repositories.
pub fn no_files_may_be_switched()
    ensures { (limits : Limits) → 1 ≤ limits.epochs → MaySwitchOn limits 0 nothing_loaded first_epoch 0 no_states no_files }
{}

/// A disk with one entry, which creates a repository, recovers to it.
pub fn one_entry_recovers()
    ensures files { (limits : Limits) → 1 ≤ limits.positions → run one_entry (recovery limits) ≡ Ok one_loaded }
    ensures states { (limits : Limits) → 1 ≤ limits.positions → Loads limits (one_loaded ∷ []) one_entry_states }
{}

/// It may be switched to an epoch that has the repository, with the entry applied.
pub fn one_entry_may_be_applied()
    ensures { (limits : Limits) → 1 ≤ limits.positions → 1 ≤ limits.epochs → MaySwitchOn limits 1 one_loaded created_epoch 1 one_entry_states one_entry }
{}
