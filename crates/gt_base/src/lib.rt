//! What the files of a partition recover to: a manifest, the files that it names, and the entries past them.
#![tactic(auto)]

mod base;
mod built;
mod held;
mod laws;
mod reading;
mod repos;
mod switch_error;
mod switching;

pub use base::Base;
pub use built::is_built;
pub use held::{BaseContent, BaseRepo, HeldPack, HeldPacks};
pub use laws::{
    calls_elsewhere_leave_recovery, names_of_a_base_are_placed,
    records_of_a_base_stand_in_its_packs, recovery_goes_by_these_files,
};
pub use switch_error::SwitchError;
