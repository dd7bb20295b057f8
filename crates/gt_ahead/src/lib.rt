//! Laws of what the files of a partition recover to, for the calls that change them: which files hold it, which calls leave
//! it, and how it goes on from one base, and one entry, to the next.
#![tactic(auto)]

mod examples;
mod laws;

pub use examples::{
    no_files_may_be_switched, no_files_recover_to_nothing, one_entry_may_be_applied,
    one_entry_recovers,
};
pub use laws::{
    a_later_base_reads_on, a_switch_goes_from_old_to_new, an_added_entry_is_read,
    an_addition_goes_from_old_to_new, calls_elsewhere_keep_what_loads,
    calls_on_gate_leave_old_or_new, calls_on_turn_leave_old_or_new,
    calls_that_leave_nothing_new_keep_what_loads, lengths_tell_which_loads, new_files_hold_nothing,
    old_files_hold_nothing, still_files_have_one_recovery, unnamed_files_hold_nothing,
    what_is_recovered_tells_by_which_files,
};
