//! What a reader of this store must believe: contents, entries, the verdict of a commit, the machine of one partition,
//! and its history.
#![tactic(auto)]

mod added;
mod answer;
mod change;
mod done;
mod entry;
mod event;
mod job;
mod laws;
mod limits;
mod look;
mod machine_laws;
mod needer;
mod reference;
mod refusal;
mod trail;
mod turn;
mod update;
mod who;
mod word;

pub use added::{Added, AddedRecords};
pub use answer::Answer;
pub use change::Change;
pub use done::Done;
pub use entry::{Entry, EntryList};
pub use event::Event;
pub use job::Job;
pub use laws::{
    contents_add_up, good_commits_keep_contents_sound, good_commits_say_what_they_need,
    later_entries_leave_earlier_positions, legal_logs_find_old_values,
    legal_logs_have_legal_fronts, what_is_reached_is_present, writes_leave_other_references,
};
pub use limits::Limits;
pub use look::Look;
pub use machine_laws::{
    aborts_are_certain, begins_never_fail, begins_show_what_was_seen, failed_applications_stay,
    faults_end_jobs, nothing_is_damaged, only_live_pins_step, openings_are_parts,
    prunes_are_decided, refusals_stand, runs_keep_what_they_acknowledged, steps_are_decided,
    steps_only_grow, trims_are_decided,
};
pub use needer::Needer;
pub use reference::{RefAt, RefList, RefValue, RefsAt};
pub use refusal::Refusal;
pub use trail::Trail;
pub use turn::Turn;
pub use update::{RefUpdate, RefUpdates};
pub use who::Who;
pub use word::Word;
