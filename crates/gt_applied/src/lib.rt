//! Laws of applications: the files that a plan writes, and those that it keeps, hold the content at the new applied position.
#![tactic(auto)]

mod laws;

pub use laws::{
    applications_hold_the_content, bases_list_their_repositories, built_entries_keep_good_pools,
    few_entries_add_few_files,
};
