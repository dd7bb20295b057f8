//! A record stands where the table of objects places it: laws that tie the places of a content to the spelling of the
//! entries of its log, each proved as the contract of a function that does nothing; and the reading of a record at its
//! place.
#![tactic(auto)]

mod error;
mod laws;
mod reading;

pub use error::ReadError;
pub use laws::{records_stand_where_they_are_placed, seen_records_stand_where_they_are_placed};
pub use reading::fetch;
