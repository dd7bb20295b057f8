//! What the rows of the drivers over the plain model have in common: words that are read, the parts of a change, and words
//! that are printed.
#![tactic(auto)]

mod pending;
mod reading;
mod shown;

pub use pending::{Pending, change_of};
pub use reading::{name_of, names_of, number, path_of, record_of, ref_of, refs_of, update_of};
pub use shown::{
    put, put_answer, put_is, put_name, put_names, put_number, put_refusal, put_value, show,
};
