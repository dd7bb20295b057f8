//! The program's language: a line of a script is read as a request (`parse_line` has the grammar), and an answer is
//! written as a line. Both are exact.
#![tactic(auto)]

mod done;
mod error;
mod form;
mod forms;
mod laws;
mod lines;
mod numbers;
mod parse;
mod print;
mod readers;
mod refusals;
mod request;
mod tails;
mod texts;
mod values;
mod verb;
mod words;

pub use error::LineError;
pub use form::Form;
pub use laws::{answers_print_differently, numbers_are_their_digits};
pub use parse::parse_line;
pub use print::print_answer;
pub use request::Request;
