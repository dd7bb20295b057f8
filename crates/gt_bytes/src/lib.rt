//! The fields that files are made of, read and written exactly: big-endian numbers, names of 20 bytes, texts with a
//! length, and lists with a count (docs/FORMATS.md, "Fields").
//!
//! A reader takes the whole bytes and a place in them, and answers the value and the place after it, or the place where
//! the first field begins that can't be read. So places are absolute, and readers are put together with `?`.
#![tactic(auto)]

mod error;
mod get;
mod item;
mod laws;
mod list;
mod put;
mod short;
mod word;

pub use error::FieldError;
pub use get::{get_name, get_text, get_u8, get_u16, get_u32, get_u64};
pub use item::Item;
pub use laws::{fields_are_exact, fields_are_read_again};
pub use list::{put_list, read_list};
pub use put::{put_name, put_text, put_u8, put_u16, put_u32, put_u64};
pub use short::Short;
pub use word::read_word;
