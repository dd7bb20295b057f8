/// The first bad place of a text that isn't 40 hex digits in lower case.
#[derive(Clone, Copy, Debug, PartialEq, Eq)]
pub struct BadName {
    /// In bytes, from 0.
    pub at: usize,
}

/// Why a text is no name of a reference or no path of a repository.
#[derive(Clone, Copy, Debug, PartialEq, Eq)]
pub enum NameError {
    /// The first broken rule of a reference's name, by its number from 1, and the place where it is broken, in bytes from 0.
    BadRef { rule: u8, at: usize },
    /// The first rule of a path that is broken is broken here, in bytes from 0.
    BadPath { at: usize },
    /// Memory ran out.
    Memory,
}
