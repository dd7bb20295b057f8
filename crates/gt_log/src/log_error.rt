/// Why an entry was not added.
#[derive(Clone, Copy, Debug, PartialEq, Eq)]
pub enum LogError {
    /// A device failed before the append to the gate began: no stop leaves the entry.
    Untouched,
    /// A device failed from then on: the entry is in or out, and the log is in doubt.
    Unsure,
    /// Memory ran out: no stop leaves the entry.
    Memory,
}
