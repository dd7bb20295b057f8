/// A call of a disk in memory that is to fail.
#[derive(Clone, Copy, Debug, PartialEq, Eq)]
pub struct Fault {
    /// The number of the call, from 0. `tick` and `faults` don't count as calls.
    pub call: u64,
    /// How many bytes of a written or appended piece are there after the failure. After a failed
    /// removal the file is still there where this is 0, and absent otherwise.
    pub kept: u64,
}
