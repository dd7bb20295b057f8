/// Why a base was not switched.
#[derive(Clone, Copy, Debug, PartialEq, Eq)]
pub enum SwitchError {
    /// A device failed before the append to turn began: no stop leaves the new base.
    Untouched,
    /// A device failed from then on: the new base counts or doesn't, and the base is in doubt.
    Unsure,
    /// Memory ran out: no stop leaves the new base.
    Memory,
}
