/// Why nothing was staged.
#[derive(Clone, Copy, Debug, PartialEq, Eq)]
pub enum StageError {
    /// The stage has as many bytes of records or as many references as its limit allows.
    StageFull,
    /// Memory ran out.
    Memory,
}
