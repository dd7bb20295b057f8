/// The field that begins at `at`, counted in bytes from 0, can't be read: too few bytes are left, or it has a value that may
/// not stand there. A reader whose only error it is takes no memory.
#[derive(Clone, Copy, Debug, PartialEq, Eq)]
pub struct Short {
    /// The place where the field begins.
    pub at: usize,
}
