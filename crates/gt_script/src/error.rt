/// Why a line gives no request, or an answer no line.
#[derive(Clone, Copy, Debug, PartialEq, Eq)]
pub enum LineError {
    /// The line isn't of the language. The place is in bytes, from 0.
    BadLine { at: usize },
    /// Memory ran out.
    Memory,
}
