use gt_list::ListOf;

/// Bytes, as they stand in a line.
pub type Word = ListOf<u8>;
