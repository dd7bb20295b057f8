/// The name of a file on a disk: a kind of file, and a number among the files of that kind.
/// Files are ordered by kind, then by number.
#[derive(Clone, Copy, Debug, PartialEq, Eq, PartialOrd, Ord, Hash)]
pub struct FileId {
    pub kind: u8,
    pub number: u64,
}
