use gt_disk::FileId;
use gt_list::ListOf;

/// Files of a disk, one after the other.
pub type FileIds = ListOf<FileId>;
