use gt_disk::FileId;
use gt_list::ListOf;
use gt_model::AddedRecords;
use gt_name::Name;

/// What a new file has.
#[derive(Drop)]
pub enum NewContent {
    /// A pack of these records, ascending by name.
    Pack(AddedRecords),
    /// The value of one reference; 40 zeros for one that is gone.
    Loose(Name),
}

/// A file that an application adds.
#[derive(Drop)]
pub struct NewFile {
    /// Which file it is.
    pub file: FileId,
    /// What it has.
    pub content: NewContent,
}

/// New files, in order of their numbers.
pub type FileList = ListOf<NewFile>;
