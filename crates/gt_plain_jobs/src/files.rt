use crate::Text;

/// A new file of an application.
#[derive(Drop)]
pub enum PlainFile {
    /// The pack of the records that are added to a repository.
    Pack,
    /// The file of one of its references.
    Loose(Text),
}
