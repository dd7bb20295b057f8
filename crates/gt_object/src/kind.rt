ghost use Rattle.std.specs.Prelude.{◌≡◌};
ghost use Rattle.gt_object.specs.Header.{word};

/// What an object is.
#[derive(Clone, Copy, Debug, PartialEq, Eq)]
pub enum Kind {
    /// A state of a tree, with the commits before it.
    Commit,
    /// A list of entries, each a mode, a name and an object.
    Tree,
    /// The content of a file.
    Blob,
    /// A name that was given to an object, with a message.
    Tag,
}

impl Kind {
    /// The word that stands in a record's header: `commit`, `tree`, `blob` or `tag`.
    pub fn word(self) -> &'static [u8]
        ensures { result.now ≡ word self }
    {
        match self {
            Kind::Commit => b"commit",
            Kind::Tree => b"tree",
            Kind::Blob => b"blob",
            Kind::Tag => b"tag",
        }
    }
}
