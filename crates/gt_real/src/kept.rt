use crate::trouble::{Trouble, during};
use gt_disk::FileId;
use std::fs::{File, OpenOptions};
use std::io::Write;
use std::rt::Files;

/// A file that was changed and is still open, so that its sync needn't open it again.
#[derive(Drop)]
pub(crate) struct Kept<F: Drop> {
    pub(crate) file: FileId,
    pub(crate) open: F,
    /// Whether a stop leaves its name in the folder.
    pub(crate) is_named: bool,
}

impl<F: Drop> Kept<F> {
    pub(crate) fn is_of(&self, file: FileId) -> bool {
        self.file == file
    }
}

/// Replaces a whole file.
pub(crate) fn replaced<R: Files>(
    rt: &R,
    path: &str,
    file: FileId,
    bytes: &[u8],
) -> Result<Kept<R::File>, Trouble> {
    let mut open = during("create", File::create(rt, path))?;
    during("write", open.write_all(bytes))?;
    Ok(Kept {
        file,
        open,
        is_named: false,
    })
}

/// Opens a file to append, and makes it where it is absent.
pub(crate) fn opened_to_append<R: Files>(
    rt: &R,
    path: &str,
    file: FileId,
) -> Result<Kept<R::File>, Trouble> {
    let mut options = OpenOptions::new();
    options.append(true).create(true);
    let open = during("open", options.open(rt, path))?;
    Ok(Kept {
        file,
        open,
        is_named: false,
    })
}

/// Keeps a file unless it is this one.
pub(crate) fn other_than<F: Drop>(kept: Option<Kept<F>>, file: FileId) -> Option<Kept<F>> {
    match kept {
        Some(kept) if !kept.is_of(file) => Some(kept),
        _ => None,
    }
}
