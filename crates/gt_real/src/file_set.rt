// The files of a folder in order, so that a whole listing needn't scan the folder at each call.
ghost use Rattle.std.specs.Prelude.{IfSome, IsTrue};
ghost use Rattle.gt_disk.specs.Files.{IsPast};

use crate::naming::file_of;
use gt_disk::FileId;
use std::alloc::{AllocError, Global};
use std::collections::BTreeSet;
use std::fs::read_dir;
use std::io;
use std::io::ErrorKind;
use std::ops::Bound;
use std::rt::Files;

/// The files of a folder, whose names are `<kind>-<number>`. Every other name is passed over.
#[derive(Drop)]
pub(crate) struct FileSet {
    files: BTreeSet<FileId>,
}

impl FileSet {
    /// Reads the folder of this path.
    pub(crate) fn scanned<R: Files + AllocGlobal + Clone + Drop>(
        rt: &R,
        path: &str,
    ) -> io::Result<FileSet> {
        let mut files = BTreeSet::new(rt.alloc());
        for entry in read_dir(rt, path)? {
            match entry {
                Ok(entry) => {
                    if let Some(file) = file_of(entry.file_name()) {
                        files.insert(file)?;
                    }
                }
                // A name that isn't text.
                Err(error) if error.kind() == ErrorKind::InvalidFilename => {}
                Err(error) => return Err(error),
            }
        }
        Ok(FileSet { files })
    }

    /// This file is there now.
    pub(crate) fn add(&mut self, file: FileId) -> Result<(), AllocError> {
        self.files.insert(file)?;
        Ok(())
    }

    /// This file is absent now.
    pub(crate) fn remove(&mut self, file: FileId) {
        self.files.remove(&file);
    }

    /// The least file after this one, by kind and then by number.
    pub(crate) fn next(&self, after: Option<FileId>) -> Option<FileId>
        ensures { IfSome result (IsPast after) }
    {
        match after {
            Some(file) => self
                .files
                .range((Bound::Excluded(file), Bound::Unbounded))
                .next()
                .copied(),
            None => self.files.first().copied(),
        }
    }
}
