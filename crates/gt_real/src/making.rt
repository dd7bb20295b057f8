use crate::trouble::{Trouble, during};
use std::fs::{File, OpenFile, TryLockError};
use std::io::{Error, ErrorKind};
use std::path::Path;
use std::rt::Files;
use std::{fs, io};

/// Makes a folder where it is absent. A stop after it leaves the folder there.
pub(crate) fn make_folder<R: Files>(rt: &R, path: &str) -> Result<(), Trouble> {
    during("make the folder", unless_there(fs::create_dir(rt, path)))?;
    // The name of a folder stands in its parent. It is synced also where the folder was there: an earlier run may have
    // stopped in between.
    let parent = during("open the folder of", File::open(rt, parent_of(path)))?;
    during("sync the folder of", parent.sync_all())
}

fn unless_there(answer: io::Result<()>) -> io::Result<()> {
    match answer {
        Err(error) if error.kind() == ErrorKind::AlreadyExists => Ok(()),
        answer => answer,
    }
}

/// Makes a folder where it is absent, opens it, and locks it as long as the handle is open.
pub(crate) fn owned_folder<R: Files<File = File>>(rt: &R, path: &str) -> Result<File, Trouble> {
    make_folder(rt, path)?;
    let folder = during("open", File::open(rt, path))?;
    during("lock", locked(folder.try_lock()))?;
    Ok(folder)
}

fn locked(answer: Result<(), TryLockError>) -> io::Result<()> {
    match answer {
        Ok(()) => Ok(()),
        Err(TryLockError::WouldBlock) => {
            let words = "it is in use, by this process or another one";
            Err(Error::new(ErrorKind::WouldBlock, words))
        }
        Err(TryLockError::Error(error)) => Err(error),
    }
}

fn parent_of(path: &str) -> &str {
    match Path::new(path).parent() {
        Some(parent) if !parent.as_str().is_empty() => parent.as_str(),
        Some(_) => ".",
        None => path,
    }
}
