ghost use Rattle.std.specs.Prelude.{◌≡◌, ◌≤◌, ◌<◌, ◌↔◌, IfOk, IfSome, OnOk, IsOk, IsErr, length, true, false};
ghost use Rattle.gt_disk.specs.Files.{IsPast};
ghost use Rattle.gt_disk.specs.Untold.{untold};

use crate::counting::{counted, counted_change};
use crate::file_set::FileSet;
use crate::filling::fill;
use crate::kept::{Kept, opened_to_append, other_than, replaced};
use crate::making::owned_folder;
use crate::naming::path_of;
use crate::trouble::{Trouble, during, tell, tell_of_file, unless_absent};
use gt_disk::{Disk, DiskError, Failed, FileId};
use std::fs;
use std::fs::{File, OpenFile, remove_file};
use std::io::{Error, ErrorKind, Seek, SeekFrom, Write};
use std::rt::Files;

/// A folder as a disk: one file for each, named `<kind>-<number>` in decimal. It tells nothing of content. Its clock counts the
/// changes that were begun, and where the clock is at its end no more can be.
///
/// As long as it is open nobody else opens the folder as a disk, in this process or another one: the folder is locked, and the
/// system takes the lock away with the process. After a sync that failed each later change and sync fails: what the system
/// dropped then no later sync makes last. A disk that is opened anew begins again.
///
/// A call of the system that fails is told on standard error, with the file and the system's error.
#[derive(Drop)]
pub struct FolderDisk<R: Files<File = File> + Eprint + AllocGlobal + Clone + Drop> {
    rt: R,
    path: String,
    folder: File,
    replaced: Option<Kept<File>>,
    appended: Option<Kept<File>>,
    names: Option<FileSet>,
    has_failed_sync: bool,
    faults: u64,
    changes: u64,
}

// The length of the longest file that the system can seek in, and 1.
const END_OF_PLACES: u64 = 0x8000_0000_0000_0000;

impl<R: Files<File = File> + Eprint + AllocGlobal + Clone + Drop> FolderDisk<R> {
    /// Opens the folder of this path, and makes it where it is absent. Its parent has to be there. It fails where the folder is
    /// open as a disk already.
    pub fn open(rt: R, path: String) -> Result<FolderDisk<R>, Failed>
        ensures { IfOk result (λ disk. ⟦<FolderDisk<R> as Disk>⟧.fault_count disk ≡ 0) }
    {
        FolderDisk::open_counted(rt, path, 0, 0)
    }

    /// As `open`, with this many faults and changes so far.
    pub(crate) fn open_counted(
        rt: R,
        path: String,
        faults: u64,
        changes: u64,
    ) -> Result<FolderDisk<R>, Failed>
        ensures count { IfOk result (λ disk. ⟦<FolderDisk<R> as Disk>⟧.fault_count disk ≡ faults) }
        ensures view { IfOk result (λ disk. ⟦<FolderDisk<R> as Disk>⟧.view disk ≡ untold changes) }
    {
        let owned = owned_folder(&rt, path.as_str());
        tell(&rt, path.as_str(), &owned);
        match owned {
            Ok(folder) => Ok(FolderDisk {
                rt,
                path,
                folder,
                replaced: None,
                appended: None,
                names: None,
                has_failed_sync: false,
                faults,
                changes,
            }),
            Err(_) => Err(Failed),
        }
    }

    // Whether a change can still be made to last.
    fn may_last(&self) -> Result<(), Trouble>
        ensures { IsOk result ↔ (self.now.has_failed_sync ≡ false) }
    {
        if self.has_failed_sync {
            let error = Error::other("an earlier sync of this disk failed");
            return Err(Trouble {
                call: "change",
                error,
            });
        }
        Ok(())
    }

    // Counts a change that can be made to last.
    fn begin_change(&mut self) -> Result<(), Trouble>
        ensures same { (self.new.faults ≡ self.old.faults) × (self.new.has_failed_sync ≡ self.old.has_failed_sync) }
        ensures later { self.old.changes ≤ self.new.changes }
        ensures moves { OnOk result (self.old.changes < self.new.changes) }
        ensures refused { self.old.has_failed_sync ≡ true → IsErr result }
    {
        self.may_last()?;
        match self.changes.checked_add(1) {
            Some(changes) => {
                self.changes = changes;
                Ok(())
            }
            None => Err(Trouble {
                call: "change",
                error: Error::other("the clock of this disk is at its end"),
            }),
        }
    }

    fn try_len(&self, file: FileId) -> Result<Option<u64>, Trouble> {
        let path = during("name", path_of(self.rt.alloc(), self.path.as_str(), file))?;
        let found = unless_absent("stat", fs::metadata(&self.rt, path.as_str()))?;
        Ok(found.map(|found| found.len()))
    }

    fn try_read(&self, file: FileId, at: u64, into: &mut [u8]) -> Result<usize, Trouble>
        ensures { IfOk result (λ count. count ≤ length into.new) }
    {
        let path = during("name", path_of(self.rt.alloc(), self.path.as_str(), file))?;
        let opened = File::open(&self.rt, path.as_str());
        let Some(mut source) = unless_absent("open", opened)? else {
            return Ok(0);
        };
        if at >= END_OF_PLACES {
            return Ok(0);
        }
        match source.seek(SeekFrom::Start(at)) {
            Ok(_) => {}
            // A place past the longest file of the file system is past this file's end.
            Err(error) if error.kind() == ErrorKind::InvalidInput => return Ok(0),
            Err(error) => {
                return Err(Trouble {
                    call: "seek",
                    error,
                });
            }
        }
        // The system refuses a read that would reach past the last place, whatever the file has.
        let room = usize::try_from(END_OF_PLACES - 1 - at).unwrap_or(usize::MAX);
        let end = into.len().min(room);
        during("read", fill(&mut source, &mut into[..end]))
    }

    fn try_write(&mut self, path: &str, file: FileId, bytes: &[u8]) -> Result<(), Trouble>
        ensures same { self.new.faults ≡ self.old.faults }
        ensures later { self.old.changes ≤ self.new.changes }
        ensures moves { OnOk result (self.old.changes < self.new.changes) }
        ensures refused { self.old.has_failed_sync ≡ true → IsErr result }
    {
        self.begin_change()?;
        let kept = replaced(&self.rt, path, file, bytes)?;
        self.replaced = Some(kept);
        Ok(())
    }

    fn try_append(&mut self, path: &str, file: FileId, bytes: &[u8]) -> Result<(), Trouble>
        ensures same { self.new.faults ≡ self.old.faults }
        ensures later { self.old.changes ≤ self.new.changes }
        ensures moves { OnOk result (self.old.changes < self.new.changes) }
        ensures refused { self.old.has_failed_sync ≡ true → IsErr result }
    {
        self.begin_change()?;
        let mut kept = match self.appended.take() {
            Some(kept) if kept.is_of(file) => kept,
            _ => opened_to_append(&self.rt, path, file)?,
        };
        during("append to", kept.open.write_all(bytes))?;
        self.appended = Some(kept);
        Ok(())
    }

    // After it a stop leaves the file and its name, or leaves it absent where it is absent.
    fn try_sync(&mut self, file: FileId) -> Result<(), Trouble>
        ensures same { (self.new.faults ≡ self.old.faults) × (self.new.changes ≡ self.old.changes) }
        ensures kept { self.new.has_failed_sync ≡ self.old.has_failed_sync }
        ensures refused { self.old.has_failed_sync ≡ true → IsErr result }
    {
        self.may_last()?;
        if let Some(kept) = &mut self.appended {
            if kept.is_of(file) {
                during("sync", kept.open.sync_all())?;
                if !kept.is_named {
                    during("sync the folder of", self.folder.sync_all())?;
                    kept.is_named = true;
                }
                return Ok(());
            }
        }
        if let Some(kept) = &self.replaced {
            if kept.is_of(file) {
                during("sync", kept.open.sync_all())?;
                return during("sync the folder of", self.folder.sync_all());
            }
        }
        self.sync_by_name(file)
    }

    fn sync_by_name(&self, file: FileId) -> Result<(), Trouble> {
        let path = during("name", path_of(self.rt.alloc(), self.path.as_str(), file))?;
        let opened = File::open(&self.rt, path.as_str());
        if let Some(target) = unless_absent("open", opened)? {
            during("sync", target.sync_all())?;
        }
        during("sync the folder of", self.folder.sync_all())
    }

    // A sync that fails is remembered.
    fn sync_once(&mut self, file: FileId) -> Result<(), Trouble>
        ensures same { (self.new.faults ≡ self.old.faults) × (self.new.changes ≡ self.old.changes) }
        ensures remembered { IsErr result → self.new.has_failed_sync ≡ true }
        ensures refused { self.old.has_failed_sync ≡ true → IsErr result }
    {
        let answer = self.try_sync(file);
        if answer.is_err() {
            self.has_failed_sync = true;
        }
        answer
    }

    fn try_remove(&mut self, file: FileId) -> Result<(), Trouble>
        ensures same { self.new.faults ≡ self.old.faults }
        ensures later { self.old.changes ≤ self.new.changes }
        ensures moves { OnOk result (self.old.changes < self.new.changes) }
        ensures refused { self.old.has_failed_sync ≡ true → IsErr result }
    {
        self.begin_change()?;
        let path = during("name", path_of(self.rt.alloc(), self.path.as_str(), file))?;
        unless_absent("remove", remove_file(&self.rt, path.as_str()))?;
        Ok(())
    }

    fn try_list(&mut self, after: Option<FileId>) -> Result<Option<FileId>, Trouble>
        ensures past { IfOk result (λ next. IfSome next (IsPast after)) }
        ensures same { (self.new.faults ≡ self.old.faults) × (self.new.changes ≡ self.old.changes) }
    {
        if let Some(names) = &self.names {
            return Ok(names.next(after));
        }
        let names = during("list", FileSet::scanned(&self.rt, self.path.as_str()))?;
        let next = names.next(after);
        self.names = Some(names);
        Ok(next)
    }

    // The names after a change that should have left this file there. After a failed one the folder is read again.
    fn note_there(&mut self, file: FileId, is_sure: bool)
        ensures { (self.new.faults ≡ self.old.faults) × (self.new.changes ≡ self.old.changes) }
    {
        if let Some(mut names) = self.names.take() {
            if is_sure && names.add(file).is_ok() {
                self.names = Some(names);
            }
        }
    }

    // The names after a change that should have left this file absent.
    fn note_absent(&mut self, file: FileId, is_sure: bool)
        ensures { (self.new.faults ≡ self.old.faults) × (self.new.changes ≡ self.old.changes) }
    {
        self.replaced = other_than(self.replaced.take(), file);
        self.appended = other_than(self.appended.take(), file);
        if let Some(mut names) = self.names.take() {
            if is_sure {
                names.remove(file);
                self.names = Some(names);
            }
        }
    }
}

impl<R: Files<File = File> + Eprint + AllocGlobal + Clone + Drop> Disk for FolderDisk<R> {
    ghost use Rattle.std.specs.Prelude.{false, refl};

    ghost tells = { false };

    ghost view = { λ disk. untold disk.changes };

    ghost fault_count = { λ disk. disk.faults };

    ghost shows = { λ _ _. λ _. refl };

    fn tick(&self) -> u64 {
        self.changes
    }

    fn faults(&self) -> u64 {
        self.faults
    }

    fn len(&mut self, file: FileId) -> Result<Option<u64>, Failed> {
        let answer = self.try_len(file);
        tell_of_file(&self.rt, self.path.as_str(), file, &answer);
        counted(&mut self.faults, answer)
    }

    fn read_at(&mut self, file: FileId, at: u64, into: &mut [u8]) -> Result<usize, Failed> {
        let answer = self.try_read(file, at, into);
        tell_of_file(&self.rt, self.path.as_str(), file, &answer);
        counted(&mut self.faults, answer)
    }

    fn write(&mut self, file: FileId, bytes: &[u8]) -> Result<(), DiskError> {
        let Ok(path) = path_of(self.rt.alloc(), self.path.as_str(), file) else {
            return Err(DiskError::Memory);
        };
        let answer = self.try_write(path.as_str(), file, bytes);
        tell_of_file(&self.rt, self.path.as_str(), file, &answer);
        self.note_there(file, answer.is_ok());
        counted_change(&mut self.faults, answer)
    }

    fn append(&mut self, file: FileId, bytes: &[u8]) -> Result<(), DiskError> {
        let Ok(path) = path_of(self.rt.alloc(), self.path.as_str(), file) else {
            return Err(DiskError::Memory);
        };
        let answer = self.try_append(path.as_str(), file, bytes);
        tell_of_file(&self.rt, self.path.as_str(), file, &answer);
        self.note_there(file, answer.is_ok());
        counted_change(&mut self.faults, answer)
    }

    fn sync(&mut self, file: FileId) -> Result<(), Failed> {
        let answer = self.sync_once(file);
        tell_of_file(&self.rt, self.path.as_str(), file, &answer);
        counted(&mut self.faults, answer)
    }

    fn remove(&mut self, file: FileId) -> Result<(), Failed> {
        let answer = self.try_remove(file);
        tell_of_file(&self.rt, self.path.as_str(), file, &answer);
        self.note_absent(file, answer.is_ok());
        counted(&mut self.faults, answer)
    }

    fn list(&mut self, after: Option<FileId>) -> Result<Option<FileId>, Failed> {
        let answer = self.try_list(after);
        tell(&self.rt, self.path.as_str(), &answer);
        counted(&mut self.faults, answer)
    }
}
