// What a stop at a moment leaves of all files.
ghost use Rattle.std.specs.Prelude.{◌≡◌, ◌≤◌, false, length, take, [], IfOk, OnOk};
ghost use Rattle.gt_disk.specs.declared.file_id.FileId.{FileId};
ghost use Rattle.gt_disk.specs.Calls.{cell_at, content, content_of, same_file, stepped};
ghost use Rattle.gt_disk.specs.Contents.{Puts};
ghost use Rattle.gt_disk.specs.Stopped.{cell_in, cell_of, chosen};

use crate::call::Call;
use crate::contents::copy_files;
use crate::records::Records;
use crate::replayed::Replayed;
use crate::{FileId, Stop};
use std::alloc::{AllocError, Global};
use std::collections::BTreeMap;

impl Records {
    /// The files that a stop at a moment leaves, by choice, on a disk that begins with them.
    pub fn stopped(&self, alloc: Global, tick: usize, choice: Stop) -> Result<Records, AllocError>
        requires { tick ≤ length self.now.calls.items }
        ensures chosen { IfOk result (λ r. (f : FileId) → content_of r.start f ≡ chosen choice (cell_at self.now.start f (take tick self.now.calls.items))) }
        ensures calls { IfOk result (λ r. r.calls.items ≡ []) }
        ensures spare { IfOk result (λ r. r.spare ≡ 0) }
    {
        let cells = replay(alloc, &self.start, &self.calls[..tick])?;
        let start = copy_files(&self.start)?;
        let left = leave_all(alloc, start, cells, choice)?;
        let files = copy_files(&left)?;
        Records::of_files(alloc, left, files)
    }
}

// The files that calls changed.
fn replay(
    alloc: Global,
    start: &BTreeMap<FileId, Vec<u8>>,
    calls: &[Call],
) -> Result<BTreeMap<FileId, Replayed>, AllocError>
    ensures { IfOk result (λ cells. (f : FileId) → cell_in start.now cells f ≡ cell_at start.now f calls.now) }
{
    let mut cells = BTreeMap::new(alloc);
    for call in calls {
        replay_one(alloc, start, &mut cells, call)?;
    }
    Ok(cells)
}

fn replay_one(
    alloc: Global,
    start: &BTreeMap<FileId, Vec<u8>>,
    cells: &mut BTreeMap<FileId, Replayed>,
    call: &Call,
) -> Result<(), AllocError>
    ensures { OnOk result ((f : FileId) → cell_in start.now cells.new f ≡ stepped f (cell_in start.now cells.old f) call.now) }
{
    let file = call.file();
    let before = take_cell(alloc, start, cells, file)?;
    let after = before.after(alloc, call)?;
    match cells.insert(file, after) {
        Ok(_) => Ok(()),
        Err(_) => Err(AllocError),
    }
}

// Takes out a file, as it was at the start where no call has changed it.
fn take_cell(
    alloc: Global,
    start: &BTreeMap<FileId, Vec<u8>>,
    cells: &mut BTreeMap<FileId, Replayed>,
    file: FileId,
) -> Result<Replayed, AllocError>
    ensures cell { IfOk result (λ cell. cell_of cell ≡ cell_in start.now cells.old file) }
    ensures others { (f : FileId) → same_file file f ≡ false → cell_in start.now cells.new f ≡ cell_in start.now cells.old f }
{
    match cells.remove(&file) {
        Some(cell) => Ok(cell),
        None => Ok(Replayed::Still(copy_of(alloc, start, file)?)),
    }
}

fn copy_of(
    alloc: Global,
    files: &BTreeMap<FileId, Vec<u8>>,
    file: FileId,
) -> Result<Option<Vec<u8>>, AllocError>
    ensures { IfOk result (λ v. content v ≡ content_of files.now file) }
{
    match files.get(&file) {
        Some(bytes) => Ok(Some(bytes.as_slice().to_vec(alloc)?)),
        None => Ok(None),
    }
}

// The files of the start, with what a stop leaves of those that calls changed.
fn leave_all(
    alloc: Global,
    mut files: BTreeMap<FileId, Vec<u8>>,
    mut cells: BTreeMap<FileId, Replayed>,
    choice: Stop,
) -> Result<BTreeMap<FileId, Vec<u8>>, AllocError>
    ensures { IfOk result (λ left. (f : FileId) → content_of left f ≡ chosen choice (cell_in files cells f)) }
{
    while let Some((file, cell)) = cells.pop_first() {
        let left = cell.left(alloc, choice)?;
        put(&mut files, file, left)?;
    }
    Ok(files)
}

fn put(
    files: &mut BTreeMap<FileId, Vec<u8>>,
    file: FileId,
    bytes: Option<Vec<u8>>,
) -> Result<(), AllocError>
    ensures { OnOk result (Puts files.old files.new file (content bytes)) }
{
    match bytes {
        Some(bytes) => match files.insert(file, bytes) {
            Ok(_) => Ok(()),
            Err(_) => Err(AllocError),
        },
        None => {
            files.remove(&file);
            Ok(())
        }
    }
}
