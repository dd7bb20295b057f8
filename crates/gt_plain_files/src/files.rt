ghost use Rattle.std.specs.Prelude.{◌≡◌, [], ◌∷◌, ◌++◌, map as map_list, OnOk};
ghost use Rattle.std.specs.FinMap as map;
ghost use Rattle.gt_model.specs.NamedFiles.{file, file_if, shelf_files};

use crate::PlainShelf;
use gt_disk::FileId;
use gt_list::NoMemory;
use std::alloc::Global;

/// Adds a file of this kind.
pub fn add_file(files: &mut Vec<FileId>, kind: u8, number: u64) -> Result<(), NoMemory>
    ensures { OnOk result (files.new.items ≡ files.old.items ++ file kind number ∷ []) }
{
    files.push(FileId { kind, number })?;
    Ok(())
}

/// The same, where the number isn't 0.
pub(crate) fn add_if(files: &mut Vec<FileId>, kind: u8, number: u64) -> Result<(), NoMemory>
    ensures { OnOk result (files.new.items ≡ files.old.items ++ file_if kind number) }
{
    if 0 < number {
        files.push(FileId { kind, number })?;
    }
    Ok(())
}

/// Files of this kind, in order.
fn add_each(files: &mut Vec<FileId>, kind: u8, numbers: &[u64]) -> Result<(), NoMemory>
    ensures { OnOk result (files.new.items ≡ files.old.items ++ map_list (file kind) numbers.now) }
{
    for number in numbers {
        files.push(FileId {
            kind,
            number: *number,
        })?;
    }
    Ok(())
}

/// The files of a repository's loose references.
fn add_loose(alloc: Global, files: &mut Vec<FileId>, shelf: &PlainShelf) -> Result<(), NoMemory>
    ensures { OnOk result (files.new.items ≡ files.old.items ++ map_list (λ r. file 7 r.1) (map.entries shelf.now.refs)) }
{
    let numbers = shelf.loose(alloc)?;
    add_each(files, 7, &numbers)
}

/// The files of a repository.
pub(crate) fn add_shelf(
    alloc: Global,
    files: &mut Vec<FileId>,
    shelf: &PlainShelf,
) -> Result<(), NoMemory>
    ensures { OnOk result (files.new.items ≡ files.old.items ++ shelf_files shelf.now) }
{
    add_each(files, 5, shelf.packs())?;
    add_if(files, 6, shelf.packed())?;
    add_loose(alloc, files, shelf)?;
    Ok(())
}
