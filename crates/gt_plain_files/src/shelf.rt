ghost use Rattle.std.specs.Prelude.{◌≡◌, ◌∷◌, ◌++◌, [], List, ◌+◌, filter, nat_le, nat_lt, map as map_list, IfOk};
ghost use Rattle.std.specs.FinMap as map;
ghost use Rattle.gt_model.specs.Batches.{NewFile};
ghost use Rattle.gt_model.specs.NamedFiles.{no_shelf, placed, refs_from, rearranged, taken_out};
ghost use Rattle.gt_plain_jobs.specs.Files.{new_file};

use crate::PlainNumbers;
use gt_list::NoMemory;
use gt_model::Change;
use gt_plain_jobs::{PlainFile, Text};
use std::alloc::Global;
use std::marker::Model;

/// The files of a repository: packs in order of search, the packed references or 0, and the file of each loose reference.
#[derive(Drop)]
pub struct PlainShelf {
    packs: Vec<u64>,
    packed: u64,
    refs: PlainNumbers,
}

impl Model for PlainShelf {
    ghost use Rattle.gt_model.specs.NamedFiles.{Shelf};
    ghost use Rattle.gt_plain_files.specs.Seen.{shelf_code};

    ghost Value = { Shelf };

    ghost coded = { shelf_code };

    ghost view = { λ s. record { packs = s.packs.items; packed = s.packed; refs = s.refs } };
}

impl PlainShelf {
    /// Nothing.
    pub fn new(alloc: Global) -> PlainShelf
        ensures { result ≡ no_shelf }
    {
        PlainShelf {
            packs: Vec::new(alloc),
            packed: 0,
            refs: PlainNumbers::new(alloc),
        }
    }

    /// A copy.
    pub fn copy(&self, alloc: Global) -> Result<PlainShelf, NoMemory>
        ensures { IfOk result (λ s. s ≡ self.now) }
    {
        let packs = Vec::from_slice(alloc, &self.packs)?;
        let refs = self.refs.copy(alloc)?;
        Ok(PlainShelf {
            packs,
            packed: self.packed,
            refs,
        })
    }

    /// Its packs, in order of search.
    pub fn packs(&self) -> &[u64]
        ensures { result.now ≡ self.now.packs }
    {
        &self.packs
    }

    /// The number of its packed references, or 0.
    pub fn packed(&self) -> u64
        ensures { result ≡ self.now.packed }
    {
        self.packed
    }

    /// The numbers of its loose references' files, in order of their names.
    pub fn loose(&self, alloc: Global) -> Result<Vec<u64>, NoMemory>
        ensures { IfOk result (λ v. v.items ≡ map_list (λ r. r.1) (map.entries self.now.refs)) }
    {
        self.refs.list(alloc)
    }
}

fn with_pack(shelf: PlainShelf, number: u64) -> Result<PlainShelf, NoMemory>
    ensures { IfOk result (λ s. s ≡ record shelf { packs = shelf.packs ++ number ∷ [] }) }
{
    let mut packs = shelf.packs;
    packs.push(number)?;
    Ok(PlainShelf {
        packs,
        packed: shelf.packed,
        refs: shelf.refs,
    })
}

fn with_loose(shelf: PlainShelf, name: Text, number: u64) -> Result<PlainShelf, NoMemory>
    ensures { IfOk result (λ s. s ≡ record shelf { refs = map.insert shelf.refs name number }) }
{
    let mut refs = shelf.refs;
    refs.set(name, number)?;
    Ok(PlainShelf {
        packs: shelf.packs,
        packed: shelf.packed,
        refs,
    })
}

/// One new file more.
fn with_file(
    alloc: Global,
    shelf: PlainShelf,
    number: u64,
    file: &PlainFile,
) -> Result<PlainShelf, NoMemory>
    ensures { IfOk result (λ s. (rest : List NewFile) → placed number (new_file file.now ∷ rest) shelf ≡ placed (number + 1) rest s) }
{
    match file {
        PlainFile::Pack => with_pack(shelf, number),
        PlainFile::Loose(name) => with_loose(shelf, Text::of(alloc, name.bytes())?, number),
    }
}

/// New files from this number on.
pub(crate) fn placed(
    alloc: Global,
    number: u64,
    files: &[PlainFile],
    shelf: PlainShelf,
) -> Result<PlainShelf, NoMemory>
    ensures { IfOk result (λ s. s ≡ placed number (map_list new_file files.now) shelf) }
{
    let mut shelf = shelf;
    let mut next = number;
    for file in files {
        shelf = with_file(alloc, shelf, next, file)?;
        next = next.checked_add(1).ok_or(NoMemory)?;
    }
    Ok(shelf)
}

/// A pack first, in place of those below it.
fn with_first(alloc: Global, shelf: PlainShelf, file: u64) -> Result<PlainShelf, NoMemory>
    ensures { IfOk result (λ s. s ≡ record shelf { packs = file ∷ filter (λ n. nat_le file n) shelf.packs }) }
{
    let packs = first_of(alloc, file, file, &shelf.packs)?;
    Ok(PlainShelf {
        packs,
        packed: shelf.packed,
        refs: shelf.refs,
    })
}

fn first_of(alloc: Global, file: u64, least: u64, packs: &[u64]) -> Result<Vec<u64>, NoMemory>
    ensures { IfOk result (λ v. v.items ≡ file ∷ filter (λ n. nat_le least n) packs.now) }
{
    let mut kept = Vec::new(alloc);
    kept.push(file)?;
    for number in packs {
        if least <= *number {
            kept.push(*number)?;
        }
    }
    Ok(kept)
}

/// A pack before the others.
fn with_before(alloc: Global, shelf: PlainShelf, file: u64) -> Result<PlainShelf, NoMemory>
    ensures { IfOk result (λ s. s ≡ record shelf { packs = file ∷ shelf.packs }) }
{
    let mut packs = Vec::new(alloc);
    packs.push(file)?;
    packs.extend_from_slice(&shelf.packs)?;
    Ok(PlainShelf {
        packs,
        packed: shelf.packed,
        refs: shelf.refs,
    })
}

/// Packed references in place of the loose files below them.
fn with_packed(alloc: Global, shelf: PlainShelf, file: u64) -> Result<PlainShelf, NoMemory>
    ensures { IfOk result (λ s. s ≡ record shelf { packed = file; refs = refs_from file shelf.refs }) }
{
    let refs = shelf.refs.least(alloc, file)?;
    Ok(PlainShelf {
        packs: shelf.packs,
        packed: file,
        refs,
    })
}

/// What a change makes of a repository's files.
pub(crate) fn rearranged(
    alloc: Global,
    change: &Change,
    shelf: PlainShelf,
) -> Result<PlainShelf, NoMemory>
    ensures { IfOk result (λ s. s ≡ rearranged change.now shelf) }
{
    match change {
        Change::Repack { file, dropped: _ } => with_first(alloc, shelf, *file),
        Change::Prune { file, dropped: _ } => with_first(alloc, shelf, *file),
        Change::PackRefs { file } => with_packed(alloc, shelf, *file),
        Change::Unlink { file } => with_before(alloc, shelf, *file),
        Change::Delete => Ok(PlainShelf::new(alloc)),
        Change::Create { .. } => Ok(shelf),
        Change::Link { .. } => Ok(shelf),
        Change::Write { .. } => Ok(shelf),
    }
}

fn below(alloc: Global, file: u64, packs: &[u64]) -> Result<Vec<u64>, NoMemory>
    ensures { IfOk result (λ v. v.items ≡ filter (λ n. nat_lt n file) packs.now) }
{
    let mut out = Vec::new(alloc);
    for number in packs {
        if *number < file {
            out.push(*number)?;
        }
    }
    Ok(out)
}

/// The packs that a change takes out.
pub(crate) fn taken_out(
    alloc: Global,
    change: &Change,
    shelf: &PlainShelf,
) -> Result<Vec<u64>, NoMemory>
    ensures { IfOk result (λ v. v.items ≡ taken_out change.now shelf.now) }
{
    match change {
        Change::Repack { file, dropped: _ } => below(alloc, *file, shelf.packs()),
        Change::Prune { file, dropped: _ } => below(alloc, *file, shelf.packs()),
        Change::Delete => Ok(Vec::from_slice(alloc, shelf.packs())?),
        Change::PackRefs { .. } => Ok(Vec::new(alloc)),
        Change::Unlink { .. } => Ok(Vec::new(alloc)),
        Change::Create { .. } => Ok(Vec::new(alloc)),
        Change::Link { .. } => Ok(Vec::new(alloc)),
        Change::Write { .. } => Ok(Vec::new(alloc)),
    }
}
