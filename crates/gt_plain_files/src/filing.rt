ghost use Rattle.std.specs.Prelude.{◌≡◌, [], ◌++◌, map as map_list, IfOk, OnOk};
ghost use Rattle.std.specs.FinMap as map;
ghost use Rattle.gt_model.specs.NamedFiles.{shelf_at, with_shelf, filed};

use crate::shelf::{rearranged, taken_out};
use crate::{PlainShelf, PlainShelves};
use gt_list::NoMemory;
use gt_model::Entry;
use gt_plain_jobs::Text;
use std::alloc::Global;
use std::marker::Model;

/// A pack that the entry at this position took out of the manifest.
#[derive(Drop)]
pub struct PlainTaken {
    position: u64,
    number: u64,
}

impl Model for PlainTaken {
    ghost use Rattle.gt_model.specs.NamedFiles.{Taken};
    ghost use Rattle.gt_plain_files.specs.Seen.{taken_code};

    ghost Value = { Taken };

    ghost coded = { taken_code };

    ghost view = { λ t. record { position = t.position; number = t.number } };
}

impl PlainTaken {
    pub fn position(&self) -> u64
        ensures { result ≡ self.now.position }
    {
        self.position
    }

    pub fn number(&self) -> u64
        ensures { result ≡ self.now.number }
    {
        self.number
    }
}

/// The files of each repository, and the packs that were taken out since the opening.
#[derive(Drop)]
pub struct PlainFiling {
    shelves: PlainShelves,
    taken: Vec<PlainTaken>,
}

impl Model for PlainFiling {
    ghost use Rattle.gt_model.specs.NamedFiles.{Filing};
    ghost use Rattle.gt_plain_files.specs.Seen.{filing_code};

    ghost Value = { Filing };

    ghost coded = { filing_code };

    ghost view = { λ f. record { shelves = f.shelves; taken = f.taken.items } };
}

impl PlainFiling {
    /// No file, and no pack taken out.
    pub fn new(alloc: Global) -> PlainFiling
        ensures { result ≡ record { shelves = map.empty; taken = [] } }
    {
        PlainFiling {
            shelves: PlainShelves::new(alloc),
            taken: Vec::new(alloc),
        }
    }

    /// A copy.
    pub fn copy(&self, alloc: Global) -> Result<PlainFiling, NoMemory>
        ensures { IfOk result (λ f. f ≡ self.now) }
    {
        let shelves = self.shelves.copy(alloc)?;
        let taken = copied(alloc, &self.taken)?;
        Ok(PlainFiling { shelves, taken })
    }

    /// As it is at an opening: no pack was taken out since.
    pub fn opened(self, alloc: Global) -> PlainFiling
        ensures { result ≡ record self { taken = [] } }
    {
        PlainFiling {
            shelves: self.shelves,
            taken: Vec::new(alloc),
        }
    }

    /// The files of each repository.
    pub fn shelves(&self) -> &PlainShelves
        ensures { result.now ≡ self.now.shelves }
    {
        &self.shelves
    }

    /// The packs that were taken out.
    pub fn taken(&self) -> &[PlainTaken]
        ensures { result.now ≡ self.now.taken }
    {
        &self.taken
    }

    /// A copy of the files at a path.
    pub(crate) fn shelf_at(&self, alloc: Global, path: &Text) -> Result<PlainShelf, NoMemory>
        ensures { IfOk result (λ s. s ≡ shelf_at self.now path.now) }
    {
        match self.shelves.get(path) {
            Some(shelf) => shelf.copy(alloc),
            None => Ok(PlainShelf::new(alloc)),
        }
    }
}

fn copied(alloc: Global, taken: &[PlainTaken]) -> Result<Vec<PlainTaken>, NoMemory>
    ensures { IfOk result (λ v. v.items ≡ taken.now) }
{
    let mut copy = Vec::new(alloc);
    for item in taken {
        copy.push(PlainTaken {
            position: item.position(),
            number: item.number(),
        })?;
    }
    Ok(copy)
}

/// With other files at a path.
pub(crate) fn with_shelf(
    filing: PlainFiling,
    path: Text,
    shelf: PlainShelf,
) -> Result<PlainFiling, NoMemory>
    ensures { IfOk result (λ f. f ≡ with_shelf filing path shelf) }
{
    let mut shelves = filing.shelves;
    shelves.set(path, shelf)?;
    Ok(PlainFiling {
        shelves,
        taken: filing.taken,
    })
}

/// Adds packs that the entry at this position took out.
fn add_taken(taken: &mut Vec<PlainTaken>, position: u64, numbers: &[u64]) -> Result<(), NoMemory>
    ensures { OnOk result (taken.new.items ≡ taken.old.items ++ map_list (λ n. record { position = position; number = n }) numbers.now) }
{
    for number in numbers {
        taken.push(PlainTaken {
            position,
            number: *number,
        })?;
    }
    Ok(())
}

/// What an entry makes of the files.
pub(crate) fn filed(
    alloc: Global,
    filing: PlainFiling,
    entry: &Entry,
) -> Result<PlainFiling, NoMemory>
    ensures { IfOk result (λ f. f ≡ filed filing entry.now) }
{
    let path = Text::of(alloc, entry.path.bytes())?;
    let shelf = filing.shelf_at(alloc, &path)?;
    let out = taken_out(alloc, &entry.change, &shelf)?;
    let shelf = rearranged(alloc, &entry.change, shelf)?;
    let mut shelves = filing.shelves;
    shelves.set(path, shelf)?;
    let mut taken = filing.taken;
    add_taken(&mut taken, entry.position, &out)?;
    Ok(PlainFiling { shelves, taken })
}
