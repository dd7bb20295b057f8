ghost use Rattle.std.specs.Prelude.{◌≡◌, ◌++◌, map as map_list, IfOk, OnOk, OnErr};
ghost use Rattle.std.specs.List.{flat_map};
ghost use Rattle.std.specs.Option.{option_copied};
ghost use Rattle.std.specs.BTreeMap.{IsOrdered};
ghost use Rattle.std.specs.FinMap as map;
ghost use Rattle.gt_model.specs.Contents.{key_cmp};
ghost use Rattle.gt_model.specs.NamedFiles.{shelf_files};
ghost use Rattle.gt_plain.specs.Plain.{and_missing};

use crate::PlainShelf;
use crate::files::add_shelf;
use gt_disk::FileId;
use gt_list::NoMemory;
use gt_plain_jobs::Text;
use std::alloc::Global;
use std::collections::BTreeMap;
use std::marker::Model;

/// The files of repositories, by their paths.
#[derive(Drop)]
pub struct PlainShelves {
    tree: BTreeMap<Text, PlainShelf>,
}

impl Model for PlainShelves {
    ghost use Rattle.std.specs.FinMap as map;
    ghost use Rattle.std.specs.FinMap.{FinMap};
    ghost use Rattle.gt_model.specs.Contents.{key_cmp};
    ghost use Rattle.gt_model.specs.NamedFiles.{Shelf};
    ghost use Rattle.gt_plain_files.specs.Seen.{shelves_code};

    ghost Value = { FinMap key_cmp Shelf };

    ghost coded = { shelves_code };

    ghost view = { λ s. map.from_entries s.tree.entries };
}

impl PlainShelves {
    /// None.
    pub fn new(alloc: Global) -> PlainShelves
        ensures { result ≡ map.empty }
    {
        PlainShelves {
            tree: BTreeMap::new(alloc),
        }
    }

    /// The files at a path.
    pub fn get(&self, path: &Text) -> Option<&PlainShelf>
        ensures { option_copied result ≡ map.get self.now path.now }
    {
        self.tree.get(path)
    }

    /// Sets the files at a path.
    pub fn set(&mut self, path: Text, shelf: PlainShelf) -> Result<(), NoMemory>
        ensures ok { OnOk result (self.new ≡ map.insert self.old path shelf) }
        ensures err { OnErr result (self.new ≡ self.old) }
    {
        self.tree.insert(path, shelf)?;
        Ok(())
    }

    /// A copy.
    pub fn copy(&self, alloc: Global) -> Result<PlainShelves, NoMemory>
        ensures { IfOk result (λ s. s ≡ self.now) }
    {
        let tree = copied(alloc, &self.tree)?;
        Ok(PlainShelves { tree })
    }

    /// Adds all their files, in order of the paths.
    pub(crate) fn add_files(&self, alloc: Global, files: &mut Vec<FileId>) -> Result<(), NoMemory>
        ensures { OnOk result (files.new.items ≡ files.old.items ++ flat_map (λ e. shelf_files e.1) (map.entries self.now)) }
    {
        add_all(alloc, files, &self.tree)
    }
}

/// Sets a shelf where its path has none.
fn add_missing(
    tree: &mut BTreeMap<Text, PlainShelf>,
    path: Text,
    shelf: PlainShelf,
) -> Result<(), NoMemory>
    ensures { OnOk result (map.from_entries {R = key_cmp} tree.new.entries ≡ and_missing (map.from_entries tree.old.entries) (path, shelf)) }
{
    if tree.contains_key(&path) {
        return Ok(());
    }
    match tree.insert(path, shelf) {
        Ok(_) => Ok(()),
        Err(_) => Err(NoMemory),
    }
}

fn copied(
    alloc: Global,
    tree: &BTreeMap<Text, PlainShelf>,
) -> Result<BTreeMap<Text, PlainShelf>, NoMemory>
    ensures { IfOk result (λ t. map.from_entries {R = key_cmp} t.entries ≡ map.from_entries tree.now.entries) }
{
    let mut copy = BTreeMap::new(alloc);
    for (path, shelf) in tree.iter() {
        add_missing(
            &mut copy,
            Text::of(alloc, path.bytes())?,
            shelf.copy(alloc)?,
        )?;
    }
    Ok(copy)
}

fn add_all(
    alloc: Global,
    files: &mut Vec<FileId>,
    tree: &BTreeMap<Text, PlainShelf>,
) -> Result<(), NoMemory>
    ensures files { OnOk result (files.new.items ≡ files.old.items ++ flat_map (λ e. shelf_files e.1) tree.now.entries) }
    ensures ordered { IsOrdered key_cmp tree.now }
{
    for (_path, shelf) in tree.iter() {
        add_shelf(alloc, files, shelf)?;
    }
    Ok(())
}
