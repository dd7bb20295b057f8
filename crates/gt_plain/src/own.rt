ghost use Rattle.std.specs.Prelude.{◌≡◌, IfOk, OnOk, OnErr};
ghost use Rattle.std.specs.Option.{option_copied};
ghost use Rattle.std.specs.FinMap as map;
ghost use Rattle.std.specs.BTreeMap.{IsOrdered};
ghost use Rattle.gt_model.specs.Contents.{key_cmp, with_added, without, union};
ghost use Rattle.gt_plain.specs.Plain.{and_missing, with_missing};

use gt_list::NoMemory;
use gt_model::Added;
use gt_name::Name;
use gt_object::Record;
use std::alloc::{AllocError, Global};
use std::collections::BTreeMap;
use std::marker::Model;

/// The records of a repository's own objects, by their names.
#[derive(Drop)]
pub struct PlainOwn {
    tree: BTreeMap<Name, Record>,
}

impl Model for PlainOwn {
    ghost use Rattle.std.specs.FinMap as map;
    ghost use Rattle.gt_model.specs.Contents.{Names};
    ghost use Rattle.gt_plain.specs.Plain.{names_code};

    ghost Value = { Names };

    ghost coded = { names_code };

    ghost view = { λ r. map.from_entries r.tree.entries };
}

impl Clone for PlainOwn {
    ghost is_clone = { λ a b. b ≡ a };

    fn clone(&self) -> Result<PlainOwn, AllocError> {
        let tree = self.tree.clone()?;
        Ok(PlainOwn { tree })
    }
}

impl PlainOwn {
    /// No object.
    pub fn new(alloc: Global) -> PlainOwn
        ensures { result ≡ map.empty }
    {
        PlainOwn {
            tree: BTreeMap::new(alloc),
        }
    }

    /// The record under a name.
    pub fn get(&self, name: &Name) -> Option<&Record>
        ensures { option_copied result ≡ map.get self.now name.now }
    {
        self.tree.get(name)
    }

    /// Names and records, ascending by name.
    pub fn entries(&self, alloc: Global) -> Result<Vec<(Name, Record)>, NoMemory>
        ensures { IfOk result (λ v. v.items ≡ map.entries self.now) }
    {
        copies_of(alloc, &self.tree)
    }

    /// Sets the record under a name.
    pub(crate) fn set(&mut self, name: Name, whole: Record) -> Result<(), NoMemory>
        ensures ok { OnOk result (self.new ≡ map.insert self.old name whole) }
        ensures err { OnErr result (self.new ≡ self.old) }
    {
        self.tree.insert(name, whole)?;
        Ok(())
    }

    /// Takes an object away.
    pub(crate) fn remove(&mut self, name: &Name)
        ensures { self.new ≡ map.remove self.old name.now }
    {
        let _ = self.tree.remove(name);
    }

    /// Sets a copy of a record.
    fn copy_in(&mut self, name: Name, whole: &Record) -> Result<(), NoMemory>
        ensures ok { OnOk result (self.new ≡ map.insert self.old name whole.now) }
        ensures err { OnErr result (self.new ≡ self.old) }
    {
        match whole.clone() {
            Ok(whole) => self.set(name, whole),
            Err(_) => Err(NoMemory),
        }
    }

    /// Adds records in order.
    pub(crate) fn add_all(&mut self, records: &[Added]) -> Result<(), NoMemory>
        ensures { OnOk result (self.new ≡ with_added self.old records.now) }
    {
        for record in records {
            if let Err(error) = self.copy_in(record.name, &record.whole) {
                return Err(error);
            }
        }
        Ok(())
    }

    /// Takes objects away.
    pub fn remove_all(&mut self, names: &[Name])
        ensures { self.new ≡ without self.old names.now }
    {
        for name in names {
            self.remove(name);
        }
    }

    /// Sets a copy of a record where its name has none.
    fn copy_missing(&mut self, name: Name, whole: &Record) -> Result<(), NoMemory>
        ensures ok { OnOk result (self.new ≡ and_missing self.old (name, whole.now)) }
    {
        match self.get(&name) {
            Some(_) => Ok(()),
            None => self.copy_in(name, whole),
        }
    }

    /// Adds the objects of another that it doesn't have.
    pub(crate) fn unite(&mut self, other: &PlainOwn) -> Result<(), NoMemory>
        ensures { OnOk result (self.new ≡ union self.old other.now) }
    {
        copy_all_missing(self, &other.tree)
    }
}

fn copies_of(alloc: Global, tree: &BTreeMap<Name, Record>) -> Result<Vec<(Name, Record)>, NoMemory>
    ensures copies { IfOk result (λ v. v.items ≡ tree.now.entries) }
    ensures ordered { IsOrdered key_cmp tree.now }
{
    let mut copies = Vec::new(alloc);
    for (name, whole) in tree.iter() {
        copies.push((*name, whole.clone()?))?;
    }
    Ok(copies)
}

fn copy_all_missing(own: &mut PlainOwn, tree: &BTreeMap<Name, Record>) -> Result<(), NoMemory>
    ensures ok { OnOk result (own.new ≡ with_missing own.old tree.now.entries) }
    ensures ordered { IsOrdered key_cmp tree.now }
{
    for (name, whole) in tree.iter() {
        if let Err(error) = own.copy_missing(*name, whole) {
            return Err(error);
        }
    }
    Ok(())
}
