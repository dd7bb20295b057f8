ghost use Rattle.std.specs.Prelude.{◌≡◌, ◌&&◌, not, find, IfOk, OnOk, OnErr};
ghost use Rattle.std.specs.List.{list_any};
ghost use Rattle.std.specs.Option.{option_copied};
ghost use Rattle.std.specs.BTreeMap.{IsOrdered};
ghost use Rattle.std.specs.FinMap as map;
ghost use Rattle.gt_model.specs.Contents.{key_cmp, with_value, with_refs};
ghost use Rattle.gt_model.specs.Verdicts.{same_name, clashes, clash_in};

use crate::names::{clashes, is_among};
use gt_list::NoMemory;
use gt_model::RefUpdate;
use gt_name::{Name, RefName};
use std::alloc::{AllocError, Global};
use std::collections::BTreeMap;
use std::marker::Model;

/// What each reference of a repository names.
#[derive(Drop)]
pub struct PlainRefs {
    tree: BTreeMap<RefName, Name>,
}

impl Model for PlainRefs {
    ghost use Rattle.std.specs.FinMap as map;
    ghost use Rattle.gt_model.specs.Contents.{Names};
    ghost use Rattle.gt_plain.specs.Plain.{names_code};

    ghost Value = { Names };

    ghost coded = { names_code };

    ghost view = { λ r. map.from_entries r.tree.entries };
}

impl Clone for PlainRefs {
    ghost is_clone = { λ a b. b ≡ a };

    fn clone(&self) -> Result<PlainRefs, AllocError> {
        let tree = self.tree.clone()?;
        Ok(PlainRefs { tree })
    }
}

impl PlainRefs {
    /// No reference.
    pub fn new(alloc: Global) -> PlainRefs
        ensures { result ≡ map.empty }
    {
        PlainRefs {
            tree: BTreeMap::new(alloc),
        }
    }

    /// What a reference names. None where it isn't there.
    pub fn get(&self, name: &RefName) -> Option<Name>
        ensures { result ≡ map.get self.now name.now }
    {
        self.tree.get(name).copied()
    }

    /// Names and values, ascending by name.
    pub fn entries(&self, alloc: Global) -> Result<Vec<(RefName, Name)>, NoMemory>
        ensures { IfOk result (λ v. v.items ≡ map.entries self.now) }
    {
        copies_of(alloc, &self.tree)
    }

    /// The least reference that clashes with a name and isn't gone.
    pub fn clash(&self, name: &RefName, gone: &[RefName]) -> Option<&RefName>
        ensures { option_copied result ≡ find (λ other. clashes name.now other && not (list_any (same_name other) gone.now)) (map.keys self.now) }
    {
        self.tree
            .keys()
            .find(|other| clashes(name, other) && !is_among(other, gone))
    }

    /// The least reference that clashes with a name.
    pub fn clash_in(&self, name: &RefName) -> Option<&RefName>
        ensures { option_copied result ≡ clash_in self.now name.now }
    {
        self.tree.keys().find(|other| clashes(name, other))
    }

    /// Sets what a reference names.
    pub(crate) fn set(&mut self, name: RefName, value: Name) -> Result<(), NoMemory>
        ensures ok { OnOk result (self.new ≡ map.insert self.old name value) }
        ensures err { OnErr result (self.new ≡ self.old) }
    {
        self.tree.insert(name, value)?;
        Ok(())
    }

    /// Takes a reference away.
    pub(crate) fn remove(&mut self, name: &RefName)
        ensures { self.new ≡ map.remove self.old name.now }
    {
        let _ = self.tree.remove(name);
    }

    /// Makes one update. A check changes nothing.
    pub(crate) fn update(&mut self, update: &RefUpdate) -> Result<(), NoMemory>
        ensures ok { OnOk result (self.new ≡ with_value self.old update.now.name update.now.new) }
        ensures err { OnErr result (self.new ≡ self.old) }
    {
        let Some(value) = update.new else {
            return Ok(());
        };
        if value == Name::ZERO {
            self.remove(&update.name);
            return Ok(());
        }
        match update.name.clone() {
            Ok(name) => self.set(name, value),
            Err(_) => Err(NoMemory),
        }
    }

    /// Makes updates in order.
    pub(crate) fn update_all(&mut self, updates: &[RefUpdate]) -> Result<(), NoMemory>
        ensures { OnOk result (self.new ≡ with_refs self.old updates.now) }
    {
        for update in updates {
            if let Err(error) = self.update(update) {
                return Err(error);
            }
        }
        Ok(())
    }
}

fn copies_of(
    alloc: Global,
    tree: &BTreeMap<RefName, Name>,
) -> Result<Vec<(RefName, Name)>, NoMemory>
    ensures copies { IfOk result (λ v. v.items ≡ tree.now.entries) }
    ensures ordered { IsOrdered key_cmp tree.now }
{
    let mut copies = Vec::new(alloc);
    for (name, value) in tree.iter() {
        copies.push((name.clone()?, *value))?;
    }
    Ok(copies)
}
