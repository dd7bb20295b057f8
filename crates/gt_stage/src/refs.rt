ghost use Rattle.std.specs.Prelude.{◌≡◌, ◌<◌, [], Some, None, IfOk, OnOk, OnErr, slice_get, length, map, false};
ghost use Rattle.std.specs.Option.{option_map};
ghost use Rattle.gt_stage.specs.Staging.{has_ref, with_set, with_check, IsEachOnce};
ghost use Rattle.gt_stage.specs.Layout.{staged_in, with_new};

use gt_list::NoMemory;
use gt_model::{RefUpdate, RefUpdates};
use gt_name::{Name, RefName};
use indexmap::IndexMap;
use std::alloc::Global;
use std::marker::Model;

/// What is staged of a reference: the value that is expected there, and the one that it gets. None is a check.
#[derive(Clone, Copy)]
pub(crate) struct StagedRef {
    pub(crate) old: Name,
    pub(crate) new: Option<Name>,
}

/// Updates and checks in order of first staging. Contracts see their list.
#[derive(Drop)]
pub(crate) struct StagedRefs {
    table: IndexMap<RefName, StagedRef>,
}

impl Model for StagedRefs {
    ghost use Rattle.std.specs.Prelude.{List};
    ghost use Rattle.gt_model.specs.declared.update.RefUpdate.{RefUpdate};

    ghost Value = { List RefUpdate };

    ghost use Rattle.gt_stage.specs.Layout.{updates_of, HasDistinctKeys};

    ghost view = { λ s. updates_of s.table.entries };

    ghost invariant = { λ s. HasDistinctKeys s.table.entries };
}

impl StagedRefs {
    pub(crate) fn new(alloc: Global) -> StagedRefs
        ensures { result ≡ [] }
    {
        StagedRefs {
            table: IndexMap::new(alloc),
        }
    }

    /// What is staged of a reference.
    pub(crate) fn get(&self, name: &RefName) -> Option<StagedRef>
        ensures { result ≡ staged_in self.now name.now }
    {
        self.table.get(name).copied()
    }

    pub(crate) fn has(&self, name: &RefName) -> bool
        ensures { result ≡ has_ref self.now name.now }
    {
        self.table.contains_key(name)
    }

    pub(crate) fn len(&self) -> usize
        ensures len { result ≡ length self.now }
        ensures distinct { IsEachOnce (map (λ u. u.name) self.now) }
    {
        self.table.len()
    }

    pub(crate) fn at(&self, i: usize) -> Option<(&RefName, StagedRef)>
        ensures { option_map (λ p. record { name = p.0.now; old = p.1.old; new = p.1.new }) result ≡ slice_get self.now i }
    {
        match self.table.get_index(i) {
            Some((name, staged)) => Some((name, *staged)),
            None => None,
        }
    }

    /// A copy of the update or check of this index.
    fn copy_at(&self, i: usize) -> Result<RefUpdate, NoMemory>
        requires { i < length self.now }
        ensures { IfOk result (λ update. slice_get self.now i ≡ Some update) }
    {
        match self.at(i) {
            Some((name, staged)) => Ok(RefUpdate {
                name: name.clone()?,
                old: staged.old,
                new: staged.new,
            }),
            None => unreachable!(),
        }
    }

    /// A copy of all of them.
    pub(crate) fn to_list(&self, alloc: Global) -> Result<RefUpdates, NoMemory>
        ensures { IfOk result (λ list. list ≡ self.now) }
    {
        let mut list = RefUpdates::new(alloc);
        for i in 0..self.len() {
            list.push(self.copy_at(i)?)?;
        }
        Ok(list)
    }

    /// The new value of a reference. One that is staged keeps its place and its old value.
    pub(crate) fn set(&mut self, name: RefName, old: Name, new: Name) -> Result<(), NoMemory>
        ensures ok { OnOk result (self.new ≡ with_set self.old name old new) }
        ensures err { OnErr result (self.new ≡ self.old) }
    {
        let staged = with_new(self.table.get(&name).copied(), old, new);
        match self.table.insert(name, staged) {
            Ok(_) => Ok(()),
            Err(_) => Err(NoMemory),
        }
    }

    /// A check of a reference that isn't staged.
    pub(crate) fn check(&mut self, name: RefName, old: Name) -> Result<(), NoMemory>
        requires { has_ref self.old name ≡ false }
        ensures ok { OnOk result (self.new ≡ with_check self.old name old) }
        ensures err { OnErr result (self.new ≡ self.old) }
    {
        match self.table.insert(name, StagedRef { old, new: None }) {
            Ok(_) => Ok(()),
            Err(_) => Err(NoMemory),
        }
    }
}

/// The first old value, or else this one, and the new value.
fn with_new(first: Option<StagedRef>, old: Name, new: Name) -> StagedRef
    ensures { result ≡ with_new first old new }
{
    StagedRef {
        old: first.map_or(old, |staged| staged.old),
        new: Some(new),
    }
}
