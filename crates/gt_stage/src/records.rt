ghost use Rattle.std.specs.Prelude.{◌≡◌, [], Some, ◌+◌, ◌<◌, ◌^◌, IfOk, OnOk, OnErr, slice_get, length, map, false, All};
ghost use Rattle.std.specs.Option.{option_map, option_copied};
ghost use Rattle.sha1.specs.Sha1.{sha1};
ghost use Rattle.gt_stage.specs.Staging.{has_record, own_record, with_put, size, IsEachOnce};

use gt_list::NoMemory;
use gt_model::{Added, AddedRecords};
use gt_name::Name;
use gt_object::Record;
use indexmap::IndexMap;
use std::alloc::Global;
use std::marker::Model;

/// Records under their names, in order of first putting, and their bytes together. Contracts see their list.
#[derive(Drop)]
pub(crate) struct StagedRecords {
    table: IndexMap<Name, Record>,
    size: u64,
}

impl Model for StagedRecords {
    ghost use Rattle.std.specs.Prelude.{List};
    ghost use Rattle.gt_model.specs.declared.added.Added.{Added};

    ghost Value = { List Added };

    ghost use Rattle.gt_stage.specs.Layout.{added_of, IsCounted};

    ghost view = { λ s. added_of s.table.entries };

    ghost invariant = { λ s. IsCounted s.table.entries s.size };
}

impl StagedRecords {
    pub(crate) fn new(alloc: Global) -> StagedRecords
        ensures { result ≡ [] }
    {
        StagedRecords {
            table: IndexMap::new(alloc),
            size: 0,
        }
    }

    /// The record under a name.
    pub(crate) fn get(&self, name: &Name) -> Option<&Record>
        ensures { option_copied result ≡ own_record self.now name.now }
    {
        self.table.get(name)
    }

    pub(crate) fn has(&self, name: &Name) -> bool
        ensures { result ≡ has_record self.now name.now }
    {
        self.table.contains_key(name)
    }

    pub(crate) fn len(&self) -> usize
        ensures len { result ≡ length self.now }
        ensures distinct { IsEachOnce (map (λ a. a.name) self.now) }
        ensures named { All (λ a. sha1 a.whole ≡ a.name) self.now }
    {
        // for the prover
        let _ = self.size;
        self.table.len()
    }

    /// The bytes of all records together.
    pub(crate) fn size(&self) -> u64
        ensures { result ≡ size self.now }
    {
        self.size
    }

    pub(crate) fn at(&self, i: usize) -> Option<(Name, &Record)>
        ensures { option_map (λ p. record { name = p.0; whole = p.1.now }) result ≡ slice_get self.now i }
    {
        match self.table.get_index(i) {
            Some((name, whole)) => Some((*name, whole)),
            None => None,
        }
    }

    /// A copy of the record of this index, under its name.
    fn copy_at(&self, i: usize) -> Result<Added, NoMemory>
        requires { i < length self.now }
        ensures { IfOk result (λ added. slice_get self.now i ≡ Some added) }
    {
        match self.at(i) {
            Some((name, whole)) => Ok(Added {
                name,
                whole: whole.clone()?,
            }),
            None => unreachable!(),
        }
    }

    /// A copy of all of them.
    pub(crate) fn to_list(&self, alloc: Global) -> Result<AddedRecords, NoMemory>
        ensures { IfOk result (λ list. list ≡ self.now) }
    {
        let mut list = AddedRecords::new(alloc);
        for i in 0..self.len() {
            list.push(self.copy_at(i)?)?;
        }
        Ok(list)
    }

    /// A record whose name isn't there, under this name, which is its own.
    pub(crate) fn add(&mut self, name: Name, whole: Record) -> Result<(), NoMemory>
        requires absent { has_record self.old name ≡ false }
        requires named { sha1 whole ≡ name }
        requires fits { size self.old + length whole < 2 ^ 64 }
        ensures ok { OnOk result (self.new ≡ with_put self.old whole) }
        ensures err { OnErr result (self.new ≡ self.old) }
    {
        let size = self.size + whole.bytes().len() as u64;
        match self.table.insert(name, whole) {
            Ok(_) => {
                self.size = size;
                Ok(())
            }
            Err(_) => Err(NoMemory),
        }
    }
}
