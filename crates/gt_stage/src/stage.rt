ghost use Rattle.std.specs.Prelude.{◌≡◌, ◌↔◌, ◌+◌, [], IsTrue, IfOk, OnOk, OnErr, slice_get, length, nat_lt};
ghost use Rattle.std.specs.Option.{option_map, option_copied};
ghost use Rattle.sha1.specs.Sha1.{sha1};
ghost use Rattle.gt_stage.specs.Staging.{empty_stage, staged_set, staged_check, staged_put, is_over_refs, is_over_bytes, own_ref, own_record, size, HasReason, IsClean};

use crate::StageError;
use crate::records::StagedRecords;
use crate::refs::StagedRefs;
use gt_list::NoMemory;
use gt_model::{AddedRecords, RefUpdates};
use gt_name::{Name, RefName};
use gt_object::Record;
use std::alloc::Global;
use std::marker::Model;

/// What a transaction has staged. Contracts see the updates and checks in order of first staging, the records in order
/// of first putting, and the limits.
///
/// One reference has one update or check. Its first `set` or `verify` fixes its place and its old value, and its last
/// `set` the new value. A look-up costs the same however much is staged.
#[derive(Drop)]
pub struct Stage {
    refs: StagedRefs,
    records: StagedRecords,
    max_bytes: u64,
    max_refs: u32,
}

impl Model for Stage {
    ghost use Rattle.gt_stage.specs.Staging.{Holding};

    ghost Value = { Holding };

    ghost view = { λ s. record { staged = record { refs = s.refs; records = s.records }; max_bytes = s.max_bytes; max_refs = s.max_refs } };
}

impl Stage {
    /// An empty stage for 33,554,432 bytes of records together and 10,000 references. It takes no memory.
    pub fn new(alloc: Global) -> Stage
        ensures { result ≡ empty_stage 33554432 10000 }
    {
        Stage::with_room(alloc, 33_554_432, 10_000)
    }

    /// An empty stage with these limits: the bytes of its records together, headers counted, and its references,
    /// checks counted. It takes no memory.
    pub fn with_room(alloc: Global, bytes: u64, refs: u32) -> Stage
        ensures { result ≡ empty_stage bytes refs }
    {
        Stage {
            refs: StagedRefs::new(alloc),
            records: StagedRecords::new(alloc),
            max_bytes: bytes,
            max_refs: refs,
        }
    }

    /// Stages a record, and answers its name. Where a record of that name is staged, that one stays.
    ///
    /// `StageFull` exactly where a new record makes more bytes than the limit. After a refusal all stands.
    pub fn put(&mut self, whole: Record) -> Result<Name, StageError>
        ensures name { IfOk result (λ name. name ≡ sha1 whole) }
        ensures ok { OnOk result (self.new ≡ staged_put self.old whole) }
        ensures err { OnErr result (self.new ≡ self.old) }
        ensures reason { HasReason (is_over_bytes self.old whole) result }
    {
        let name = whole.name();
        if self.records.has(&name) {
            return Ok(name);
        }
        if self.lacks_room(whole.bytes().len()) {
            return Err(StageError::StageFull);
        }
        match self.records.add(name, whole) {
            Ok(()) => Ok(name),
            Err(_) => Err(StageError::Memory),
        }
    }

    /// Stages an update: the reference is expected at the old value (zero where it isn't there) and gets the new one
    /// (zero where it is deleted). Where the reference is staged, its first old value stays and the one that is given
    /// here isn't looked at.
    ///
    /// `StageFull` exactly where a new reference makes more references than the limit. After a refusal all stands.
    pub fn set(&mut self, name: RefName, old: Name, new: Name) -> Result<(), StageError>
        ensures ok { OnOk result (self.new ≡ staged_set self.old name old new) }
        ensures err { OnErr result (self.new ≡ self.old) }
        ensures reason { HasReason (is_over_refs self.old name) result }
    {
        if self.is_over(&name) {
            return Err(StageError::StageFull);
        }
        match self.refs.set(name, old, new) {
            Ok(()) => Ok(()),
            Err(_) => Err(StageError::Memory),
        }
    }

    /// Stages a check: the reference is expected at the old value (zero where it isn't there), and stays. Where the
    /// reference is staged, nothing changes.
    ///
    /// `StageFull` exactly where a new reference makes more references than the limit. After a refusal all stands.
    pub fn verify(&mut self, name: RefName, old: Name) -> Result<(), StageError>
        ensures ok { OnOk result (self.new ≡ staged_check self.old name old) }
        ensures err { OnErr result (self.new ≡ self.old) }
        ensures reason { HasReason (is_over_refs self.old name) result }
    {
        if self.is_over(&name) {
            return Err(StageError::StageFull);
        }
        if self.refs.has(&name) {
            return Ok(());
        }
        match self.refs.check(name, old) {
            Ok(()) => Ok(()),
            Err(_) => Err(StageError::Memory),
        }
    }

    /// Whether a reference is new and there are as many as the limit.
    fn is_over(&self, name: &RefName) -> bool
        ensures { result ≡ is_over_refs self.now name.now }
    {
        !self.refs.has(name) && self.max_refs as usize <= self.refs.len()
    }

    /// Whether this many bytes more are over the limit.
    fn lacks_room(&self, len: usize) -> bool
        ensures { result ≡ nat_lt self.now.max_bytes (size self.now.staged.records + len) }
    {
        let used = self.records.size();
        used > self.max_bytes || len as u64 > self.max_bytes - used
    }

    /// The new value that is staged for a reference, zero where it is deleted. None for a check, and where nothing is
    /// staged. It takes no memory.
    pub fn own_ref(&self, name: &RefName) -> Option<Name>
        ensures { result ≡ own_ref self.now.staged.refs name.now }
    {
        match self.refs.get(name) {
            Some(staged) => staged.new,
            None => None,
        }
    }

    /// The record that is staged under a name. It takes no memory.
    pub fn own_record(&self, name: &Name) -> Option<&Record>
        ensures { option_copied result ≡ own_record self.now.staged.records name.now }
    {
        self.records.get(name)
    }

    /// Whether no reference and no record is staged. It takes no memory.
    pub fn is_empty(&self) -> bool
        ensures { IsTrue result ↔ ((self.now.staged.refs ≡ []) × (self.now.staged.records ≡ [])) }
    {
        self.refs.len() == 0 && self.records.len() == 0
    }

    /// How many references are staged, checks counted.
    pub fn refs_len(&self) -> usize
        ensures { result ≡ length self.now.staged.refs }
    {
        self.refs.len()
    }

    /// How many records are staged.
    pub fn records_len(&self) -> usize
        ensures { result ≡ length self.now.staged.records }
    {
        self.records.len()
    }

    /// The reference of this index in order of first staging, from 0, with its old value and its new one, which a check
    /// has none of. None exactly from `refs_len` on. It takes no memory.
    pub fn ref_at(&self, i: usize) -> Option<(&RefName, Name, Option<Name>)>
        ensures { option_map (λ p. record { name = p.0.now; old = p.1; new = p.2 }) result ≡ slice_get self.now.staged.refs i }
    {
        match self.refs.at(i) {
            Some((name, staged)) => Some((name, staged.old, staged.new)),
            None => None,
        }
    }

    /// The record of this index in order of first putting, from 0, with its name. None exactly from `records_len` on.
    /// It takes no memory.
    pub fn record_at(&self, i: usize) -> Option<(Name, &Record)>
        ensures { option_map (λ p. record { name = p.0; whole = p.1.now }) result ≡ slice_get self.now.staged.records i }
    {
        self.records.at(i)
    }

    /// A copy of the updates and checks, in order of first staging.
    pub fn refs(&self, alloc: Global) -> Result<RefUpdates, NoMemory>
        ensures { IfOk result (λ list. list ≡ self.now.staged.refs) }
    {
        self.refs.to_list(alloc)
    }

    /// A copy of the records under their names, in order of first putting.
    pub fn records(&self, alloc: Global) -> Result<AddedRecords, NoMemory>
        ensures { IfOk result (λ list. list ≡ self.now.staged.records) }
    {
        self.records.to_list(alloc)
    }

    /// Does nothing when it runs: the prover reads the invariants of both lists here.
    pub(crate) fn open(&self)
        ensures { IsClean self.now.staged }
    {
        let _ = self.refs.len();
        let _ = self.records.len();
    }
}
