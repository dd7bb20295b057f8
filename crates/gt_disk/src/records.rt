// What a disk in memory keeps: its files as a read shows them, and each call that changed them.
ghost use Rattle.std.specs.Prelude.{◌≡◌, ◌≤◌, ◌+◌, ◌*◌, ◌^◌, ◌<◌, ◌++◌, [], ◌∷◌, ℕ, false, true, length, take, Some, None, IfOk, OnOk, OnErr, MatchOption};
ghost use Rattle.std.specs.Vec.{vec_len, vec_capacity};
ghost use Rattle.std.specs.BTreeMap.{btree_map_len};
ghost use Rattle.indexmap.specs.IndexSet.{index_set_len, contains, spare as set_spare};
ghost use Rattle.gt_disk.specs.declared.file_id.FileId.{FileId};
ghost use Rattle.gt_disk.specs.Calls.{cell_at, content_of, same_file, is_still};

use crate::FileId;
use crate::call::Call;
use crate::contents::extend_file;
use indexmap::IndexSet;
use std::alloc::{AllocError, Global};
use std::collections::BTreeMap;

const MAX_SPARE: usize = 1 << 32;

/// The files of a disk in memory, and what it takes to tell what a stop at any moment leaves of them.
#[derive(Drop)]
pub struct Records {
    pub alloc: Global,
    /// The files that the disk began with.
    pub start: BTreeMap<FileId, Vec<u8>>,
    /// The calls that changed it since.
    pub calls: Vec<Call>,
    /// The files as a read shows them.
    pub files: BTreeMap<FileId, Vec<u8>>,
    /// The files that a sync is to make last.
    pub pending: IndexSet<FileId>,
    /// For how many removals that fail there is room.
    pub spare: usize,
    ghost same: { (f : FileId) → (cell_at start f calls.items).shown ≡ content_of files f },
    ghost still: { (f : FileId) → contains same_file pending f ≡ false → is_still (cell_at start f calls.items).state ≡ true },
    // A sync takes a call, and a removal one with the sync after it.
    ghost room: { vec_len calls + index_set_len pending + 2 * btree_map_len files + 2 * spare ≤ vec_capacity calls },
    ghost slots: { btree_map_len files + spare ≤ set_spare pending },
}

impl Records {
    ghost use Rattle.gt_disk.specs.Files.{Becomes, Unchanged, Synced, loose, grow, appended, now, Content};
    ghost use Rattle.gt_disk.specs.Calls.{view_of};

    /// A disk without files.
    pub fn new(alloc: Global) -> Records
        ensures start { (f : FileId) → content_of result.start f ≡ None }
        ensures calls { result.calls.items ≡ [] }
        ensures spare { result.spare ≡ 0 }
    {
        Records {
            alloc,
            start: BTreeMap::new(alloc),
            calls: Vec::new(alloc),
            files: BTreeMap::new(alloc),
            pending: IndexSet::new(alloc),
            spare: 0,
        }
    }

    /// A disk with these files, which last.
    pub fn of_files(
        alloc: Global,
        start: BTreeMap<FileId, Vec<u8>>,
        files: BTreeMap<FileId, Vec<u8>>,
    ) -> Result<Records, AllocError>
        requires { (f : FileId) → content_of files f ≡ content_of start f }
        ensures start { IfOk result (λ r. r.start ≡ start) }
        ensures calls { IfOk result (λ r. r.calls.items ≡ []) }
        ensures spare { IfOk result (λ r. r.spare ≡ 0) }
    {
        let mut calls = Vec::new(alloc);
        let mut pending = IndexSet::new(alloc);
        let count = files.len();
        calls.reserve(2 * count)?;
        pending.reserve(count)?;
        Ok(Records {
            alloc,
            start,
            calls,
            files,
            pending,
            spare: 0,
        })
    }

    // Room for a call on a file, for the sync and the removal that may follow, for the sync after that,
    // and for so many more removals that fail.
    fn make_room(&mut self, more: usize) -> Result<(), AllocError>
        requires { more ≤ 2 ^ 32 }
        ensures same { (self.new.alloc ≡ self.old.alloc) × (self.new.start ≡ self.old.start) × (self.new.files ≡ self.old.files) × (self.new.spare ≡ self.old.spare) }
        ensures items { (self.new.calls.items ≡ self.old.calls.items) × (self.new.pending.keys ≡ self.old.pending.keys) }
        ensures room { OnOk result (vec_len self.new.calls + index_set_len self.new.pending + 2 * btree_map_len self.new.files + 2 * (self.new.spare + more) + 4 ≤ vec_capacity self.new.calls) }
        ensures slots { OnOk result (btree_map_len self.new.files + self.new.spare + more + 2 ≤ set_spare self.new.pending) }
    {
        let slots = self.files.len() + self.spare + more + 2;
        self.calls.reserve(self.pending.len() + 2 * slots)?;
        if self.pending.capacity() - self.pending.len() < slots {
            self.pending.reserve(2 * slots)?;
        }
        Ok(())
    }

    /// Replaces a file.
    pub fn write(&mut self, file: FileId, bytes: &[u8]) -> Result<(), AllocError>
        ensures start { self.new.start ≡ self.old.start }
        ensures written { OnOk result ((view_of self.new.start self.new.calls.items).reads file ≡ Some bytes.now) }
        ensures moment { OnOk result (Becomes file loose (view_of self.old.start self.old.calls.items) (view_of self.new.start self.new.calls.items)) }
        ensures err { OnErr result (self.new.calls.items ≡ self.old.calls.items) }
        ensures spare { self.new.spare ≡ self.old.spare }
    {
        let record = bytes.to_vec(self.alloc)?;
        let content = bytes.to_vec(self.alloc)?;
        self.make_room(0)?;
        if let Err(_) = self.files.insert(file, content) {
            return Err(AllocError);
        }
        self.pending.insert(file).unwrap();
        self.calls.push(Call::Write(file, record)).unwrap();
        Ok(())
    }

    /// Appends the first bytes of a piece.
    pub fn append(&mut self, file: FileId, piece: &[u8], kept: usize) -> Result<(), AllocError>
        requires { kept ≤ length piece.now }
        ensures start { self.new.start ≡ self.old.start }
        ensures appended { OnOk result ((view_of self.new.start self.new.calls.items).reads file ≡ appended ((view_of self.old.start self.old.calls.items).reads file) (take kept piece.now)) }
        ensures moment { OnOk result (Becomes file (grow (length piece.now) (now (view_of self.old.start self.old.calls.items) file)) (view_of self.old.start self.old.calls.items) (view_of self.new.start self.new.calls.items)) }
        ensures err { OnErr result (self.new.calls.items ≡ self.old.calls.items) }
        ensures spare { self.new.spare ≡ self.old.spare }
    {
        let record = piece.to_vec(self.alloc)?;
        self.make_room(0)?;
        extend_file(self.alloc, &mut self.files, file, &piece[..kept])?;
        self.pending.insert(file).unwrap();
        self.calls.push(Call::Append(file, record, kept)).unwrap();
        Ok(())
    }

    /// Makes a file last. Of one that does, no record is kept.
    pub fn sync(&mut self, file: FileId)
        ensures start { self.new.start ≡ self.old.start }
        ensures spare { self.new.spare ≡ self.old.spare }
        ensures moment { Synced file (view_of self.old.start self.old.calls.items) (view_of self.new.start self.new.calls.items) }
    {
        if self.pending.swap_remove(&file) {
            self.calls.push(Call::Sync(file)).unwrap();
        }
    }

    /// Room for so many more removals that fail and leave the file there.
    pub fn take_spare(&mut self, more: usize) -> Result<(), AllocError>
        ensures start { self.new.start ≡ self.old.start }
        ensures same { self.new.calls.items ≡ self.old.calls.items }
        ensures ok { OnOk result (self.new.spare ≡ self.old.spare + more) }
        ensures err { OnErr result (self.new.spare ≡ self.old.spare) }
    {
        if more > MAX_SPARE {
            return Err(AllocError);
        }
        self.make_room(more)?;
        self.spare += more;
        Ok(())
    }

    /// A removal that fails and leaves the file there.
    pub fn leave(&mut self, file: FileId)
        requires { 0 < self.old.spare }
        ensures start { self.new.start ≡ self.old.start }
        ensures spare { self.old.spare ≤ self.new.spare + 1 }
        ensures reads { (view_of self.new.start self.new.calls.items).reads file ≡ (view_of self.old.start self.old.calls.items).reads file }
        ensures moment { MatchOption ((view_of self.old.start self.old.calls.items).reads file) (self.new.calls.items ≡ self.old.calls.items) (λ _. Becomes file loose (view_of self.old.start self.old.calls.items) (view_of self.new.start self.new.calls.items)) }
    {
        if let Some(_) = self.files.get(&file) {
            self.pending.insert(file).unwrap();
            self.calls.push(Call::Remove(file, false)).unwrap();
            self.spare -= 1;
        }
    }

    /// Removes a file. Where it is absent nothing changes.
    pub fn remove(&mut self, file: FileId)
        ensures start { self.new.start ≡ self.old.start }
        ensures removed { (view_of self.new.start self.new.calls.items).reads file ≡ None }
        ensures spare { self.new.spare ≡ self.old.spare }
        ensures moment { MatchOption ((view_of self.old.start self.old.calls.items).reads file) (self.new.calls.items ≡ self.old.calls.items) (λ _. Becomes file loose (view_of self.old.start self.old.calls.items) (view_of self.new.start self.new.calls.items)) }
    {
        if let Some(_) = self.files.remove(&file) {
            self.pending.insert(file).unwrap();
            self.calls.push(Call::Remove(file, true)).unwrap();
        }
    }
}
