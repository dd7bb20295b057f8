ghost use Rattle.std.specs.Prelude.{◌≡◌, ◌≤◌, IsTrue};
ghost use Rattle.gt_disk.specs.Files.{Quiet};
ghost use Rattle.gt_reading.specs.Reading.{run};
ghost use Rattle.gt_base.specs.Answers.{Reads, HasCause};
ghost use Rattle.gt_base.specs.Held.{items_of};
ghost use Rattle.gt_base.specs.Recovery.{pack_in};

use crate::reading::{damaged, file_bytes};
use gt_disk::{Disk, pack_file};
use gt_list::ListOf;
use gt_log::MountCause;
use gt_model::RefList;
use gt_name::RepoPath;
use gt_pack::{PackError, PackIndex, Placed};
use gt_reftext::PackedList;
use std::alloc::Global;
use std::marker::Model;
use std::snapshot::Snapshot;

/// A pack of a base: the number of its file, and where its records stand. Contracts see its bytes too, which aren't kept.
#[derive(Drop)]
pub struct HeldPack {
    number: u64,
    index: PackIndex,
    bytes: Snapshot<ListOf<u8>>,
}

impl Model for HeldPack {
    ghost use Rattle.std.specs.Prelude.{◌≡◌, Ok};
    ghost use Rattle.gt_pack.specs.Reading.{pack_of};
    ghost use Rattle.gt_base.specs.Packs.{PackFile, pack_code};

    ghost Value = { PackFile };

    ghost coded = { pack_code };

    ghost view = { λ p. record { number = p.number; bytes = p.bytes.value } };

    ghost invariant = { λ p. pack_of p.bytes.value ≡ Ok p.index };
}

impl HeldPack {
    /// Reads a pack.
    pub(crate) fn read<D: Disk>(
        alloc: Global,
        disk: &mut D,
        number: u64,
    ) -> Result<HeldPack, MountCause>
        ensures quiet { IsTrue D.tells → Quiet (D.view disk.old) (D.view disk.new) }
        ensures later { (D.view disk.old).clock ≤ (D.view disk.new).clock }
        ensures cause { HasCause (D.fault_count disk.old) (D.fault_count disk.new) result }
        ensures answer { IsTrue D.tells → Reads (run (D.view disk.old).reads (pack_in number)) result }
    {
        let file = pack_file(number);
        let bytes = file_bytes(alloc, disk, file)?;
        match PackIndex::of_bytes(alloc, bytes.as_slice()) {
            Ok(index) => Ok(HeldPack {
                number,
                index,
                bytes: Snapshot::of(&bytes),
            }),
            Err(PackError::BadPack { at }) => Err(damaged(file, at)),
            Err(PackError::Memory) => Err(MountCause::Memory),
        }
    }

    /// The number of its file.
    pub fn number(&self) -> u64
        ensures { result ≡ self.now.number }
    {
        self.number
    }

    /// The places of its records, in order of their names. It takes no memory.
    pub fn items(&self) -> &[Placed]
        ensures { result.now ≡ items_of self.now }
    {
        self.index.items()
    }
}

/// Packs in order of search.
pub type HeldPacks = ListOf<HeldPack>;

/// What the files of a repository have.
#[derive(Drop)]
pub struct BaseRepo {
    /// The repository.
    pub path: RepoPath,
    /// Whether others may be members of it.
    pub is_pool: bool,
    /// The pool that it is a member of.
    pub pool: Option<RepoPath>,
    /// Its packs, in order of search.
    pub packs: HeldPacks,
    /// Its packed references.
    pub packed: PackedList,
    /// Its references with files of their own, which hide packed ones; a value of 40 zeros is none.
    pub loose: RefList,
}

/// What the files of a base have, ascending by path.
pub type BaseContent = ListOf<BaseRepo>;
