ghost use Rattle.std.specs.Prelude.{◌≡◌, ◌↔◌, ◌<◌, ◌≤◌, ◌+◌, ◌∷◌, ◌++◌, [], List, length, IsTrue, IfOk, OnOk, OnErr, IsErrOf, None};
ghost use Rattle.gt_disk.specs.Files.{View, Unchanged, HasDiskCause};
ghost use Rattle.gt_disk.specs.Moments.{Runs, AnyState};
ghost use Rattle.gt_object.specs.Whole.{why_not};
ghost use Rattle.gt_pack.specs.Spelling.{Packed, above};
ghost use Rattle.gt_pack.specs.Reading.{last_name};
ghost use Rattle.gt_pack.specs.Index.{find_in};
ghost use Rattle.gt_pack.specs.Building.{pack_file, begun, added, IsWritten, Lasts};

use crate::Placed;
use crate::placed::find_in;
use crate::reading::is_above;
use crate::spelling::{spelled_head, spelled_item, spelled_tail};
use gt_disk::{Disk, DiskError, FileId};
use gt_list::ReservedVec;
use gt_name::Name;
use std::alloc::Global;
use std::marker::Model;

/// The kind of the files that are packs.
const PACK: u8 = 5;

/// Writes a pack: its head, its records in order of their names, and then the index.
///
/// Memory is taken before the disk is called. So a call that answers `Memory` may be made again. After `Failed` the file is
/// absent or has any bytes, and no further call makes a pack of it.
#[derive(Drop)]
pub struct PackBuilder {
    file: u64,
    count: u32,
    next: u64,
    items: ReservedVec<Placed>,
}

impl Model for PackBuilder {
    ghost use Rattle.gt_pack.specs.Building.{Built, IsBuilder};

    ghost Value = { Built };

    ghost view = { λ b. record { file = b.file; count = b.count; next = b.next; items = b.items.0 } };

    ghost invariant = { λ b. IsBuilder b.count b.next b.items.0 };
}

impl PackBuilder {
    /// Makes the file of this number among the packs, for so many records. A file that was there is replaced.
    /// After `Failed` it is absent or has any bytes; after `Memory` nothing has changed.
    pub fn begin<D: Disk>(
        alloc: Global,
        disk: &mut D,
        file: u64,
        count: u32,
    ) -> Result<PackBuilder, DiskError>
        ensures begun { IfOk result (λ b. b ≡ begun file count) }
        ensures written { IsTrue D.tells → IfOk result (λ b. IsWritten b [] (D.view disk.new)) }
        ensures memory { IsTrue D.tells → IsErrOf result DiskError.Memory → Unchanged (D.view disk.old) (D.view disk.new) }
        ensures run { IsTrue D.tells → Runs (pack_file file) AnyState (D.view disk.old) (D.view disk.new) }
        ensures later { (D.view disk.old).clock ≤ (D.view disk.new).clock }
        ensures cause { HasDiskCause (D.fault_count disk.old) (D.fault_count disk.new) result }
        ensures counted { D.call_count disk.new ≤ D.call_count disk.old + 1 }
    {
        let head = spelled_head(alloc, count)?;
        disk.write(
            FileId {
                kind: PACK,
                number: file,
            },
            &head,
        )?;
        Ok(PackBuilder {
            file,
            count,
            next: 8,
            items: ReservedVec::new(alloc),
        })
    }

    /// Whether a record of this name may be added next: fewer than promised were added, and the name is greater than theirs.
    pub fn takes(&self, name: &Name) -> bool
        ensures { IsTrue result ↔ ((length self.now.items < self.now.count) × IsTrue (above (last_name self.now.items) name.now)) }
    {
        let items = self.items.as_slice();
        items.len() < self.count as usize && is_above(items, name)
    }

    /// Whether all records were added.
    pub fn is_full(&self) -> bool
        ensures { IsTrue result ↔ (length self.now.items ≡ self.now.count) }
    {
        self.items.as_slice().len() == self.count as usize
    }

    /// Adds a record under its name, which is greater than those of the records before it.
    /// After an error the builder is as it was; after `Memory` the file is, too.
    pub fn add<D: Disk>(
        &mut self,
        alloc: Global,
        disk: &mut D,
        name: Name,
        whole: &[u8],
    ) -> Result<(), DiskError>
        requires room { length self.old.items < self.old.count }
        requires rises { IsTrue (above (last_name self.old.items) name) }
        requires good { why_not whole.now ≡ None }
        ensures ok { OnOk result (self.new ≡ added self.old (record { name = name; whole = whole.now })) }
        ensures err { OnErr result (self.new ≡ self.old) }
        // A file that read as the begin of a pack of some records reads as that of these and the one more.
        ensures written { IsTrue D.tells → OnOk result ((ps : List Packed) → IsWritten self.old ps (D.view disk.old)
            → IsWritten self.new (ps ++ (record { name = name; whole = whole.now }) ∷ []) (D.view disk.new)) }
        ensures memory { IsTrue D.tells → IsErrOf result DiskError.Memory → Unchanged (D.view disk.old) (D.view disk.new) }
        ensures run { IsTrue D.tells → Runs (pack_file self.old.file) AnyState (D.view disk.old) (D.view disk.new) }
        ensures later { (D.view disk.old).clock ≤ (D.view disk.new).clock }
        ensures cause { HasDiskCause (D.fault_count disk.old) (D.fault_count disk.new) result }
        ensures counted { D.call_count disk.new ≤ D.call_count disk.old + 1 }
    {
        self.items.reserve(1)?;
        let item = spelled_item(alloc, &name, whole)?;
        disk.append(
            FileId {
                kind: PACK,
                number: self.file,
            },
            &item,
        )?;
        let len = whole.len() as u32;
        self.items.add(Placed {
            name,
            place: self.next + 24,
            len,
        });
        self.next += 24 + len as u64;
        Ok(())
    }

    /// Writes the index and makes the file last, once all records were added. The builder stays as it is, and after `Memory`
    /// the file does, too: the call may be made again.
    pub fn end<D: Disk>(&mut self, alloc: Global, disk: &mut D) -> Result<(), DiskError>
        requires { length self.old.items ≡ self.old.count }
        ensures same { self.new ≡ self.old }
        // A file that read as the begin of a pack of these records is their pack, and a stop leaves it.
        ensures lasts { IsTrue D.tells → OnOk result ((ps : List Packed) → IsWritten self.old ps (D.view disk.old) → Lasts self.old.file ps (D.view disk.new)) }
        ensures memory { IsTrue D.tells → IsErrOf result DiskError.Memory → Unchanged (D.view disk.old) (D.view disk.new) }
        ensures run { IsTrue D.tells → Runs (pack_file self.old.file) AnyState (D.view disk.old) (D.view disk.new) }
        ensures later { (D.view disk.old).clock ≤ (D.view disk.new).clock }
        ensures cause { HasDiskCause (D.fault_count disk.old) (D.fault_count disk.new) result }
        ensures counted { D.call_count disk.new ≤ D.call_count disk.old + 2 }
    {
        let index = spelled_tail(alloc, self.items.as_slice(), self.next)?;
        let file = FileId {
            kind: PACK,
            number: self.file,
        };
        disk.append(file, &index)?;
        disk.sync(file)?;
        Ok(())
    }

    /// Place and length of the record of this name, as `PackIndex::find` of the file answers. None exactly where none of this
    /// name was added. It takes no memory.
    pub fn find(&self, name: &Name) -> Option<(u64, u32)>
        ensures { result ≡ find_in self.now.items name.now }
    {
        find_in(self.items.as_slice(), name)
    }
}
