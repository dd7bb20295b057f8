ghost use Rattle.std.specs.Prelude.{◌≡◌, List, Ok, IfOk};
ghost use Rattle.gt_pack.specs.Spelling.{Packed, IsPack, pack, places};
ghost use Rattle.gt_pack.specs.Reading.{pack_of, first_item};
ghost use Rattle.gt_pack.specs.Index.{find_in, item_of};
ghost use Rattle.gt_pack.specs.Answers.{GivesPack, MemoryAfter, IsIndexOf};

use crate::placed::find_in;
use crate::reading::read_pack;
use crate::{PackError, Placed};
use gt_bytes::FieldError;
use gt_list::ListOf;
use gt_name::Name;
use std::alloc::Global;
use std::marker::Model;

/// Where the records of a pack stand, in order of their names. A contract sees it as that list.
#[derive(Drop)]
pub struct PackIndex {
    items: ListOf<Placed>,
}

impl Model for PackIndex {
    ghost use Rattle.std.specs.Prelude.{List, None};
    ghost use Rattle.gt_pack.specs.declared.placed.Placed.{Placed};
    ghost use Rattle.gt_pack.specs.Index.{Rises};

    ghost Value = { List Placed };

    ghost view = { λ i. i.items };

    ghost invariant = { λ i. Rises None i.items };
}

impl PackIndex {
    /// The index of the pack that is all of the bytes (docs/FORMATS.md, "Pack"). `BadPack` exactly where they are no
    /// pack, with the place where the first field begins that can't be read; else the only error is want of memory, never before
    /// the first record was read.
    pub fn of_bytes(alloc: Global, bytes: &[u8]) -> Result<PackIndex, PackError>
        // What is read is a pack, and these are the places of its records.
        ensures found { IfOk result (IsIndexOf bytes.now) }
        // A pack is read, unless memory runs out.
        ensures only { (records : List Packed) → IsPack records → bytes.now ≡ pack records → GivesPack result (Ok (places 8 records)) }
        ensures exact { GivesPack result (pack_of bytes.now) }
        // No memory is wanted before the first record is read.
        ensures memory { MemoryAfter result (first_item bytes.now 0) }
    {
        match read_pack(alloc, bytes) {
            Ok(items) => Ok(PackIndex { items }),
            Err(FieldError::BadField { at }) => Err(PackError::BadPack { at }),
            Err(FieldError::Memory) => Err(PackError::Memory),
        }
    }

    /// Place, in bytes from the file's begin, and length of the record of this name. None exactly where the pack has none.
    /// It takes no memory.
    pub fn find(&self, name: &Name) -> Option<(u64, u32)>
        ensures { result ≡ find_in self.now name.now }
    {
        find_in(self.items.as_slice(), name)
    }

    /// The places of all records, in order of their names. It takes no memory.
    pub fn items(&self) -> &[Placed]
        ensures { result.now ≡ self.now }
    {
        self.items.as_slice()
    }

    /// Name, place and length of the record of this index, from 0, in order of the names. None exactly from the number of
    /// records on. It takes no memory.
    pub fn item(&self, i: u32) -> Option<(Name, u64, u32)>
        ensures { result ≡ item_of self.now i }
    {
        match self.items.at(i as usize) {
            Some(item) => Some((item.name, item.place, item.len)),
            None => None,
        }
    }
}
