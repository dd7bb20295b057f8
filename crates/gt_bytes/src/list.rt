ghost use Rattle.std.specs.Prelude.{◌≡◌, ◌<◌, ◌≤◌, ◌^◌, ◌++◌, length, OnOk, OnErr, All};
ghost use Rattle.gt_bytes.specs.Reading.{counted_at, first_at};
ghost use Rattle.gt_bytes.specs.Spelling.{counted, IsFront};
ghost use Rattle.gt_bytes.specs.Answers.{Gives, Within, MemoryAfter};

use crate::{FieldError, Item, get_u32, put_u32};
use gt_list::{ListOf, NoMemory};
use std::alloc::Global;

/// Appends the number of the items as 4 bytes, and then the items. After an error `out` is what it was, and behind that a
/// part of the list may stand.
pub fn put_list<I: Item>(out: &mut Vec<u8>, items: &ListOf<I::Value>) -> Result<(), NoMemory>
    requires short { length items.now < 2 ^ 32 }
    requires each { All I.may_put items.now }
    ensures ok { OnOk result (out.new.items ≡ out.old.items ++ counted I.spell items.now) }
    ensures err { OnErr result (IsFront out.old.items out.new.items) }
{
    let items = items.as_slice();
    put_u32(out, items.len() as u32)?;
    'items: for item in items {
        I::put(out, item)?;
    }
    Ok(())
}

/// Reads a number of 4 bytes, and then as many items, each at the place after the one before it.
pub fn read_list<I: Item>(
    alloc: Global,
    bytes: &[u8],
    from: usize,
) -> Result<(ListOf<I::Value>, usize), FieldError>
    requires { from ≤ length bytes.now }
    ensures within { Within result (length bytes.now) }
    ensures value { Gives result (counted_at (I.item_at bytes.now) bytes.now from) }
    // Memory is wanted only for an item that may stand there, behind those that may.
    ensures memory { MemoryAfter result (first_at (I.item_at bytes.now) bytes.now from) }
{
    let (count, begin) = get_u32(bytes, from)?;
    let mut items = ListOf::new(alloc);
    let mut at = begin;
    'items: for _ in 0..count {
        let (item, next) = I::read(alloc, bytes, items.as_slice(), at)?;
        items.push(item)?;
        at = next;
    }
    Ok((items, at))
}
