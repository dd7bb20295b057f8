ghost use Rattle.std.specs.Prelude.{◌≡◌, ◌<◌, ◌^◌, IfOk, length};
ghost use Rattle.gt_pack.specs.Spelling.{head, item, tail};

use crate::Placed;
use gt_bytes::{put_name, put_u32, put_u64};
use gt_list::NoMemory;
use gt_name::Name;
use std::alloc::Global;

/// What stands before the items.
pub(crate) fn spelled_head(alloc: Global, count: u32) -> Result<Vec<u8>, NoMemory>
    ensures { IfOk result (λ v. v.items ≡ head count) }
{
    let mut out = Vec::from_slice(alloc, b"GTP1")?;
    put_u32(&mut out, count)?;
    Ok(out)
}

/// An item: the name, the record's length, the record.
pub(crate) fn spelled_item(alloc: Global, name: &Name, whole: &[u8]) -> Result<Vec<u8>, NoMemory>
    requires { length whole.now < 2 ^ 32 }
    ensures long { length name.now ≡ 20 }
    ensures spelled { IfOk result (λ v. v.items ≡ item (record { name = name.now; whole = whole.now })) }
{
    let mut out = Vec::new(alloc);
    put_name(&mut out, &name.0)?;
    put_u32(&mut out, whole.len() as u32)?;
    out.extend_from_slice(whole)?;
    Ok(out)
}

/// The index of these records, and the place where it begins.
pub(crate) fn spelled_tail(alloc: Global, items: &[Placed], begin: u64) -> Result<Vec<u8>, NoMemory>
    ensures { IfOk result (λ v. v.items ≡ tail items.now begin) }
{
    let mut out = Vec::new(alloc);
    'items: for item in items {
        put_name(&mut out, &item.name.0)?;
        put_u64(&mut out, item.place.saturating_sub(24))?;
    }
    put_u64(&mut out, begin)?;
    Ok(out)
}
