ghost use Rattle.std.specs.Prelude.{◌≡◌, ◌++◌, reverse, IfOk};

use gt_list::{ListOf, NoMemory};
use std::alloc::Global;

/// The items from the last to the first.
pub(crate) fn turned<T: Drop>(alloc: Global, items: ListOf<T>) -> Result<ListOf<T>, NoMemory>
    ensures { IfOk result (λ list. list ≡ reverse items) }
{
    let mut left = items;
    let mut list = ListOf::new(alloc);
    'items: while let Some(item) = left.pop() {
        list.push(item)?;
    }
    Ok(list)
}
