// How many files an application adds for one repository.
ghost use Rattle.std.specs.Prelude.{◌≡◌, length, IfOk};
ghost use Rattle.gt_model.specs.Batches.{files_of};
ghost use Rattle.gt_apply.specs.Steps.{seen};

use crate::records::any_has_records;
use crate::values::values_of;
use gt_list::NoMemory;
use gt_model::Entry;
use std::alloc::Global;

/// How many files an application adds for entries of one repository: a pack, if they add records, and one for each reference
/// that they write.
pub fn count_files(alloc: Global, own: &[&Entry]) -> Result<u64, NoMemory>
    ensures { IfOk result (λ n. n ≡ length (files_of (seen own.now))) }
{
    let values = values_of(alloc, own)?;
    let loose = values.len() as u64;
    if any_has_records(own) {
        Ok(loose + 1)
    } else {
        Ok(loose)
    }
}
