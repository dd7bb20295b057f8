// What entries write to one repository.
ghost use Rattle.std.specs.Prelude.{◌≡◌, map as map_list, IfOk};
ghost use Rattle.gt_model.specs.Batches.{files_of};
ghost use Rattle.gt_apply.specs.Plan.{content_of};
ghost use Rattle.gt_apply.specs.Steps.{seen, pack_in, files_in, contents_in};

use crate::records::{any_has_records, records_of};
use crate::values::{ValueList, values_of};
use gt_list::NoMemory;
use gt_model::{AddedRecords, Entry};
use std::alloc::Global;

/// What entries write to one repository: the records of a pack, if they add any, and the last value of each reference.
#[derive(Drop)]
pub(crate) struct Writes {
    pub(crate) pack: Option<AddedRecords>,
    pub(crate) values: ValueList,
}

fn pack_of(alloc: Global, own: &[&Entry]) -> Result<Option<AddedRecords>, NoMemory>
    ensures { IfOk result (λ pack. pack ≡ pack_in (seen own.now)) }
{
    if any_has_records(own) {
        let records = records_of(alloc, own)?;
        Ok(Some(records))
    } else {
        Ok(None)
    }
}

/// What entries of one repository write to it.
pub(crate) fn writes_of(alloc: Global, own: &[&Entry]) -> Result<Writes, NoMemory>
    ensures files { IfOk result (λ w. files_in w ≡ files_of (seen own.now)) }
    ensures contents { IfOk result (λ w. contents_in w ≡ map_list (content_of (seen own.now)) (files_of (seen own.now))) }
{
    let pack = pack_of(alloc, own)?;
    let values = values_of(alloc, own)?;
    Ok(Writes { pack, values })
}
