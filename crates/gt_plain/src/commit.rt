ghost use Rattle.std.specs.Prelude.{◌≡◌, IfOk};
ghost use Rattle.gt_plain.specs.Plain.{staged, answer};
ghost use Rattle.gt_model.specs.Verdicts.{verdict};

use crate::PlainContent;
use crate::checks::failed;
use crate::needs::{added_records, names_of, needed_names};
use gt_list::{ListOf, NoMemory};
use gt_model::{Added, AddedRecords, RefUpdates, Refusal};
use gt_name::{Names, RepoPath};
use std::alloc::Global;

/// What a good commit does.
#[derive(Drop)]
pub struct PlainReady {
    /// Its updates and checks, in order of first staging.
    pub refs: RefUpdates,
    /// The names that it relies on and doesn't add, ascending.
    pub needed: Names,
    /// The names that it adds, ascending.
    pub added: Names,
}

/// What a commit comes to over a content: what it does, or the first check that fails.
pub fn verdict(
    alloc: Global,
    content: &PlainContent,
    path: &RepoPath,
    refs: &RefUpdates,
    records: &AddedRecords,
) -> Result<Result<PlainReady, Refusal>, NoMemory>
    ensures { IfOk result (λ r. answer r ≡ verdict content.now path.now (staged refs.now records.now)) }
{
    if let Some(refusal) = failed(alloc, content, path, refs.as_slice(), records.as_slice())? {
        return Ok(Err(refusal));
    }
    let needed = needed_names(alloc, content, path, refs.as_slice(), records.as_slice())?;
    let added = added_records(alloc, content, path, records.as_slice())?;
    let ready = PlainReady {
        refs: refs.clone()?,
        needed,
        added: ListOf::from_vec(names_of(alloc, added.as_slice())?),
    };
    Ok(Ok(ready))
}
