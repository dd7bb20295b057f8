ghost use Rattle.std.specs.Prelude.{◌≡◌, IfOk};
ghost use Rattle.gt_model.specs.Jobs.{Drops, AreUnits};

use crate::objects::repacked;
use crate::prunes::{prune_units, pruned};
use crate::units::{ref_units, repack_units, unlink_units};
use gt_list::{ListOf, NoMemory};
use gt_model::Job;
use gt_name::{Names, RepoPath};
use gt_plain::PlainContent;
use std::alloc::Global;

/// The names that a job drops.
pub fn dropped_by(
    alloc: Global,
    content: &PlainContent,
    path: &RepoPath,
    job: Job,
) -> Result<Names, NoMemory>
    ensures { IfOk result (λ names. Drops content.now path.now job names) }
{
    match job {
        Job::Repack => repacked(alloc, content, path),
        Job::Prune => pruned(alloc, content, path),
        Job::PackRefs => Ok(ListOf::new(alloc)),
        Job::Unlink => Ok(ListOf::new(alloc)),
    }
}

/// How many units a job has.
pub fn units_of(
    alloc: Global,
    content: &PlainContent,
    path: &RepoPath,
    job: Job,
) -> Result<usize, NoMemory>
    ensures { IfOk result (λ units. AreUnits content.now path.now job units) }
{
    match job {
        Job::Repack => repack_units(alloc, content, path),
        Job::Prune => prune_units(alloc, content, path),
        Job::PackRefs => ref_units(alloc, content, path),
        Job::Unlink => unlink_units(alloc, content, path),
    }
}
