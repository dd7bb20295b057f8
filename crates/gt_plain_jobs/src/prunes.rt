ghost use Rattle.std.specs.Prelude.{◌≡◌, IfOk};
ghost use Rattle.gt_model.specs.Jobs.{IsPruned, ArePruneUnits};
ghost use Rattle.gt_plain_jobs.specs.Marking.{is_kept, kept, unkept};

use crate::marks::{marked, own_names};
use crate::units::sum;
use gt_list::{ListOf, NoMemory};
use gt_name::{Name, Names, RepoPath};
use gt_plain::PlainContent;
use std::alloc::Global;

fn is_kept(pairs: &[(RepoPath, Name)], name: &Name) -> bool
    ensures { result ≡ is_kept pairs.now name.now }
{
    pairs.iter().any(|pair| name == &pair.1)
}

/// The names that no pair has.
fn unkept(alloc: Global, pairs: &[(RepoPath, Name)], names: &[Name]) -> Result<Vec<Name>, NoMemory>
    ensures { IfOk result (λ v. v.items ≡ unkept pairs.now names.now) }
{
    let mut unkept = Vec::new(alloc);
    for name in names {
        if !is_kept(pairs, name) {
            unkept.push(*name)?;
        }
    }
    Ok(unkept)
}

/// The names that some pair has.
fn kept(alloc: Global, pairs: &[(RepoPath, Name)], names: &[Name]) -> Result<Vec<Name>, NoMemory>
    ensures { IfOk result (λ v. v.items ≡ kept pairs.now names.now) }
{
    let mut kept = Vec::new(alloc);
    for name in names {
        if is_kept(pairs, name) {
            kept.push(*name)?;
        }
    }
    Ok(kept)
}

/// What a prune drops: the own names of no marked pair, ascending.
pub fn pruned(alloc: Global, content: &PlainContent, path: &RepoPath) -> Result<Names, NoMemory>
    ensures { IfOk result (λ names. IsPruned content.now path.now names) }
{
    let pairs = marked(alloc, content, path)?;
    let names = own_names(alloc, content, path)?;
    let dropped = unkept(alloc, &pairs, &names)?;
    Ok(ListOf::from_vec(dropped))
}

/// One for each marked pair and for each own object that is kept.
pub fn prune_units(
    alloc: Global,
    content: &PlainContent,
    path: &RepoPath,
) -> Result<usize, NoMemory>
    ensures { IfOk result (λ units. ArePruneUnits content.now path.now units) }
{
    let pairs = marked(alloc, content, path)?;
    let names = own_names(alloc, content, path)?;
    let kept = kept(alloc, &pairs, &names)?;
    sum(pairs.len(), kept.len())
}
