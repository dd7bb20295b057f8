// Copies of what a manifest lists.
ghost use Rattle.std.specs.Prelude.{◌≡◌, IfOk};

use gt_list::{ListOf, NoMemory};
use gt_manifest::{Loose, LooseList, Numbers, RepoFiles, RepoList};
use gt_name::RepoPath;
use std::alloc::Global;

/// The same path again. Its only error is want of memory.
pub fn copied_path(path: &RepoPath) -> Result<RepoPath, NoMemory>
    ensures { IfOk result (λ copy. copy ≡ path.now) }
{
    match path.clone() {
        Ok(copy) => Ok(copy),
        Err(_) => Err(NoMemory),
    }
}

fn copied_pool(pool: &Option<RepoPath>) -> Result<Option<RepoPath>, NoMemory>
    ensures { IfOk result (λ copy. copy ≡ pool.now) }
{
    match pool {
        Some(path) => Ok(Some(copied_path(path)?)),
        None => Ok(None),
    }
}

fn copied_numbers(alloc: Global, numbers: &[u64]) -> Result<Numbers, NoMemory>
    ensures { IfOk result (λ copy. copy ≡ numbers.now) }
{
    let items = Vec::from_slice(alloc, numbers)?;
    Ok(ListOf::from_vec(items))
}

fn copied_loose(alloc: Global, list: &[Loose]) -> Result<LooseList, NoMemory>
    ensures { IfOk result (λ copy. copy ≡ list.now) }
{
    let mut copy = ListOf::new(alloc);
    for loose in list {
        let name = loose.name.clone()?;
        copy.push(Loose {
            name,
            file: loose.file,
        })?;
    }
    Ok(copy)
}

fn copied_repo(alloc: Global, repo: &RepoFiles) -> Result<RepoFiles, NoMemory>
    ensures { IfOk result (λ copy. copy ≡ repo.now) }
{
    let path = copied_path(&repo.path)?;
    let pool = copied_pool(&repo.pool)?;
    let packs = copied_numbers(alloc, repo.packs.as_slice())?;
    let loose = copied_loose(alloc, repo.loose.as_slice())?;
    Ok(RepoFiles {
        path,
        is_pool: repo.is_pool,
        pool,
        packs,
        packed: repo.packed,
        loose,
        repacked: repo.repacked,
        refs_packed: repo.refs_packed,
    })
}

pub(crate) fn copied_repos(alloc: Global, list: &[RepoFiles]) -> Result<RepoList, NoMemory>
    ensures { IfOk result (λ copy. copy ≡ list.now) }
{
    let mut copy = ListOf::new(alloc);
    for repo in list {
        copy.push(copied_repo(alloc, repo)?)?;
    }
    Ok(copy)
}
