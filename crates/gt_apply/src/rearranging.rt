// What an entry makes of a repository's lists.
ghost use Rattle.std.specs.Prelude.{◌≡◌, Some, None, ◌∷◌, nat_le, filter, IfOk};
ghost use Rattle.gt_apply.specs.Plan.{rearranged};

use gt_list::{ListOf, NoMemory};
use gt_manifest::{Loose, LooseList, Numbers, RepoFiles};
use gt_model::Change;
use gt_name::RepoPath;
use std::alloc::Global;

fn packs_from(alloc: Global, file: u64, packs: &[u64]) -> Result<Numbers, NoMemory>
    ensures { IfOk result (λ kept. kept ≡ file ∷ filter (λ n. nat_le file n) packs.now) }
{
    let mut kept = ListOf::new(alloc);
    kept.push(file)?;
    for number in packs {
        if file <= *number {
            kept.push(*number)?;
        }
    }
    Ok(kept)
}

fn packs_behind(alloc: Global, file: u64, packs: &[u64]) -> Result<Numbers, NoMemory>
    ensures { IfOk result (λ all. all ≡ file ∷ packs.now) }
{
    let mut all = Vec::new(alloc);
    all.push(file)?;
    all.extend_from_slice(packs)?;
    Ok(ListOf::from_vec(all))
}

fn loose_from(alloc: Global, file: u64, list: &[Loose]) -> Result<LooseList, NoMemory>
    ensures { IfOk result (λ kept. kept ≡ filter (λ l. nat_le file l.file) list.now) }
{
    let mut kept = ListOf::new(alloc);
    for loose in list {
        if file <= loose.file {
            let name = loose.name.clone()?;
            kept.push(Loose {
                name,
                file: loose.file,
            })?;
        }
    }
    Ok(kept)
}

fn linked(repo: RepoFiles, pool: &RepoPath) -> Result<RepoFiles, NoMemory>
    ensures { IfOk result (λ r. r ≡ record repo { pool = Some pool.now }) }
{
    match pool.clone() {
        Ok(pool) => Ok(RepoFiles {
            pool: Some(pool),
            ..repo
        }),
        Err(_) => Err(NoMemory),
    }
}

fn repacked(alloc: Global, repo: RepoFiles, position: u64, file: u64) -> Result<RepoFiles, NoMemory>
    ensures { IfOk result (λ r. r ≡ record repo { packs = file ∷ filter (λ n. nat_le file n) repo.packs; repacked = position }) }
{
    let packs = packs_from(alloc, file, repo.packs.as_slice())?;
    Ok(RepoFiles {
        packs,
        repacked: position,
        ..repo
    })
}

fn refs_packed(
    alloc: Global,
    repo: RepoFiles,
    position: u64,
    file: u64,
) -> Result<RepoFiles, NoMemory>
    ensures { IfOk result (λ r. r ≡ record repo { packed = file; loose = filter (λ l. nat_le file l.file) repo.loose; refs_packed = position }) }
{
    let loose = loose_from(alloc, file, repo.loose.as_slice())?;
    Ok(RepoFiles {
        packed: file,
        loose,
        refs_packed: position,
        ..repo
    })
}

fn unlinked(alloc: Global, repo: RepoFiles, position: u64, file: u64) -> Result<RepoFiles, NoMemory>
    ensures { IfOk result (λ r. r ≡ record repo { packs = file ∷ repo.packs; pool = None; repacked = position }) }
{
    let packs = packs_behind(alloc, file, repo.packs.as_slice())?;
    Ok(RepoFiles {
        pool: None,
        packs,
        repacked: position,
        ..repo
    })
}

/// What the change of the entry at this position makes of a repository's lists.
pub(crate) fn rearranged(
    alloc: Global,
    repo: RepoFiles,
    position: u64,
    change: &Change,
) -> Result<RepoFiles, NoMemory>
    ensures { IfOk result (λ r. r ≡ rearranged position change.now repo) }
{
    match change {
        Change::Link { pool } => linked(repo, pool),
        Change::Repack { file, .. } => repacked(alloc, repo, position, *file),
        Change::Prune { file, .. } => repacked(alloc, repo, position, *file),
        Change::PackRefs { file } => refs_packed(alloc, repo, position, *file),
        Change::Unlink { file } => unlinked(alloc, repo, position, *file),
        Change::Create { .. } => Ok(repo),
        Change::Delete => Ok(repo),
        Change::Write { .. } => Ok(repo),
    }
}
