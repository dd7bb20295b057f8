// Lists of files, and repositories.
ghost use Rattle.std.specs.Prelude.{◌≡◌, ◌≤◌, IsTrue, [], ◌∷◌, IfOk, OnErr, Err};
ghost use Rattle.gt_log.specs.declared.mount_cause.MountCause.TheVariants.{Memory};
ghost use Rattle.gt_disk.specs.Files.{Quiet};
ghost use Rattle.gt_reading.specs.Reading.{run, list_in};
ghost use Rattle.gt_base.specs.Answers.{Reads, HasCause};
ghost use Rattle.gt_base.specs.Loading.{headings, manifest_headings};
ghost use Rattle.gt_base.specs.Recovery.{pack_in, loose_in, repo_in};

use crate::reading::{read_loose_ref, read_packed_refs};
use crate::{BaseContent, BaseRepo, HeldPack, HeldPacks};
use gt_disk::Disk;
use gt_list::ListOf;
use gt_log::MountCause;
use gt_manifest::{Loose, RepoFiles};
use gt_model::RefList;
use gt_name::RepoPath;
use gt_reftext::PackedList;
use std::alloc::Global;

/// The packs with these numbers, in order.
fn read_packs<D: Disk>(
    alloc: Global,
    disk: &mut D,
    numbers: &[u64],
) -> Result<HeldPacks, MountCause>
    ensures quiet { IsTrue D.tells → Quiet (D.view disk.old) (D.view disk.new) }
    ensures later { (D.view disk.old).clock ≤ (D.view disk.new).clock }
    ensures cause { HasCause (D.fault_count disk.old) (D.fault_count disk.new) result }
    ensures answer { IsTrue D.tells → Reads (run (D.view disk.old).reads (list_in pack_in numbers.now)) result }
{
    let mut packs = ListOf::new(alloc);
    'packs: for number in numbers {
        let pack = HeldPack::read(alloc, disk, *number)?;
        if let Err(_) = packs.push(pack) {
            return Err(MountCause::Memory);
        }
    }
    Ok(packs)
}

/// The references that these loose files have, in order.
fn read_loose_refs<D: Disk>(
    alloc: Global,
    disk: &mut D,
    loose: &[Loose],
) -> Result<RefList, MountCause>
    ensures quiet { IsTrue D.tells → Quiet (D.view disk.old) (D.view disk.new) }
    ensures later { (D.view disk.old).clock ≤ (D.view disk.new).clock }
    ensures cause { HasCause (D.fault_count disk.old) (D.fault_count disk.new) result }
    ensures answer { IsTrue D.tells → Reads (run (D.view disk.old).reads (list_in loose_in loose.now)) result }
{
    let mut refs = ListOf::new(alloc);
    'refs: for file in loose {
        let found = read_loose_ref(alloc, disk, file)?;
        if let Err(_) = refs.push(found) {
            return Err(MountCause::Memory);
        }
    }
    Ok(refs)
}

fn copy_path(path: &RepoPath) -> Result<RepoPath, MountCause>
    ensures copy { IfOk result (λ copy. copy ≡ path.now) }
    ensures memory { OnErr result (result ≡ Err Memory) }
{
    match path.clone() {
        Ok(copy) => Ok(copy),
        Err(_) => Err(MountCause::Memory),
    }
}

fn copy_pool(pool: &Option<RepoPath>) -> Result<Option<RepoPath>, MountCause>
    ensures copy { IfOk result (λ copy. copy ≡ pool.now) }
    ensures memory { OnErr result (result ≡ Err Memory) }
{
    match pool {
        None => Ok(None),
        Some(path) => {
            let copy = copy_path(path)?;
            Ok(Some(copy))
        }
    }
}

/// What was read of the files of a repository, under its path.
fn with_files(
    files: &RepoFiles,
    packs: HeldPacks,
    packed: PackedList,
    loose: RefList,
) -> Result<BaseRepo, MountCause>
    ensures repo { IfOk result (λ repo. repo ≡ record { path = files.now.path; is_pool = files.now.is_pool; pool = files.now.pool; packs = packs; packed = packed; loose = loose }) }
    ensures memory { OnErr result (result ≡ Err Memory) }
{
    let path = copy_path(&files.path)?;
    let pool = copy_pool(&files.pool)?;
    Ok(BaseRepo {
        path,
        is_pool: files.is_pool,
        pool,
        packs,
        packed,
        loose,
    })
}

/// What the files of a repository have: its packs, its packed file and its loose files are read in this order.
fn read_repo<D: Disk>(
    alloc: Global,
    disk: &mut D,
    files: &RepoFiles,
) -> Result<BaseRepo, MountCause>
    ensures quiet { IsTrue D.tells → Quiet (D.view disk.old) (D.view disk.new) }
    ensures later { (D.view disk.old).clock ≤ (D.view disk.new).clock }
    ensures cause { HasCause (D.fault_count disk.old) (D.fault_count disk.new) result }
    ensures answer { IsTrue D.tells → Reads (run (D.view disk.old).reads (repo_in files.now)) result }
    ensures heading { IfOk result (λ repo. headings (repo ∷ []) ≡ manifest_headings (files.now ∷ [])) }
{
    let packs = read_packs(alloc, disk, files.packs.as_slice())?;
    let packed = read_packed_refs(alloc, disk, files.packed)?;
    let loose = read_loose_refs(alloc, disk, files.loose.as_slice())?;
    with_files(files, packs, packed, loose)
}

/// What the files of these repositories have, in order.
pub(crate) fn read_repos<D: Disk>(
    alloc: Global,
    disk: &mut D,
    all: &[RepoFiles],
) -> Result<BaseContent, MountCause>
    ensures quiet { IsTrue D.tells → Quiet (D.view disk.old) (D.view disk.new) }
    ensures later { (D.view disk.old).clock ≤ (D.view disk.new).clock }
    ensures cause { HasCause (D.fault_count disk.old) (D.fault_count disk.new) result }
    ensures answer { IsTrue D.tells → Reads (run (D.view disk.old).reads (list_in repo_in all.now)) result }
    ensures headings { IfOk result (λ repos. headings repos ≡ manifest_headings all.now) }
{
    let mut repos = ListOf::new(alloc);
    'repos: for files in all {
        let repo = read_repo(alloc, disk, files)?;
        if let Err(_) = repos.push(repo) {
            return Err(MountCause::Memory);
        }
    }
    Ok(repos)
}
