ghost use Rattle.std.specs.Prelude.{◌≡◌, ◌++◌, IfOk, IfErr, OnOk, All};
ghost use Rattle.std.specs.List.{flat_map};
ghost use Rattle.gt_manifest.specs.declared.version.Version.TheVariants.{Second};
ghost use Rattle.gt_manifest.specs.declared.error.ManifestError.TheVariants.{Memory};
ghost use Rattle.gt_manifest.specs.Spelling.{flag, pool_text, IsPool, owner, files, AreFiles, lasts, repo, manifest, IsPath, MayPut};
ghost use Rattle.gt_manifest.specs.Whole.{Fits};

use crate::items::{FileNumbers, LooseRefs};
use crate::{Manifest, ManifestError, RepoFiles};
use gt_bytes::{put_list, put_text, put_u8, put_u32, put_u64};
use gt_list::NoMemory;
use gt_name::RepoPath;
use std::alloc::Global;

fn put_pool(out: &mut Vec<u8>, pool: &Option<RepoPath>) -> Result<(), NoMemory>
    requires { IsPool pool.now }
    ensures { OnOk result (out.new.items ≡ out.old.items ++ pool_text pool.now) }
{
    match pool {
        None => put_text(out, &[]),
        Some(path) => put_text(out, path.bytes()),
    }
}

fn put_owner(out: &mut Vec<u8>, it: &RepoFiles) -> Result<(), NoMemory>
    requires path { IsPath it.now.path }
    requires pool { IsPool it.now.pool }
    ensures { OnOk result (out.new.items ≡ out.old.items ++ owner (it.now.path, (it.now.is_pool, it.now.pool))) }
{
    put_text(out, it.path.bytes())?;
    put_u8(out, if it.is_pool { 1 } else { 0 })?;
    put_pool(out, &it.pool)
}

fn put_files(out: &mut Vec<u8>, it: &RepoFiles) -> Result<(), NoMemory>
    requires { AreFiles (it.now.packs, (it.now.packed, it.now.loose)) }
    ensures { OnOk result (out.new.items ≡ out.old.items ++ files (it.now.packs, (it.now.packed, it.now.loose))) }
{
    put_list::<FileNumbers>(out, &it.packs)?;
    put_u64(out, it.packed)?;
    put_list::<LooseRefs>(out, &it.loose)?;
    Ok(())
}

fn put_repo(out: &mut Vec<u8>, it: &RepoFiles) -> Result<(), NoMemory>
    requires { MayPut it.now }
    ensures { OnOk result (out.new.items ≡ out.old.items ++ repo Second it.now) }
{
    put_owner(out, it)?;
    put_files(out, it)?;
    put_u64(out, it.repacked)?;
    put_u64(out, it.refs_packed)?;
    Ok(())
}

fn put_repos(out: &mut Vec<u8>, repos: &[RepoFiles]) -> Result<(), NoMemory>
    requires { All MayPut repos.now }
    ensures { OnOk result (out.new.items ≡ out.old.items ++ flat_map (repo Second) repos.now) }
{
    'repos: for repo in repos {
        put_repo(out, repo)?;
    }
    Ok(())
}

impl Manifest {
    /// The one spelling of a manifest, as `GTM2`. The only error is `Memory`.
    pub fn encode(&self, alloc: Global) -> Result<Vec<u8>, ManifestError>
        requires { Fits Second self.now }
        ensures text { IfOk result (λ bytes. bytes.items ≡ manifest Second self.now) }
        ensures err { IfErr result (λ e. e ≡ Memory) }
    {
        let mut out = Vec::from_slice(alloc, b"GTM2")?;
        put_u64(&mut out, self.epoch)?;
        put_u64(&mut out, self.applied)?;
        put_u64(&mut out, self.next)?;
        let repos = self.repos.as_slice();
        put_u32(&mut out, repos.len() as u32)?;
        put_repos(&mut out, repos)?;
        Ok(out)
    }
}
