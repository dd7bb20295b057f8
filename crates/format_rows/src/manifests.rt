//! Manifests.
ghost use Rattle.gt_manifest.specs.declared.version.Version.TheVariants.{Second};
ghost use Rattle.gt_manifest.specs.Whole.{Fits};

use crate::digits::Text;
use gt_manifest::{Loose, Manifest, RepoFiles};
use gt_name::RepoPath;
use std::alloc::Global;
use std::io;

pub(crate) fn manifest_row(rt: &impl Print, alloc: Global, bytes: &[u8]) -> io::Result<()> {
    match Manifest::decode(alloc, bytes) {
        Ok(manifest) => manifest_lines(rt, &manifest, is_spelled(alloc, &manifest, bytes)),
        Err(error) => println!(rt; "{error:?}"),
    }
}

/// Whether the manifest is written again as these bytes.
fn is_spelled(alloc: Global, manifest: &Manifest, bytes: &[u8]) -> bool
    requires { Fits Second manifest.now }
{
    match manifest.encode(alloc) {
        Ok(again) => again.as_slice() == bytes,
        Err(_) => false,
    }
}

fn manifest_lines(rt: &impl Print, it: &Manifest, is_spelled: bool) -> io::Result<()> {
    println!(rt;
        "epoch {} applied {} next {} {is_spelled}",
        it.epoch, it.applied, it.next
    )?;
    for repo in it.repos.as_slice() {
        repo_line(rt, repo)?;
        loose_lines(rt, repo.loose.as_slice())?;
    }
    Ok(())
}

/// The path, whether it is a pool, its pool, its packs and packed references, and when it was last packed.
fn repo_line(rt: &impl Print, it: &RepoFiles) -> io::Result<()> {
    print!(rt;
        "  {} {} {} ",
        Text(it.path.bytes()),
        it.is_pool,
        Text(pool_of(&it.pool))
    )?;
    println!(rt;
        "{:?} {} {} {}",
        it.packs.as_slice(),
        it.packed,
        it.repacked,
        it.refs_packed
    )
}

fn pool_of(pool: &Option<RepoPath>) -> &[u8] {
    match pool {
        Some(path) => path.bytes(),
        None => b"-",
    }
}

fn loose_lines(rt: &impl Print, loose: &[Loose]) -> io::Result<()> {
    for it in loose {
        println!(rt; "    {} {}", Text(it.name.bytes()), it.file)?;
    }
    Ok(())
}
