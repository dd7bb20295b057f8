//! What a load has come to, in one line.
use crate::digits::{Digits, Text};
use gt_base::{Base, BaseContent, BaseRepo, HeldPack};
use gt_log::MountCause;
use gt_model::RefValue;
use gt_name::{Name, RepoPath};
use gt_reftext::PackedRef;
use std::io;

pub(crate) fn loaded_line(
    rt: &impl Print,
    loaded: &Result<(Base, BaseContent), MountCause>,
) -> io::Result<()> {
    match loaded {
        Ok((base, repos)) => base_line(rt, base, repos.as_slice()),
        Err(cause) => cause_line(rt, cause),
    }
}

fn cause_line(rt: &impl Print, cause: &MountCause) -> io::Result<()> {
    match cause {
        MountCause::Damaged { file, at } => {
            println!(rt; "damaged {}-{} {at}", file.kind, file.number)
        }
        MountCause::DeviceFault => println!(rt; "devicefault"),
        MountCause::Memory => println!(rt; "memory"),
    }
}

/// The epoch, the applied position, the next number of a file, and how many repositories there are; then each of them.
fn base_line(rt: &impl Print, base: &Base, repos: &[BaseRepo]) -> io::Result<()> {
    let it = base.manifest();
    print!(rt;
        "base {} {} {} {}",
        it.epoch,
        it.applied,
        it.next,
        repos.len()
    )?;
    for repo in repos {
        repo_words(rt, repo)?;
    }
    println!(rt; "")
}

/// The path, whether it is a pool, its pool, its packs, its packed references and its loose ones.
fn repo_words(rt: &impl Print, it: &BaseRepo) -> io::Result<()> {
    print!(rt;
        " repo {} {} {}",
        Text(it.path.bytes()),
        it.is_pool,
        Text(pool_of(&it.pool))
    )?;
    pack_words(rt, it.packs.as_slice())?;
    packed_words(rt, it.packed.as_slice())?;
    loose_words(rt, it.loose.as_slice())
}

fn pool_of(pool: &Option<RepoPath>) -> &[u8] {
    match pool {
        Some(path) => path.bytes(),
        None => b"-",
    }
}

/// The number of each pack, and how many objects it has.
fn pack_words(rt: &impl Print, packs: &[HeldPack]) -> io::Result<()> {
    print!(rt; " packs")?;
    for pack in packs {
        print!(rt; " {}:{}", pack.number(), pack.items().len())?;
    }
    Ok(())
}

fn packed_words(rt: &impl Print, refs: &[PackedRef]) -> io::Result<()> {
    print!(rt; " packed")?;
    for it in refs {
        print!(rt;
            " {}={}^{}",
            Text(it.name.bytes()),
            Digits(&it.value.0),
            Digits(of(&it.peeled))
        )?;
    }
    Ok(())
}

/// The bytes of a name, or no bytes for none.
fn of(name: &Option<Name>) -> &[u8] {
    match name {
        Some(name) => &name.0,
        None => &[],
    }
}

fn loose_words(rt: &impl Print, refs: &[RefValue]) -> io::Result<()> {
    print!(rt; " loose")?;
    for it in refs {
        print!(rt; " {}={}", Text(it.name.bytes()), Digits(&it.value.0))?;
    }
    Ok(())
}
