//! Entries of a log.
ghost use Rattle.gt_entry.specs.Fits.{HasSpelling};

use crate::digits::{Digits, Text};
use crate::records::name_lines;
use crate::texts::of;
use gt_entry::{decode_entry, encode_entry};
use gt_model::{Added, Change, Entry, RefUpdate};
use gt_name::{Name, Names};
use std::alloc::Global;
use std::io;

pub(crate) fn entry_row(rt: &impl Print, alloc: Global, bytes: &[u8]) -> io::Result<()> {
    match decode_entry(alloc, bytes) {
        Ok(entry) => entry_lines(rt, alloc, &entry, bytes),
        Err(error) => println!(rt; "{error:?}"),
    }
}

/// The position, the path, whether the entry is written again as these bytes, and its change.
fn entry_lines(rt: &impl Print, alloc: Global, entry: &Entry, bytes: &[u8]) -> io::Result<()>
    requires { HasSpelling entry.now }
{
    let again = is_spelled(alloc, entry, bytes);
    println!(rt; "{} {} {again}", entry.position, Text(entry.path.bytes()))?;
    change_lines(rt, &entry.change)
}

fn is_spelled(alloc: Global, entry: &Entry, bytes: &[u8]) -> bool
    requires { HasSpelling entry.now }
{
    match encode_entry(alloc, entry) {
        Ok(again) => again.as_slice() == bytes,
        Err(_) => false,
    }
}

fn change_lines(rt: &impl Print, change: &Change) -> io::Result<()> {
    match change {
        Change::Create { pool } => println!(rt; "  create pool {pool}"),
        Change::Delete => println!(rt; "  delete"),
        Change::Link { pool } => println!(rt; "  link {}", Text(pool.bytes())),
        Change::Write {
            refs,
            needed,
            added,
        } => write_lines(rt, refs.as_slice(), needed.as_slice(), added.as_slice()),
        Change::Repack { file, dropped } => packing_lines(rt, "repack", *file, dropped),
        Change::Prune { file, dropped } => packing_lines(rt, "prune", *file, dropped),
        Change::PackRefs { file } => println!(rt; "  packrefs {file}"),
        Change::Unlink { file } => println!(rt; "  unlink {file}"),
    }
}

fn packing_lines(rt: &impl Print, word: &str, file: u64, dropped: &Names) -> io::Result<()> {
    println!(rt; "  {word} {file}")?;
    name_lines(rt, "drops", dropped.as_slice())
}

fn write_lines(
    rt: &impl Print,
    refs: &[RefUpdate],
    needed: &[Name],
    added: &[Added],
) -> io::Result<()> {
    println!(rt; "  write {} {} {}", refs.len(), needed.len(), added.len())?;
    update_lines(rt, refs)?;
    name_lines(rt, "needs", needed)?;
    added_lines(rt, added)
}

fn update_lines(rt: &impl Print, refs: &[RefUpdate]) -> io::Result<()> {
    for it in refs {
        println!(rt;
            "  ref {} {} {}",
            Text(it.name.bytes()),
            Digits(&it.old.0),
            Digits(of(&it.new))
        )?;
    }
    Ok(())
}

fn added_lines(rt: &impl Print, added: &[Added]) -> io::Result<()> {
    for it in added {
        println!(rt;
            "  adds {} {}",
            Digits(&it.name.0),
            Digits(it.whole.bytes())
        )?;
    }
    Ok(())
}
