//! How fast references are looked up: so many references, and the nanoseconds of one of 200,000 look-ups of names in no order.
//! `bench/reftable` runs it beside `std::map`.
ghost use Rattle.std.specs.Prelude.{◌≡◌, ◌≤◌};

use gt_list::NoMemory;
use gt_name::{Name, RefName, RepoPath};
use gt_reftable::RefTable;
use std::alloc::Global;
use std::io;
use std::rt::Runtime;
use std::time::Instant;

const LOOKUPS: u64 = 200_000;

/// Names in no order: each number gives another.
fn name_of(alloc: Global, number: u64) -> Result<RefName, NoMemory> {
    let mixed = number.wrapping_mul(0x9E37_79B9_7F4A_7C15);
    let Ok(text) = format!(in alloc; "refs/heads/topic-{mixed:016x}") else {
        return Err(NoMemory);
    };
    match RefName::parse(alloc, text.as_bytes()) {
        Ok(name) => Ok(name),
        Err(_) => Err(NoMemory),
    }
}

fn filled(alloc: Global, path: &RepoPath, count: u64) -> Result<RefTable, NoMemory> {
    let mut table = RefTable::start(alloc, 0)?;
    for number in 0..count {
        let name = name_of(alloc, number)?;
        if table.front() != table.floor() {
            return Err(NoMemory);
        }
        table.seed(alloc, path, &name, Name([1; 20]))?;
    }
    Ok(table)
}

fn asked_names(alloc: Global, count: u64) -> Result<Vec<RefName>, NoMemory> {
    let mut names = Vec::new(alloc);
    let mut seed = 12345u64;
    for _ in 0..LOOKUPS {
        seed = seed
            .wrapping_mul(6_364_136_223_846_793_005)
            .wrapping_add(1_442_695_040_888_963_407);
        let name = name_of(alloc, (seed >> 33) % count.max(1))?;
        names.push(name)?;
    }
    Ok(names)
}

/// How many of the names are found at the floor.
fn look(table: &RefTable, path: &RepoPath, names: &[RefName]) -> u64 {
    let at = table.floor();
    if at > table.front() {
        return 0;
    }
    let mut found = 0u64;
    for name in names {
        if table.get(at, path, name).is_some() {
            found = found.saturating_add(1);
        }
    }
    found
}

fn prepared(alloc: Global, count: u64) -> Result<(RepoPath, RefTable, Vec<RefName>), NoMemory> {
    let Ok(path) = RepoPath::parse(alloc, b"a.git") else {
        return Err(NoMemory);
    };
    let table = filled(alloc, &path, count)?;
    let names = asked_names(alloc, count)?;
    Ok((path, table, names))
}

pub(crate) fn measure<R: Runtime>(rt: &R, alloc: Global, count: u64) -> io::Result<()> {
    match prepared(alloc, count) {
        Ok((path, table, names)) => time(rt, count, &table, &path, &names),
        Err(_) => println!(rt; "no memory"),
    }
}

fn time<R: Runtime>(
    rt: &R,
    count: u64,
    table: &RefTable,
    path: &RepoPath,
    names: &[RefName],
) -> io::Result<()> {
    let warm = look(table, path, names);
    let start = Instant::now(rt)?;
    let found = look(table, path, names);
    let each = start.elapsed(rt)?.as_nanos() / 200_000;
    println!(rt; "{count} {each} {found} {warm}")
}
