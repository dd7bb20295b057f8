//! A history with its owner and readers.
ghost use Rattle.std.specs.Prelude.{◌≡◌, ◌+◌, ◌≤◌, ◌<◌, ◌^◌, [], ◌∷◌, ◌++◌, length, vec_len, IfOk};

use gt_front::{History, Owner, Reader, Told};
use gt_model::{Change, Entry};
use gt_name::RepoPath;
use std::alloc::{AllocError, Global};
use std::sync::Wait;
use std::thread::Threads;
use std::{io, thread};

/// A log of entries, as the owner of a history has it.
#[derive(Drop)]
struct Log {
    first: u64,
    updates: Vec<Entry>,
    ghost fits: { first + vec_len updates < 2 ^ 64 },
}

impl Told for Log {
    ghost first = { λ l. l.first };

    ghost list = { λ l. l.updates.items };

    fn last(&self) -> u64 {
        self.first + self.updates.len() as u64
    }
}

impl Log {
    fn push(&mut self, update: Entry) -> Result<(), AllocError>
        requires { self.old.first + vec_len self.old.updates + 1 < 2 ^ 64 }
        ensures first { self.new.first ≡ self.old.first }
        ensures items { IfOk result (λ _. self.new.updates.items ≡ self.old.updates.items ++ update ∷ []) }
    {
        self.updates.push(update)?;
        Ok(())
    }
}

fn empty_log(alloc: Global) -> Log
    ensures { (result.first ≡ 0) × (result.updates.items ≡ []) }
{
    Log {
        first: 0,
        updates: Vec::new(alloc),
    }
}

fn created(alloc: Global, position: u64) -> Result<Entry, AllocError> {
    let Ok(path) = RepoPath::parse(alloc, b"a.git") else {
        return Err(AllocError);
    };
    Ok(Entry {
        position,
        path,
        change: Change::Create { pool: false },
    })
}

/// What the two readers saw.
#[derive(Drop)]
struct Watched {
    early: u64,
    late: u64,
    behind: Reader,
    first: Reader,
    second: Reader,
}

/// A third entry is published beside two readers. One that only loads has two entries still, and one that meets the owner has three.
fn watch(
    history: &History,
    owner: &mut Owner,
    mut log: Log,
    third: Entry,
) -> Result<Watched, AllocError>
    requires history { owner.old.history ≡ history.now }
    requires first { log.first ≡ history.now.first }
    requires begins { owner.old.list ≡ [] }
    requires room { log.first + vec_len log.updates + 1 < 2 ^ 64 }
    ensures behind { IfOk result (λ w. (w.behind.list ≡ log.updates.items) × (w.behind.number ≡ w.late)) }
    ensures first { IfOk result (λ w. w.first.list ≡ log.updates.items ++ third ∷ []) }
    ensures second { IfOk result (λ w. w.second.list ≡ log.updates.items ++ third ∷ []) }
    ensures loaded { IfOk result (λ w. (log.first + vec_len log.updates ≤ w.early) × (w.early ≤ w.late)) }
{
    history.publish(owner, &log);
    let mut first = history.reader(owner);
    let mut second = history.split(&mut first);
    let early = history.load(&mut first);
    log.push(third)?;
    history.publish(owner, &log);
    history.meet(&mut second, owner);
    let late = history.load(&mut first);
    let behind = history.split(&mut first);
    history.meet(&mut first, owner);
    Ok(Watched {
        early,
        late,
        behind,
        first,
        second,
    })
}

/// Two entries are made, and then a third beside the readers.
fn third_beside(alloc: Global) -> Result<Watched, AllocError> {
    let (history, mut owner) = match History::new(alloc, 0) {
        Ok(made) => made,
        Err(_) => return Err(AllocError),
    };
    let mut log = empty_log(alloc);
    log.push(created(alloc, 1)?)?;
    log.push(created(alloc, 2)?)?;
    watch(&history, &mut owner, log, created(alloc, 3)?)
}

pub(crate) fn readers_row<R: Threads + Wait + Print + Sync>(
    rt: &R,
    alloc: Global,
) -> io::Result<()> {
    match third_beside(alloc) {
        Ok(seen) => println!(rt; "loads {} and {}", seen.early, seen.late),
        Err(_) => println!(rt; "no memory"),
    }
}

/// A reader loads in one thread while the owner publishes in another. Then they meet.
fn beside<R: Threads + Sync>(
    rt: &R,
    history: &History,
    mut owner: Owner,
    mut reader: Reader,
    log: &Log,
) -> (u64, Reader)
    requires owner { (owner.history ≡ history.now) × (owner.list ≡ []) }
    requires reader { reader.history ≡ history.now }
    requires first { log.now.first ≡ history.now.first }
    ensures list { result.1.list ≡ log.now.updates.items }
    ensures number { result.0 ≤ log.now.first + vec_len log.now.updates }
{
    let (mut owner, (loaded, mut reader)) = thread::join(
        rt,
        move || -> Owner
            requires { (owner.history ≡ history.now) × (owner.list ≡ []) × (log.now.first ≡ history.now.first) }
            ensures { (result.history ≡ history.entry.now) × (result.list ≡ log.entry.now.updates.items) }
        {
            let mut owner = owner;
            history.publish(&mut owner, log);
            owner
        },
        move || -> (u64, Reader)
            requires { reader.history ≡ history.now }
            ensures { (result.1.history ≡ history.entry.now) × (result.1.number ≡ result.0) }
        {
            let mut reader = reader;
            let loaded = history.load(&mut reader);
            (loaded, reader)
        },
    );
    history.meet(&mut reader, &mut owner);
    (loaded, reader)
}

/// One entry is published beside a reader.
fn loaded_beside<R: Threads + Wait + Sync>(rt: &R, alloc: Global) -> Result<u64, AllocError>
    ensures { IfOk result (λ n. n ≤ 1) }
{
    let (history, mut owner) = match History::new(alloc, 0) {
        Ok(made) => made,
        Err(_) => return Err(AllocError),
    };
    let mut log = empty_log(alloc);
    log.push(created(alloc, 1)?)?;
    let reader = history.reader(&mut owner);
    let (loaded, _reader) = beside(rt, &history, owner, reader, &log);
    Ok(loaded)
}

pub(crate) fn beside_row<R: Threads + Wait + Print + Sync>(
    rt: &R,
    alloc: Global,
) -> io::Result<()> {
    match loaded_beside(rt, alloc) {
        Ok(loaded) => println!(rt; "at most 1: {}", loaded <= 1),
        Err(_) => println!(rt; "no memory"),
    }
}
