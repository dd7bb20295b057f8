//! Owners in threads: each opens a folder while the other does, and keeps it until both have tried.
use gt_list::{ListOf, NoMemory};
use gt_outside::Gate;
use gt_pool::{Kits, TicketPass, Tickets, Work, run_all};
use gt_real::FolderDisk;
use std::alloc::Global;
use std::sync::Wait;
use std::sync::atomic::{AtomicU64, Ordering};
use std::thread::Threads;
use std::{io, thread};

/// The gate gives up after so many turns.
const TURNS: u64 = 10_000_000;

/// Holds each until both have come.
#[derive(Drop)]
struct Together {
    wanted: u64,
    came: AtomicU64,
}

impl Gate for Together {
    fn meet(&self, _line: u32, _answered: bool) {
        self.came.fetch_add(1, Ordering::SeqCst);
        for _ in 0..TURNS {
            if self.came.load(Ordering::SeqCst) >= self.wanted {
                return;
            }
            thread::yield_now();
        }
    }
}

/// What a thread opens the folder with.
#[derive(Drop)]
struct Owner {
    rt: HostRuntime,
    folder: String,
}

#[derive(Drop)]
struct Owners {
    count: u32,
}

impl Work for Owners {
    type Kit = Owner;

    type Piece = bool;

    ghost size = { λ w. w.count };

    ghost gives = { λ w i p. Unit {0} };

    ghost steps = { λ w before i after. Unit {0} };

    fn count(&self) -> u32 {
        self.count
    }

    fn run<R: Wait, G: Gate>(
        &self,
        _rt: &R,
        index: u32,
        kit: &mut Owner,
        _tickets: &Tickets,
        _pass: &mut TicketPass,
        gate: &G,
    ) -> bool {
        let opened = open(kit);
        gate.meet(index, false);
        opened.is_some()
    }
}

fn open(owner: &Owner) -> Option<FolderDisk<HostRuntime>> {
    let folder = owner.folder.clone().ok()?;
    let rt = owner.rt.clone().ok()?;
    FolderDisk::open(rt, folder).ok()
}

/// The two owners; fewer where memory runs out.
fn owners_of(rt: &HostRuntime, folder: &str) -> io::Result<Kits<Owner>> {
    let alloc = rt.alloc();
    let mut kits = ListOf::new(alloc);
    for _ in 0..2 {
        let folder = String::from_str(alloc, folder)?;
        let rt = rt.clone()?;
        if let Err(NoMemory) = kits.push(Owner { rt, folder }) {
            return Ok(ListOf::new(alloc));
        }
    }
    Ok(kits)
}

/// How many of two threads have a folder open at the same time.
pub(crate) fn threads_row<T: Threads + Wait + Sync>(
    rt: &HostRuntime,
    threads: &T,
    folder: &str,
) -> io::Result<()> {
    let kits = owners_of(rt, folder)?;
    let gate = Together {
        wanted: 2,
        came: AtomicU64::new(0),
    };
    if kits.len() != 2 {
        return println!(rt; "no memory");
    }
    match run_all(threads, rt.alloc(), kits, &Owners { count: 2 }, &gate) {
        Err(NoMemory) => println!(rt; "no memory"),
        Ok((pieces, _)) => {
            let opened = pieces.as_slice().iter().filter(|opened| **opened).count();
            println!(rt; "{opened}")
        }
    }
}
