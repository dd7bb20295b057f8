//! Which row a line is. Each has a small function, since a long one is dear to prove.
ghost use Rattle.std.specs.Prelude.{◌≤◌};

use crate::{meeting, numbers, passes, readers, relay};
use std::alloc::Global;
use std::io;
use std::sync::Wait;
use std::thread::Threads;

pub(crate) fn row<R: Threads + Wait + Print + Sync>(
    rt: &R,
    alloc: Global,
    row: &str,
) -> io::Result<()> {
    match row.split_once(' ') {
        Some((kind, words)) => numbers_row(rt, alloc, kind, words),
        None => bare_row(rt, alloc, row),
    }
}

fn bare_row<R: Threads + Wait + Print + Sync>(rt: &R, alloc: Global, row: &str) -> io::Result<()> {
    match row {
        "readers" => readers::readers_row(rt, alloc),
        "beside" => readers::beside_row(rt, alloc),
        "passes" => passes::passes_row(rt, alloc),
        _ => println!(rt; "no such row"),
    }
}

/// How many indices, and how many workers.
fn numbers_row<R: Threads + Wait + Print + Sync>(
    rt: &R,
    alloc: Global,
    kind: &str,
    words: &str,
) -> io::Result<()> {
    let Some((count, workers)) = words.split_once(' ') else {
        return println!(rt; "no such row");
    };
    match (count.parse(), workers.parse()) {
        (Ok(count), Ok(workers)) => workers_row(rt, alloc, kind, count, workers),
        _ => println!(rt; "no such row"),
    }
}

fn workers_row<R: Threads + Wait + Print + Sync>(
    rt: &R,
    alloc: Global,
    kind: &str,
    count: u32,
    workers: u32,
) -> io::Result<()> {
    if workers < 1 || workers > 16 {
        return println!(rt; "no such row");
    }
    match kind {
        "pieces" => numbers::pieces_row(rt, alloc, count, workers),
        "tickets" => relay::tickets_row(rt, alloc, count, workers),
        "together" => meeting::together_row(rt, alloc, count, workers),
        _ => println!(rt; "no such row"),
    }
}
