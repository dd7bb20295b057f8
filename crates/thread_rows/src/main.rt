//! Does rows of work in threads, and prints what comes of each. It prints the same for every number of workers.
#![tactic(auto)]

mod kit;
mod meeting;
mod numbers;
mod passes;
mod readers;
mod relay;
mod rows;

use std::io;

fn main(rt: HostRuntime) -> io::Result<()> {
    let alloc = rt.alloc();
    for line in rt.lines(alloc) {
        rows::row(&rt, alloc, line?.as_str())?;
    }
    Ok(())
}
