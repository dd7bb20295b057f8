//! Loads the bases of disks in memory, and prints what each has.
//!
//! Each line of the input is a row. `clear`, `file`, `limits` and `fail` set what the next load meets, and `load` prints a line.
#![tactic(auto)]

mod desk;
mod digits;
mod printing;
mod words;

use desk::Desk;
use std::io;

fn main(rt: HostRuntime) -> io::Result<()> {
    match Desk::new(rt.alloc()) {
        Some(mut desk) => take_lines(&rt, &mut desk),
        None => println!(rt; "no memory"),
    }
}

fn take_lines(rt: &HostRuntime, desk: &mut Desk) -> io::Result<()> {
    let alloc = rt.alloc();
    for line in rt.lines(alloc) {
        desk.take_line(rt, alloc, line?.as_str())?;
    }
    Ok(())
}
