//! Reads rows, a kind and a value each, and prints what the readers and writers of this repository make of each value, or why
//! not. A value is text, or its bytes in hex behind the word `hex`.
#![tactic(auto)]

mod answers;
mod digits;
mod entries;
mod fields;
mod manifests;
mod names;
mod packs;
mod records;
mod refusals;
mod rows;
mod texts;

use std::io;

fn main(rt: HostRuntime) -> io::Result<()> {
    for line in rt.lines(rt.alloc()) {
        rows::row(&rt, rt.alloc(), line?.as_str())?;
    }
    Ok(())
}
