//! How fast the parts are: `objects COUNT..` and `references COUNT..`, each with numbers. Without words it only says so.
#![tactic(auto)]

mod content;
mod objects;
mod references;
mod rounds;

use std::alloc::Global;
use std::rt::Runtime;
use std::{env, io};

fn measure<R: Runtime>(rt: &R, alloc: Global, part: &str, count: &str) -> io::Result<()> {
    let Ok(count) = count.parse::<u32>() else {
        return println!(rt; "bench: not a number");
    };
    match part {
        "objects" => objects::measure(rt, alloc, count.min(400_000)),
        "references" => references::measure(rt, alloc, u64::from(count)),
        _ => println!(rt; "bench: no such part"),
    }
}

fn main(rt: HostRuntime) -> io::Result<()> {
    let mut words = env::args(&rt)?.skip(1);
    let Some(part) = words.next() else {
        return println!(rt; "bench: nothing measured, since no part was named");
    };
    for count in words {
        measure(&rt, rt.alloc(), part.as_str(), count.as_str())?;
    }
    Ok(())
}
