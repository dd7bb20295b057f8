//! How fast records are named and read: a tree with so many entries and a blob of its size, beside the bare SHA-1 of the same
//! bytes.
use crate::content::tree_content;
use crate::rounds::{Work, rate};
use gt_object::Kind;
use std::alloc::Global;
use std::io;
use std::rt::Runtime;

pub(crate) fn measure<R: Runtime>(rt: &R, alloc: Global, entries: u32) -> io::Result<()> {
    let mut content = tree_content(alloc, entries)?;
    measure_as(rt, alloc, Kind::Tree, &mut content)?;
    measure_as(rt, alloc, Kind::Blob, &mut content)
}

fn measure_as<R: Runtime>(
    rt: &R,
    alloc: Global,
    kind: Kind,
    content: &mut Vec<u8>,
) -> io::Result<()> {
    let bare = rate(rt, alloc, Work::Bare, kind, content)?;
    let name = rate(rt, alloc, Work::Name, kind, content)?;
    let read = rate(rt, alloc, Work::Read, kind, content)?;
    let needs = rate(rt, alloc, Work::Needs, kind, content)?;
    println!(rt;
        "{} bytes, {kind:?}: sha1 {bare}, name {name}, read {read}, read and needs {needs} MB/s",
        content.len()
    )
}
