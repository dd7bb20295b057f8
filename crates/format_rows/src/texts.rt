//! Files of references, and lines of scripts.
ghost use Rattle.std.specs.Prelude.{not};
ghost use Rattle.std.specs.List.{AllPass};
ghost use Rattle.gt_reftext.specs.Lines.{is_zero};
ghost use Rattle.gt_reftext.specs.Packed.{Ascends};

use crate::digits::{Digits, Text};
use gt_name::Name;
use gt_reftext::{PackedList, PackedRef, read_loose, read_packed, write_loose, write_packed};
use gt_script::parse_line;
use std::alloc::Global;
use std::io;

/// The request of this line, with a line feed behind it.
pub(crate) fn line_row(rt: &impl Print, alloc: Global, text: &str) -> io::Result<()> {
    let line = format!(in alloc; "{text}\n")?;
    request_row(rt, alloc, line.as_bytes())
}

pub(crate) fn request_row(rt: &impl Print, alloc: Global, line: &[u8]) -> io::Result<()> {
    match parse_line(alloc, line) {
        Ok(request) => println!(rt; "{request:?}"),
        Err(error) => println!(rt; "{error:?}"),
    }
}

pub(crate) fn loose_row(rt: &impl Print, bytes: &[u8]) -> io::Result<()> {
    match read_loose(bytes) {
        Ok(name) => loose_line(rt, name, bytes),
        Err(error) => println!(rt; "{error:?}"),
    }
}

/// The value, and whether it is written again as these bytes.
fn loose_line(rt: &impl Print, name: Name, bytes: &[u8]) -> io::Result<()> {
    let again = write_loose(name).as_slice() == bytes;
    println!(rt; "{} {again}", Digits(&name.0))
}

pub(crate) fn packed_row(rt: &impl Print, alloc: Global, bytes: &[u8]) -> io::Result<()> {
    match read_packed(alloc, bytes) {
        Ok(list) => ref_lines(rt, list.as_slice(), is_spelled(alloc, &list, bytes)),
        Err(error) => println!(rt; "{error:?}"),
    }
}

/// Whether the references are written again as these bytes.
fn is_spelled(alloc: Global, list: &PackedList, bytes: &[u8]) -> bool
    requires ascending { Ascends list.now }
    requires no_zero { AllPass (λ r. not (is_zero r.value)) list.now }
{
    match write_packed(alloc, list) {
        Ok(again) => again.as_slice() == bytes,
        Err(_) => false,
    }
}

fn ref_lines(rt: &impl Print, refs: &[PackedRef], is_spelled: bool) -> io::Result<()> {
    println!(rt; "{} references {is_spelled}", refs.len())?;
    for it in refs {
        println!(rt;
            "  {} {} {}",
            Text(it.name.bytes()),
            Digits(&it.value.0),
            Digits(of(&it.peeled))
        )?;
    }
    Ok(())
}

/// The bytes of a name, or no bytes for none.
pub(crate) fn of(name: &Option<Name>) -> &[u8] {
    match name {
        Some(name) => &name.0,
        None => &[],
    }
}
