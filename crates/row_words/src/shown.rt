//! What is printed: words with a space between each two.
use gt_model::{Answer, Refusal};
use gt_name::{Name, Names};
use gt_script::print_answer;
use itoa::Buffer;
use std::alloc::{AllocError, Global};
use std::io;
use std::io::Write;

/// Of a longer line only the length and the SHA-1 are printed.
const LONGEST: usize = 2_000;

/// Prints the words of a row, if there are any.
pub fn show(rt: &impl Print, words: &[u8]) -> io::Result<()> {
    if words.is_empty() {
        return Ok(());
    }
    if words.len() <= LONGEST {
        io::writer(rt).write_all(words)?;
    } else {
        print!(rt; "{} bytes, SHA-1 ", words.len())?;
        io::writer(rt).write_all(&Name::of_record(words).text())?;
    }
    println!(rt; "")
}

pub fn put(out: &mut Vec<u8>, word: &[u8]) -> Result<(), AllocError> {
    if !out.is_empty() {
        out.push(b' ')?;
    }
    out.extend_from_slice(word)
}

pub fn put_name(out: &mut Vec<u8>, name: &Name) -> Result<(), AllocError> {
    put(out, &name.text())
}

pub fn put_number(out: &mut Vec<u8>, number: u64) -> Result<(), AllocError> {
    let mut buffer = Buffer::new();
    put(out, buffer.format(number).as_bytes())
}

pub fn put_is(out: &mut Vec<u8>, is: bool) -> Result<(), AllocError> {
    put(out, if is { b"yes" } else { b"no" })
}

/// The name of an object, or `none`.
pub fn put_value(out: &mut Vec<u8>, value: Option<Name>) -> Result<(), AllocError> {
    match value {
        Some(name) => put_name(out, &name),
        None => put(out, b"none"),
    }
}

/// How many names there are, and each.
pub fn put_names(out: &mut Vec<u8>, names: &Names) -> Result<(), AllocError> {
    put_number(out, names.len() as u64)?;
    for name in names.as_slice() {
        put_name(out, name)?;
    }
    Ok(())
}

/// The line of an answer, as a script has it.
pub fn put_answer(out: &mut Vec<u8>, alloc: Global, answer: &Answer) -> Result<(), AllocError> {
    match print_answer(alloc, answer) {
        Ok(line) => put(out, line.trim_ascii_end()),
        Err(_) => put(out, b"memory"),
    }
}

/// The line of a refusal, as a script's answer has it.
pub fn put_refusal(out: &mut Vec<u8>, alloc: Global, refusal: Refusal) -> Result<(), AllocError> {
    put_answer(out, alloc, &Err(refusal))
}
