//! Fields, one of each kind, and lists.
use crate::digits::{Digits, Text};
use gt_bytes::{
    FieldError, get_name, get_text, get_u8, get_u16, get_u32, get_u64, put_name, put_text, put_u8,
    put_u16, put_u32, put_u64, read_word,
};
use gt_list::{ListOf, NoMemory, ReservedVec};
use std::alloc::Global;
use std::io;

/// A field of each kind.
#[derive(Drop)]
struct Fields<'a> {
    byte: u8,
    short: u16,
    word: u32,
    long: u64,
    name: [u8; 20],
    text: &'a [u8],
}

/// The fields, one behind the other, and then the word `GTF1`; whether they are written again as they were, and where the
/// word ends.
pub(crate) fn fields_row(rt: &impl Print, alloc: Global, bytes: &[u8]) -> io::Result<()> {
    match read_fields(bytes) {
        Ok((fields, end)) => fields_line(rt, alloc, &fields, bytes, end),
        Err(error) => println!(rt; "{error:?}"),
    }
}

fn read_fields(bytes: &[u8]) -> Result<(Fields, usize), FieldError> {
    let (byte, at) = get_u8(bytes, 0)?;
    let (short, at) = get_u16(bytes, at)?;
    let (word, at) = get_u32(bytes, at)?;
    let (long, at) = get_u64(bytes, at)?;
    let (name, at) = get_name(bytes, at)?;
    let ((begin, end), at) = get_text(bytes, at)?;
    let text = &bytes[begin..end];
    let ((), end) = read_word(b"GTF1", bytes, at)?;
    Ok((
        Fields {
            byte,
            short,
            word,
            long,
            name,
            text,
        },
        end,
    ))
}

fn fields_line(
    rt: &impl Print,
    alloc: Global,
    fields: &Fields,
    bytes: &[u8],
    end: usize,
) -> io::Result<()> {
    let Fields {
        byte,
        short,
        word,
        long,
        name,
        text,
    } = fields;
    print!(rt;
        "{byte} {short} {word} {long} {} {} ",
        Digits(name),
        Text(text)
    )?;
    let mut out = Vec::new(alloc);
    match put_fields(&mut out, fields) {
        Ok(()) => println!(rt; "{} {end}", bytes.starts_with(&out)),
        Err(NoMemory) => println!(rt; "no memory"),
    }
}

fn put_fields(out: &mut Vec<u8>, fields: &Fields) -> Result<(), NoMemory> {
    put_u8(out, fields.byte)?;
    put_u16(out, fields.short)?;
    put_u32(out, fields.word)?;
    put_u64(out, fields.long)?;
    put_name(out, &fields.name)?;
    if fields.text.len() < 65_536 {
        put_text(out, fields.text)?;
    }
    Ok(())
}

/// The bytes as a list: how many there are, the first and the one behind the last, the last as it is taken out, and whether
/// the list is its copy before and after that.
pub(crate) fn list_row(rt: &impl Print, alloc: Global, bytes: &[u8]) -> io::Result<()> {
    match (list_of(alloc, bytes), list_of(alloc, bytes)) {
        (Some(list), Some(other)) => list_line(rt, list, &other),
        _ => println!(rt; "no memory"),
    }
}

fn list_of(alloc: Global, bytes: &[u8]) -> Option<ListOf<u8>> {
    let mut list = ListOf::new(alloc);
    for byte in bytes {
        list.push(*byte).ok()?;
    }
    Some(list)
}

fn list_line(rt: &impl Print, mut list: ListOf<u8>, other: &ListOf<u8>) -> io::Result<()> {
    let len = list.len();
    print!(rt;
        "{len} {:?} {:?} {} ",
        list.at(0),
        list.at(len),
        list == *other
    )?;
    let last = list.pop();
    println!(rt; "{last:?} {} {}", Digits(list.as_slice()), list == *other)
}

/// The first two bytes, added in room that was taken for them.
pub(crate) fn room_row(rt: &impl Print, alloc: Global, bytes: &[u8]) -> io::Result<()> {
    let [first, second, ..] = bytes else {
        return println!(rt; "no two bytes");
    };
    let mut list = ReservedVec::new(alloc);
    match list.reserve(2) {
        Ok(()) => {
            list.add(*first);
            list.add(*second);
            println!(rt; "{}", Digits(list.as_slice()))
        }
        Err(NoMemory) => println!(rt; "no memory"),
    }
}
