ghost use Rattle.std.specs.Prelude.{◌≡◌, ◌==◌, IfOk, OnErr, IsSome, position};
ghost use Rattle.std.specs.List.{list_all};
ghost use Rattle.gt_reftext.specs.Lines.{ref_line, good_reference, name_of, is_zero, Cuts};
ghost use Rattle.gt_reftext.specs.Packed.{line_begin};

use crate::PackedRef;
use gt_list::NoMemory;
use gt_name::{Name, NameError, RefName};
use std::alloc::Global;

/// Where the first line feed stands.
fn line_end(rest: &[u8]) -> Option<usize>
    ensures { result ≡ position (λ b. b == 10) rest.now }
{
    rest.iter().position(|b| *b == b'\n')
}

/// The name that 40 hex digits in lower case spell.
pub(crate) fn name_of(text: &[u8]) -> Option<Name>
    ensures { result ≡ name_of text.now }
{
    match Name::parse(text) {
        Ok(name) => Some(name),
        Err(_) => None,
    }
}

fn is_zero(value: &Name) -> bool
    ensures { result ≡ is_zero value.now }
{
    value.0.iter().all(|b| *b == 0)
}

/// A reference without a peeled name; none where the name is bad or the value is zero.
fn reference(alloc: Global, value: Name, text: &[u8]) -> Result<Option<PackedRef>, NoMemory>
    ensures found { IfOk result (λ found. found ≡ good_reference value text.now) }
    // Memory is wanted only for a good one.
    ensures memory { OnErr result (IsSome (good_reference value text.now)) }
{
    if is_zero(&value) {
        return Ok(None);
    }
    match RefName::parse(alloc, text) {
        Err(NameError::Memory) => Err(NoMemory),
        Err(_) => Ok(None),
        Ok(name) => Ok(Some(PackedRef {
            name,
            value,
            peeled: None,
        })),
    }
}

/// The reference of a line: 40 hex digits, a space, and its name.
#[tactic(auto, unfolding(crate::specs::Lines::ref_line))]
pub(crate) fn ref_line(alloc: Global, line: &[u8]) -> Result<Option<PackedRef>, NoMemory>
    ensures found { IfOk result (λ found. found ≡ ref_line line.now) }
    ensures memory { OnErr result (IsSome (ref_line line.now)) }
{
    if line.len() < 41 {
        return Ok(None);
    }
    if line[40] != b' ' {
        return Ok(None);
    }
    let (digits, _) = line.split_at(40);
    let (_, name) = line.split_at(41);
    match name_of(digits) {
        None => Ok(None),
        Some(value) => {
            let found = reference(alloc, value, name)?;
            Ok(found)
        }
    }
}

/// The first line without its line feed, and what stands behind that; none where no line feed is left.
pub(crate) fn first_line(rest: &[u8]) -> Option<(&[u8], &[u8])>
    ensures { Cuts rest.now result }
{
    match line_end(rest) {
        None => None,
        Some(end) => {
            let (line, _) = rest.split_at(end);
            let (_, after) = rest.split_at(end + 1);
            Some((line, after))
        }
    }
}

/// The place where the line of this number, counted from 1, begins, in bytes. Past the last line it is one more than the
/// text's length. It goes over the lines before it, so it is for a bad line alone.
pub fn line_begin(bytes: &[u8], line: usize) -> usize
    ensures { result ≡ line_begin bytes.now line }
{
    let mut begin = 0;
    let mut rest = bytes;
    'lines: for _ in 1..line {
        match first_line(rest) {
            None => return begin + rest.len() + 1,
            Some((first, after)) => {
                begin += first.len() + 1;
                rest = after;
            }
        }
    }
    begin
}
