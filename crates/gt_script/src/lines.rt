//! Lines of words.
ghost use Rattle.std.specs.Prelude.{◌≡◌, ◌∷◌, [], ◌++◌, OnOk, OnErr, IfErr, codes, map, decimal};
ghost use Rattle.hex.specs.Hex.{encode_lower};
ghost use Rattle.gt_script.specs.declared.error.LineError.TheVariants.{Memory};
ghost use Rattle.gt_script.specs.Printed.{line, further, ok_line};
ghost use Rattle.gt_script.specs.Answers.{Writes};

use crate::LineError;
use gt_name::Name;
use itoa::Buffer;
use std::alloc::Global;

pub(crate) fn put(out: &mut Vec<u8>, bytes: &[u8]) -> Result<(), LineError>
    ensures ok { OnOk result (out.new.items ≡ out.old.items ++ bytes.now) }
    ensures err { IfErr result (λ e. e ≡ Memory) }
{
    match out.extend_from_slice(bytes) {
        Ok(()) => Ok(()),
        Err(_) => Err(LineError::Memory),
    }
}

/// A word behind a space.
pub(crate) fn put_word(out: &mut Vec<u8>, word: &[u8]) -> Result<(), LineError>
    ensures ok { OnOk result (out.new.items ≡ out.old.items ++ 32 ∷ word.now) }
    ensures err { IfErr result (λ e. e ≡ Memory) }
{
    match put(out, b" ") {
        Ok(()) => put(out, word),
        Err(e) => Err(e),
    }
}

fn put_words(out: &mut Vec<u8>, words: &[&[u8]]) -> Result<(), LineError>
    ensures ok { OnOk result (out.new.items ++ 10 ∷ [] ≡ out.old.items ++ further (map (λ w. w.now) words.now)) }
    ensures err { IfErr result (λ e. e ≡ Memory) }
{
    for word in words {
        if let Err(e) = put_word(out, word) {
            return Err(e);
        }
    }
    Ok(())
}

/// The line of these words.
pub(crate) fn line(alloc: Global, word: &[u8], words: &[&[u8]]) -> Result<Vec<u8>, LineError>
    ensures { Writes (line word.now (map (λ w. w.now) words.now)) result }
{
    let mut out = Vec::new(alloc);
    if let Err(e) = put(&mut out, word) {
        return Err(e);
    }
    if let Err(e) = put_words(&mut out, words) {
        return Err(e);
    }
    match put(&mut out, b"\n") {
        Ok(()) => Ok(out),
        Err(e) => Err(e),
    }
}

pub(crate) fn bare(alloc: Global, word: &[u8]) -> Result<Vec<u8>, LineError>
    ensures { Writes (line word.now []) result }
{
    line(alloc, word, &[])
}

pub(crate) fn with_word(alloc: Global, word: &[u8], part: &[u8]) -> Result<Vec<u8>, LineError>
    ensures { Writes (line word.now (part.now ∷ [])) result }
{
    line(alloc, word, &[part])
}

pub(crate) fn with_number(alloc: Global, word: &[u8], n: u64) -> Result<Vec<u8>, LineError>
    ensures { Writes (line word.now (decimal n ∷ [])) result }
{
    let mut buffer = Buffer::new();
    line(alloc, word, &[buffer.format(n).as_bytes()])
}

pub(crate) fn with_numbers(alloc: Global, word: &[u8], a: u64, b: u64) -> Result<Vec<u8>, LineError>
    ensures { Writes (line word.now (decimal a ∷ decimal b ∷ [])) result }
{
    let mut first = Buffer::new();
    let mut second = Buffer::new();
    line(
        alloc,
        word,
        &[first.format(a).as_bytes(), second.format(b).as_bytes()],
    )
}

pub(crate) fn with_name(alloc: Global, word: &[u8], name: &Name) -> Result<Vec<u8>, LineError>
    ensures { Writes (line word.now (encode_lower name.now ∷ [])) result }
{
    let text = name.text();
    line(alloc, word, &[&text])
}

/// `ok`, what was done, and a number.
pub(crate) fn ok(alloc: Global, word: &[u8], n: u64) -> Result<Vec<u8>, LineError>
    ensures { Writes (ok_line word.now n) result }
{
    let mut buffer = Buffer::new();
    line(alloc, b"ok", &[word, buffer.format(n).as_bytes()])
}
