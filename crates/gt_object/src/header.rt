ghost use Rattle.std.specs.Prelude.{◌≡◌, ◌==◌, ◌+◌, ◌<◌, ◌≤◌, ◌++◌, length, position, IfOk, IfSome, IsTrue, ◌↔◌};
ghost use Rattle.gt_object.specs.Header.{header, kind_of, content_begin, header_of};

use crate::Kind;
use gt_list::NoMemory;
use itoa::Buffer;
use std::alloc::Global;

/// A record has at most so many bytes, header and content together.
pub(crate) const MAX: usize = 16_777_216;

/// The kind whose word and a space begin the bytes.
pub(crate) fn kind_of(whole: &[u8]) -> Option<Kind>
    ensures { result ≡ kind_of whole.now }
{
    if whole.starts_with(b"commit ") {
        Some(Kind::Commit)
    } else if whole.starts_with(b"tree ") {
        Some(Kind::Tree)
    } else if whole.starts_with(b"blob ") {
        Some(Kind::Blob)
    } else if whole.starts_with(b"tag ") {
        Some(Kind::Tag)
    } else {
        None
    }
}

/// The first NUL.
fn first_nul(rest: &[u8]) -> Option<usize>
    ensures value { result ≡ position (λ b. b == 0) rest.now }
    ensures within { IfSome result (λ n. n < length rest.now) }
{
    rest.iter().position(|b| *b == 0)
}

/// Where the content begins, if the digits before the NUL are its length as `itoa` writes it. So no digits are read: a
/// leading zero or a number that is too large is another text.
#[tactic(auto, unfolding(crate::specs::Header::content_begin))]
fn content_begin(whole: &[u8], from: usize) -> Option<usize>
    requires { from ≤ length whole.now }
    ensures value { result ≡ content_begin whole.now from }
    ensures within { IfSome result (λ n. n ≤ length whole.now) }
{
    let (_, rest) = whole.split_at(from);
    match first_nul(rest) {
        None => None,
        Some(n) => {
            let (digits, tail) = rest.split_at(n);
            let mut buffer = Buffer::new();
            if digits == buffer.format(tail.len() - 1).as_bytes() {
                Some(from + n + 1)
            } else {
                None
            }
        }
    }
}

/// The kind, and where the content begins. None where the bytes have no header for what follows it.
#[tactic(auto, unfolding(crate::specs::Header::header_of))]
pub(crate) fn header_of(whole: &[u8]) -> Option<(Kind, usize)>
    ensures value { result ≡ header_of whole.now }
    ensures within { IfSome result (λ x. x.1 ≤ length whole.now) }
{
    match kind_of(whole) {
        None => None,
        Some(kind) => {
            let from = kind.word().len() + 1;
            if from > whole.len() {
                return None;
            }
            match content_begin(whole, from) {
                None => None,
                Some(begin) => Some((kind, begin)),
            }
        }
    }
}

/// The number of bytes of the header of a content of this length.
pub(crate) fn header_len(kind: Kind, len: usize) -> usize
    ensures value { result ≡ length (header kind len) }
    ensures short { result ≤ 32 }
{
    let mut buffer = Buffer::new();
    kind.word().len() + buffer.format(len).len() + 2
}

/// The header of a content, and the content.
pub(crate) fn spelled(alloc: Global, kind: Kind, content: &[u8]) -> Result<Vec<u8>, NoMemory>
    ensures { IfOk result (λ v. v.items ≡ header kind (length content.now) ++ content.now) }
{
    let mut out = Vec::from_slice(alloc, kind.word())?;
    out.push(b' ')?;
    let mut buffer = Buffer::new();
    out.extend_from_slice(buffer.format(content.len()).as_bytes())?;
    out.push(0)?;
    out.extend_from_slice(content)?;
    Ok(out)
}
