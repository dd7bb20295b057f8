//! The value of the word behind a place, and that word's end.
ghost use Rattle.std.specs.Prelude.{◌≡◌, ◌≤◌, ◌<◌, ◌^◌, length, IfOk, codes};
ghost use Rattle.gt_script.specs.Values.{any, only, number, name, old, content};
ghost use Rattle.gt_script.specs.Texts.{kind_of, job_of, verb_of};
ghost use Rattle.gt_script.specs.Answers.{Reads, ReadsText};

use crate::LineError;
use crate::numbers::number;
use crate::texts::{job_of, kind_of};
use crate::values::{is_content, name_of, old_of};
use crate::verb::{Verb, verb_of};
use crate::words::next_word;
use gt_model::Job;
use gt_name::Name;
use gt_object::Kind;

/// Any word.
pub(crate) fn next_any(text: &[u8], at: usize) -> Result<(&[u8], usize), LineError>
    requires { at ≤ length text.now }
    ensures { ReadsText any text.now at result }
{
    next_word(text, at)
}

/// This word.
pub(crate) fn next_only<'a>(
    text: &'a [u8],
    at: usize,
    word: &[u8],
) -> Result<(&'a [u8], usize), LineError>
    requires { at ≤ length text.now }
    ensures { ReadsText (only word.now) text.now at result }
{
    let (found, end) = next_word(text, at)?;
    if found == word {
        Ok((found, end))
    } else {
        Err(LineError::BadLine { at: at + 1 })
    }
}

/// A content in hex, as it stands.
pub(crate) fn next_content(text: &[u8], at: usize) -> Result<(&[u8], usize), LineError>
    requires { at ≤ length text.now }
    ensures { ReadsText content text.now at result }
{
    let (word, end) = next_word(text, at)?;
    if is_content(word) {
        Ok((word, end))
    } else {
        Err(LineError::BadLine { at: at + 1 })
    }
}

/// The name of an object.
pub(crate) fn next_name(text: &[u8], at: usize) -> Result<(Name, usize), LineError>
    requires { at ≤ length text.now }
    ensures { Reads name text.now at result }
{
    let (word, end) = next_word(text, at)?;
    match name_of(word) {
        Some(name) => Ok((name, end)),
        None => Err(LineError::BadLine { at: at + 1 }),
    }
}

/// The name of an object, or `*`.
pub(crate) fn next_old(text: &[u8], at: usize) -> Result<(Option<Name>, usize), LineError>
    requires { at ≤ length text.now }
    ensures { Reads old text.now at result }
{
    let (word, end) = next_word(text, at)?;
    match old_of(word) {
        Some(old) => Ok((old, end)),
        None => Err(LineError::BadLine { at: at + 1 }),
    }
}

/// A number of this range.
pub(crate) fn next_number(
    text: &[u8],
    at: usize,
    low: u64,
    high: u64,
) -> Result<(u64, usize), LineError>
    requires at { at ≤ length text.now }
    requires high { high < 2 ^ 60 }
    ensures reads { Reads (number low high) text.now at result }
    ensures within { IfOk result (λ x. (low ≤ x.0) × (x.0 ≤ high)) }
{
    let (word, end) = next_word(text, at)?;
    match number(word, low, high) {
        Some(value) => Ok((value, end)),
        None => Err(LineError::BadLine { at: at + 1 }),
    }
}

/// A kind of object.
pub(crate) fn next_kind(text: &[u8], at: usize) -> Result<(Kind, usize), LineError>
    requires { at ≤ length text.now }
    ensures { Reads kind_of text.now at result }
{
    let (word, end) = next_word(text, at)?;
    match kind_of(word) {
        Some(kind) => Ok((kind, end)),
        None => Err(LineError::BadLine { at: at + 1 }),
    }
}

/// A kind of housekeeping.
pub(crate) fn next_job(text: &[u8], at: usize) -> Result<(Job, usize), LineError>
    requires { at ≤ length text.now }
    ensures { Reads job_of text.now at result }
{
    let (word, end) = next_word(text, at)?;
    match job_of(word) {
        Some(job) => Ok((job, end)),
        None => Err(LineError::BadLine { at: at + 1 }),
    }
}

/// A verb.
pub(crate) fn next_verb(text: &[u8], at: usize) -> Result<(Verb, usize), LineError>
    requires { at ≤ length text.now }
    ensures { Reads verb_of text.now at result }
{
    let (word, end) = next_word(text, at)?;
    match verb_of(word) {
        Some(verb) => Ok((verb, end)),
        None => Err(LineError::BadLine { at: at + 1 }),
    }
}
