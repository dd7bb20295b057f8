//! The words of a line, as what they stand for.
ghost use Rattle.std.specs.Prelude.{◌≡◌, None, IfOk, IfErr, Result};
ghost use Rattle.gt_name.specs.Paths.{bad_path};
ghost use Rattle.gt_name.specs.References.{bad_ref};
ghost use Rattle.gt_session.specs.Courses.{content_of};
ghost use Rattle.gt_session.specs.Pieces.{IsCause, path_cause, ref_cause};

use gt_list::NoMemory;
use gt_model::Refusal;
use gt_name::{NameError, RefName, RepoPath};
use hex::FromHexError;
use std::alloc::Global;

/// The path that a word is. `BadPath` exactly where it is none.
pub(crate) fn path_of(alloc: Global, text: &[u8]) -> Result<RepoPath, Refusal>
    ensures ok { IfOk result (λ path. (path ≡ text.now) × (bad_path text.now ≡ None)) }
    ensures err { IfErr result (IsCause (path_cause text.now)) }
{
    match RepoPath::parse(alloc, text) {
        Ok(path) => Ok(path),
        Err(NameError::BadPath { at }) => Err(Refusal::BadPath { at: at as u64 }),
        Err(NameError::BadRef { .. }) => unreachable!(),
        Err(NameError::Memory) => Err(Refusal::Memory),
    }
}

/// The name of a reference that a word is. `BadRef` exactly where it is none.
pub(crate) fn ref_of(alloc: Global, text: &[u8]) -> Result<RefName, Refusal>
    ensures ok { IfOk result (λ name. (name ≡ text.now) × (bad_ref text.now ≡ None)) }
    ensures err { IfErr result (IsCause (ref_cause text.now)) }
{
    match RefName::parse(alloc, text) {
        Ok(name) => Ok(name),
        Err(NameError::BadRef { rule, at }) => Err(Refusal::BadRef {
            rule,
            at: at as u64,
        }),
        Err(NameError::BadPath { .. }) => unreachable!(),
        Err(NameError::Memory) => Err(Refusal::Memory),
    }
}

/// The content that a word spells in hex digits. `-` is none.
pub(crate) fn content_of(alloc: Global, word: &[u8]) -> Result<Vec<u8>, NoMemory>
    ensures { IfOk result (λ content. content.items ≡ content_of word.now) }
{
    if word == b"-".as_slice() {
        return Ok(Vec::new(alloc));
    }
    match hex::decode(alloc, word) {
        Ok(content) => Ok(content),
        Err(FromHexError::OutOfMemory) => Err(NoMemory),
        Err(_) => Ok(Vec::new(alloc)),
    }
}
