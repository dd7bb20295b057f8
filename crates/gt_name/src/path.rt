ghost use Rattle.std.specs.Prelude.{◌≡◌, None, IfOk, IfErr, nat_eq};
ghost use Rattle.std.specs.Ordering.{nat_cmp, as_partial_cmp};
ghost use Rattle.std.specs.Cmp.Lexicographic.{slice_cmp, pointwise};
ghost use Rattle.std.specs.Cmp.{partial_order_from_own_ties};
ghost use Rattle.std.specs.Cmp.Rules.{comparing, hashing};
ghost use Rattle.std.specs.Hash as fed;
ghost use Rattle.std.proofs.Common.{rules};
ghost use Rattle.gt_name.specs.Paths.{bad_path, path_length, path_byte, path_component, path_end};

use crate::NameError;
use crate::component::{ComponentFault, faulty_component};
use std::alloc::{AllocError, Global};
use std::cmp::Ordering;
use std::hash::{Hash, Hasher};
use std::marker::Model;

/// A repository's path: 1 to 255 bytes of `a-z 0-9 . _ - /` in components that are not empty, `.` or `..`, with `.git` at
/// the end. Its order is that of its bytes; where one path is a prefix of another, the shorter is less.
#[derive(Debug, Drop)]
pub struct RepoPath {
    bytes: Vec<u8>,
}

impl Model for RepoPath {
    ghost use Rattle.std.specs.Prelude.{List, ℕ};
    ghost use Rattle.gt_name.specs.Paths.{IsPath};

    ghost Value = { List ℕ };

    ghost view = { λ p. p.bytes.items };

    ghost invariant = { λ p. IsPath p.bytes.items };
}

impl Clone for RepoPath {
    ghost is_clone = { λ a b. b ≡ a };

    fn clone(&self) -> Result<RepoPath, AllocError> {
        let bytes = self.bytes.clone()?;
        Ok(RepoPath { bytes })
    }
}

impl PartialEq for RepoPath {
    ghost eq = { pointwise nat_eq };

    ghost laws = { Prim.search (comparing, rules) };

    fn eq(&self, other: &RepoPath) -> bool {
        self.bytes.as_slice() == other.bytes.as_slice()
    }
}

impl Eq for RepoPath {
    ghost laws = { Prim.search (comparing, rules) };
}

impl Hash for RepoPath {
    ghost hash_input = { fed.slice fed.u8 };

    ghost respects_eq = { Prim.search (hashing, rules) };

    fn hash<H: Hasher>(&self, state: &mut H) {
        self.bytes.as_slice().hash(state);
    }
}

impl Ord for RepoPath {
    ghost cmp = { slice_cmp nat_cmp };

    ghost total = { Prim.search (comparing, rules) };

    ghost matches_partial_cmp = { Prim.search (comparing, rules) };

    ghost matches_eq = { Prim.search (comparing, rules) };

    fn cmp(&self, other: &RepoPath) -> Ordering {
        self.bytes.as_slice().cmp(other.bytes.as_slice())
    }
}

impl PartialOrd for RepoPath {
    ghost partial_cmp = { as_partial_cmp (slice_cmp nat_cmp) };

    ghost laws = { partial_order_from_own_ties (Prim.search (comparing, rules)) (Prim.search (comparing, rules)) };

    fn partial_cmp(&self, other: &RepoPath) -> Option<Ordering> {
        Some(self.cmp(other))
    }
}

impl RepoPath {
    ghost use Rattle.gt_name.specs.Refusals.{IsBadPath};

    /// Reads a path. The rules are tried in this order, and `BadPath` has the place where the first broken one is broken:
    ///
    /// 1. It has 1 to 255 bytes (the place is 0 where it is empty, 255 where it is longer).
    /// 2. Each byte is one of `a-z 0-9 . _ - /` (the first other byte).
    /// 3. No component is empty, `.` or `..` (the first such component's begin).
    /// 4. It ends in `.git` (its length).
    ///
    /// `Memory` is given only where memory ran out, for a text that breaks no rule.
    pub fn parse(alloc: Global, text: &[u8]) -> Result<RepoPath, NameError>
        ensures ok { IfOk result (λ path. (path ≡ text.now) × (bad_path text.now ≡ None)) }
        ensures err { IfErr result (IsBadPath (bad_path text.now)) }
    {
        if let Some(at) = broken_rule(text) {
            return Err(NameError::BadPath { at });
        }
        match Vec::from_slice(alloc, text) {
            Ok(bytes) => Ok(RepoPath { bytes }),
            Err(_) => Err(NameError::Memory),
        }
    }

    /// The path's text.
    pub fn bytes(&self) -> &[u8]
        ensures text { result.now ≡ self.now }
        ensures good { bad_path result.now ≡ None }
    {
        self.bytes.as_slice()
    }
}

fn bad_length(text: &[u8]) -> Option<usize>
    ensures { result ≡ path_length text.now }
{
    match text.len() {
        0 => Some(0),
        1..=255 => None,
        _ => Some(255),
    }
}

fn bad_byte(text: &[u8]) -> Option<usize>
    ensures { result ≡ path_byte text.now }
{
    text.iter().position(|b| !matches!(b, b'a'..=b'z' | b'0'..=b'9' | b'.' | b'_' | b'-' | b'/'))
}

fn bad_end(text: &[u8]) -> Option<usize>
    ensures { result ≡ path_end text.now }
{
    if text.ends_with(b".git") {
        None
    } else {
        Some(text.len())
    }
}

/// Where the first broken rule is broken.
fn broken_rule(text: &[u8]) -> Option<usize>
    ensures { result ≡ bad_path text.now }
{
    if let Some(at) = bad_length(text) {
        return Some(at);
    }
    if let Some(at) = bad_byte(text) {
        return Some(at);
    }
    if let Some(at) = faulty_component(ComponentFault::Improper, text) {
        return Some(at);
    }
    bad_end(text)
}
