ghost use Rattle.std.specs.Prelude.{◌≡◌, [], ◌∷◌, None, IfOk, IfErr, nat_eq};
ghost use Rattle.std.specs.Ordering.{nat_cmp, as_partial_cmp};
ghost use Rattle.std.specs.Cmp.Lexicographic.{slice_cmp, pointwise};
ghost use Rattle.std.specs.Cmp.{partial_order_from_own_ties};
ghost use Rattle.std.specs.Cmp.Rules.{comparing, hashing};
ghost use Rattle.std.specs.Hash as fed;
ghost use Rattle.std.proofs.Common.{rules};
ghost use Rattle.gt_name.specs.References.{bad_ref, ref_end, by_rule};
ghost use Rattle.gt_name.specs.Broken.{first_of};

use crate::NameError;
use crate::places::{FirstPlaces, first_places};
use std::alloc::{AllocError, Global};
use std::cmp::Ordering;
use std::hash::{Hash, Hasher};
use std::marker::Model;

/// A reference's name: at most 1,024 bytes that begin with `refs/`, by the rules of Git's check-ref-format that
/// `parse` lists. Its order is that of its bytes; where one name is a prefix of another, the shorter is less.
#[derive(Debug, Drop)]
pub struct RefName {
    bytes: Vec<u8>,
}

impl Model for RefName {
    ghost use Rattle.std.specs.Prelude.{List, ℕ};
    ghost use Rattle.gt_name.specs.References.{IsRefName};

    ghost Value = { List ℕ };

    ghost view = { λ r. r.bytes.items };

    ghost invariant = { λ r. IsRefName r.bytes.items };
}

impl Clone for RefName {
    ghost is_clone = { λ a b. b ≡ a };

    fn clone(&self) -> Result<RefName, AllocError> {
        let bytes = self.bytes.clone()?;
        Ok(RefName { bytes })
    }
}

impl PartialEq for RefName {
    ghost eq = { pointwise nat_eq };

    ghost laws = { Prim.search (comparing, rules) };

    fn eq(&self, other: &RefName) -> bool {
        self.bytes.as_slice() == other.bytes.as_slice()
    }
}

impl Eq for RefName {
    ghost laws = { Prim.search (comparing, rules) };
}

impl Hash for RefName {
    ghost hash_input = { fed.slice fed.u8 };

    ghost respects_eq = { Prim.search (hashing, rules) };

    fn hash<H: Hasher>(&self, state: &mut H) {
        self.bytes.as_slice().hash(state);
    }
}

impl Ord for RefName {
    ghost cmp = { slice_cmp nat_cmp };

    ghost total = { Prim.search (comparing, rules) };

    ghost matches_partial_cmp = { Prim.search (comparing, rules) };

    ghost matches_eq = { Prim.search (comparing, rules) };

    fn cmp(&self, other: &RefName) -> Ordering {
        self.bytes.as_slice().cmp(other.bytes.as_slice())
    }
}

impl PartialOrd for RefName {
    ghost partial_cmp = { as_partial_cmp (slice_cmp nat_cmp) };

    ghost laws = { partial_order_from_own_ties (Prim.search (comparing, rules)) (Prim.search (comparing, rules)) };

    fn partial_cmp(&self, other: &RefName) -> Option<Ordering> {
        Some(self.cmp(other))
    }
}

impl RefName {
    ghost use Rattle.gt_name.specs.Refusals.{IsBadRef};

    /// Reads a reference's name. The rules are tried in this order, and `BadRef` has the first that is broken and its place:
    ///
    /// 1. It has at most 1,024 bytes (else the place is 1024).
    /// 2. It begins with `refs/` (the place is 0).
    /// 3. No byte is below 0x20, 0x7F or one of space `~ ^ : ? * [ \` (the first such byte).
    /// 4. No component is empty (where the first such component would begin).
    /// 5. No component begins with `.` (the first such component's begin).
    /// 6. It has no `..` (the first).
    /// 7. It has no `@{` (the first).
    /// 8. No component ends with `.lock` (the first such component's begin).
    /// 9. It does not end with `.` (the last byte).
    ///
    /// Bytes from 0x80 are allowed. `Memory` is given only where memory ran out, for a text that breaks no rule.
    pub fn parse(alloc: Global, text: &[u8]) -> Result<RefName, NameError>
        ensures ok { IfOk result (λ name. (name ≡ text.now) × (bad_ref text.now ≡ None)) }
        ensures err { IfErr result (IsBadRef (bad_ref text.now)) }
    {
        if let Some((rule, at)) = broken_rule(text) {
            return Err(NameError::BadRef { rule, at });
        }
        match Vec::from_slice(alloc, text) {
            Ok(bytes) => Ok(RefName { bytes }),
            Err(_) => Err(NameError::Memory),
        }
    }

    /// The name's text.
    pub fn bytes(&self) -> &[u8]
        ensures text { result.now ≡ self.now }
        ensures good { bad_ref result.now ≡ None }
    {
        self.bytes.as_slice()
    }
}

fn bad_end(text: &[u8]) -> Option<usize>
    ensures { result ≡ ref_end text.now }
{
    if text.ends_with(b".") {
        Some(text.len() - 1)
    } else {
        None
    }
}

fn numbered(rule: u8, broken: Option<usize>) -> Option<(u8, usize)>
    ensures { result ≡ by_rule rule broken }
{
    broken.map(|at| (rule, at))
}

/// The first broken rule of 3 to 9.
fn first_rule(found: FirstPlaces, end: Option<usize>) -> Option<(u8, usize)>
    ensures { result ≡ first_of (by_rule 3 found.byte ∷ by_rule 4 found.empty ∷ by_rule 5 found.dot ∷ by_rule 6 found.dots
        ∷ by_rule 7 found.brace ∷ by_rule 8 found.lock ∷ by_rule 9 end ∷ []) }
{
    numbered(3, found.byte)
        .or(numbered(4, found.empty))
        .or(numbered(5, found.dot))
        .or(numbered(6, found.dots))
        .or(numbered(7, found.brace))
        .or(numbered(8, found.lock))
        .or(numbered(9, end))
}

/// The first broken rule, and where it is broken.
#[tactic(auto, unfolding(crate::specs::References::bad_ref))]
fn broken_rule(text: &[u8]) -> Option<(u8, usize)>
    ensures { result ≡ bad_ref text.now }
{
    if text.len() > 1024 {
        return Some((1, 1024));
    }
    if !text.starts_with(b"refs/") {
        return Some((2, 0));
    }
    first_rule(first_places(text), bad_end(text))
}
