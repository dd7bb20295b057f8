ghost use Rattle.std.specs.Prelude.{◌≡◌, ◌++◌, ◌+◌, ◌<◌, ◌≤◌, length, IfOk, IfErr, Some, None, nat_eq, nat_lt};
ghost use Rattle.std.specs.Cmp.Lexicographic.{pointwise};
ghost use Rattle.std.specs.Cmp.Rules.{comparing};
ghost use Rattle.std.proofs.Common.{rules};
ghost use Rattle.sha1.specs.Sha1.{sha1};
ghost use Rattle.gt_object.specs.declared.error.ObjectError.TheVariants.{Memory};
ghost use Rattle.gt_object.specs.Header.{header, kind_of};
ghost use Rattle.gt_object.specs.Whole.{why_not, why_not_new, IsReason, IsRecord, content_of, deps};

use crate::content::bad_content;
use crate::deps::content_deps;
use crate::header::{MAX, header_len, header_of, spelled};
use crate::{Kind, ObjectError};
use gt_name::{Name, Names};
use std::alloc::{AllocError, Global};
use std::marker::Model;

/// A record: the header of a content, and the content. A contract sees it as its bytes.
#[derive(Debug, Drop)]
pub struct Record {
    kind: Kind,
    begin: usize,
    bytes: Vec<u8>,
}

impl Model for Record {
    ghost use Rattle.std.specs.Prelude.{List, ℕ};
    ghost use Rattle.gt_object.specs.Whole.{Holds};

    ghost Value = { List ℕ };

    ghost view = { λ r. r.bytes.items };

    ghost invariant = { λ r. Holds r.kind r.begin r.bytes.items };
}

impl Clone for Record {
    ghost is_clone = { λ a b. b ≡ a };

    fn clone(&self) -> Result<Record, AllocError> {
        let bytes = self.bytes.clone()?;
        Ok(Record {
            kind: self.kind,
            begin: self.begin,
            bytes,
        })
    }
}

impl PartialEq for Record {
    ghost eq = { pointwise nat_eq };

    ghost laws = { Prim.search (comparing, rules) };

    fn eq(&self, other: &Record) -> bool {
        self.bytes.as_slice() == other.bytes.as_slice()
    }
}

impl Eq for Record {
    ghost laws = { Prim.search (comparing, rules) };
}

impl Record {
    /// The record of a content: its header, and a copy of it.
    ///
    /// Tried in this order: `TooLarge` exactly where header and content have more than 16,777,216 bytes together,
    /// `BadObject` exactly where the content breaks the grammar of its kind, at the first place that does, counted from
    /// the begin of the content, and then want of memory.
    pub fn new(alloc: Global, kind: Kind, content: &[u8]) -> Result<Record, ObjectError>
        ensures ok { IfOk result (λ r. (r ≡ header kind (length content.now) ++ content.now) × (why_not_new kind content.now ≡ None)) }
        ensures err { IfErr result (λ e. IsReason (why_not_new kind content.now) e) }
    {
        let begin = header_len(kind, content.len());
        if content.len() > MAX || begin > MAX - content.len() {
            return Err(ObjectError::TooLarge);
        }
        if let Some(at) = bad_content(kind, content) {
            return Err(ObjectError::BadObject { at });
        }
        let bytes = spelled(alloc, kind, content)?;
        Ok(Record { kind, begin, bytes })
    }

    /// The record that the bytes are, all of them; a copy of them.
    ///
    /// Tried in this order: `TooLarge` exactly where they are more than 16,777,216, `BadObject` at 0 exactly where they
    /// have no header for what follows it, `BadObject` exactly where the content breaks the grammar of its kind, at the
    /// first place that does, counted from the begin of the header, and then want of memory.
    #[tactic(auto, unfolding(crate::specs::Whole::why_not))]
    pub fn parse(alloc: Global, whole: &[u8]) -> Result<Record, ObjectError>
        ensures ok { IfOk result (λ r. (r ≡ whole.now) × (why_not whole.now ≡ None)) }
        ensures err { IfErr result (λ e. IsReason (why_not whole.now) e) }
    {
        if whole.len() > MAX {
            return Err(ObjectError::TooLarge);
        }
        let Some((kind, begin)) = header_of(whole) else {
            return Err(ObjectError::BadObject { at: 0 });
        };
        let (_, content) = whole.split_at(begin);
        if let Some(at) = bad_content(kind, content) {
            return Err(ObjectError::BadObject { at: begin + at });
        }
        let bytes = Vec::from_slice(alloc, whole)?;
        Ok(Record { kind, begin, bytes })
    }

    /// Its name: the SHA-1 (FIPS 180-4) of its bytes.
    pub fn name(&self) -> Name
        ensures { result ≡ sha1 self.now }
    {
        Name::of_record(self.bytes.as_slice())
    }

    /// Its kind.
    pub fn kind(&self) -> Kind
        ensures { kind_of self.now ≡ Some result }
    {
        self.kind
    }

    /// Its content, without the header.
    pub fn content(&self) -> &[u8]
        ensures { result.now ≡ content_of self.now }
    {
        let (_, content) = self.bytes.as_slice().split_at(self.begin);
        content
    }

    /// Its bytes, header and content. `parse` of them gives the record again.
    pub fn bytes(&self) -> &[u8]
        ensures value { result.now ≡ self.now }
        ensures sound { why_not self.now ≡ None }
    {
        self.bytes.as_slice()
    }

    /// The objects that it needs, each once, in order of first mention: of a tree the objects of its entries but
    /// submodules, of a commit its tree and its parents, of a tag its object, of a blob none. The only error is want of
    /// memory.
    pub fn deps(&self, alloc: Global) -> Result<Names, ObjectError>
        ensures ok { IfOk result (λ names. names ≡ deps self.now) }
        ensures err { IfErr result (λ e. e ≡ Memory) }
    {
        let names = content_deps(alloc, self.kind, self.content())?;
        Ok(names)
    }
}
