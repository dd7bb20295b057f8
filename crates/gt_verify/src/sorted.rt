ghost use Rattle.std.specs.Prelude.{◌≡◌, ◌<◌, ◌&&◌, ◌++◌, true, false, codes, length, nat_eq, IsSorted, IfOk, MatchOption};
ghost use Rattle.std.specs.List.{starts_with, slice_get};
ghost use Rattle.std.specs.Option.{option_copied};
ghost use Rattle.std.specs.Ordering.{is_lt};
ghost use Rattle.std.specs.Ordering.{is_lt};
ghost use Rattle.gt_model.specs.Contents.{key_cmp};
ghost use Rattle.gt_model.specs.Verdicts.{is_under, clashes};
ghost use Rattle.gt_verify.specs.Folders.{has_name, has_same, is_from, IsPlace, IsLeast, IsFolderAt};

use gt_list::NoMemory;
use gt_name::{Names2, RefName};
use std::alloc::Global;
use std::cmp::Ordering;
use std::marker::Model;

/// Names of references in byte order. Contracts see their list.
#[derive(Drop)]
pub(crate) struct SortedRefs {
    names: Vec<RefName>,
}

impl Model for SortedRefs {
    ghost use Rattle.std.specs.Prelude.{List, ℕ, IsSorted};
    ghost use Rattle.gt_model.specs.Contents.{key_cmp};

    ghost Value = { List (List ℕ) };

    ghost view = { λ s. s.names.items };

    ghost invariant = { λ s. IsSorted key_cmp s.names.items };
}

impl SortedRefs {
    /// These names, in order.
    pub(crate) fn of(mut names: Vec<RefName>) -> Result<SortedRefs, NoMemory>
        ensures { IfOk result (λ s. has_same s names.items) }
    {
        match names.sort() {
            Ok(()) => Ok(SortedRefs { names }),
            Err(_) => Err(NoMemory),
        }
    }

    /// The names as a list.
    pub(crate) fn into_list(self) -> Names2
        ensures value { result ≡ self }
        ensures sorted { IsSorted key_cmp result }
    {
        Names2::from_vec(self.names)
    }

    fn at(&self, place: usize) -> Option<&RefName>
        ensures { option_copied result ≡ slice_get self.now place }
    {
        self.names.get(place)
    }

    /// The index of the first name that isn't below a text.
    fn place(&self, text: &[u8]) -> usize
        ensures place { IsPlace self.now text.now result }
        ensures sorted { IsSorted key_cmp self.now }
    {
        self.names.partition_point(|name| is_below(name, text))
    }

    /// The least name that isn't below a text.
    fn from(&self, text: &[u8]) -> Option<&RefName>
        ensures { IsLeast (λ q. has_name self.now q && is_from text.now q) (option_copied result) }
    {
        self.at(self.place(text))
    }

    /// The name that is this text.
    fn get(&self, text: &[u8]) -> Option<&RefName>
        ensures { MatchOption (option_copied result) (has_name self.now text.now ≡ false) (λ found. (found ≡ text.now) × (has_name self.now text.now ≡ true)) }
    {
        match self.from(text) {
            Some(found) => {
                if found.bytes() == text {
                    Some(found)
                } else {
                    None
                }
            }
            None => None,
        }
    }

    /// The name that is the front of this text before a slash at this place.
    fn folder_at(&self, text: &[u8], at: usize) -> Option<&RefName>
        requires { at < length text.now }
        ensures { IsFolderAt self.now text.now at (option_copied result) }
    {
        if text[at] == b'/' {
            self.get(&text[..at])
        } else {
            None
        }
    }

    /// The least name in whose folder this one stands.
    fn above(&self, name: &RefName) -> Option<&RefName>
        ensures { IsLeast (λ q. has_name self.now q && is_under name.now q) (option_copied result) }
    {
        let text = name.bytes();
        for at in 0..text.len() {
            if let Some(found) = self.folder_at(text, at) {
                return Some(found);
            }
        }
        None
    }

    /// The least name that begins with this text.
    fn below(&self, text: &[u8]) -> Option<&RefName>
        ensures { IsLeast (λ q. has_name self.now q && starts_with nat_eq q text.now) (option_copied result) }
    {
        match self.from(text) {
            Some(found) => {
                if found.bytes().starts_with(text) {
                    Some(found)
                } else {
                    None
                }
            }
            None => None,
        }
    }

    /// The least name that stands in the folder of this one, or in whose folder this one stands.
    pub(crate) fn clash(&self, alloc: Global, name: &RefName) -> Result<Option<&RefName>, NoMemory>
        ensures { IfOk result (λ found. IsLeast (λ q. has_name self.now q && clashes name.now q) (option_copied found)) }
    {
        if let Some(found) = self.above(name) {
            return Ok(Some(found));
        }
        let folder = folder_of(alloc, name)?;
        Ok(self.below(folder.as_slice()))
    }
}

fn is_below(name: &RefName, text: &[u8]) -> bool
    ensures { result ≡ is_lt (key_cmp name.now text.now) }
{
    matches!(name.bytes().cmp(text), Ordering::Less)
}

/// The text that begins the names in a name's folder.
fn folder_of(alloc: Global, name: &RefName) -> Result<Vec<u8>, NoMemory>
    ensures { IfOk result (λ text. text.items ≡ name.now ++ codes "/") }
{
    let mut text = Vec::from_slice(alloc, name.bytes())?;
    text.push(b'/')?;
    Ok(text)
}
