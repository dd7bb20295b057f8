ghost use Rattle.std.specs.Prelude.{◌≡◌, ◌≤◌, List, ℕ, Ok, OnOk, IfOk, length, fold};
ghost use Rattle.gt_object.specs.Mentions.{noted, noted_entry, distinct};
ghost use Rattle.gt_object.specs.Trees.{tree_ids};
ghost use Rattle.gt_object.specs.Lines.{parent_ids, commit_ids, tag_ids};
ghost use Rattle.gt_object.specs.Grammar.{ids_of};
ghost use Rattle.gt_object.specs.Agrees.{Agrees};

use crate::Kind;
use crate::lines::{line_at, more_parents};
use crate::tree::{Found, entry_at};
use gt_list::{ListOf, NoMemory};
use gt_name::{Name, Names};
use std::alloc::Global;
use std::collections::BTreeSet;

/// One more name, unless it is there. The set has the names of the list.
fn note(names: &mut Names, set: &mut BTreeSet<Name>, name: Name) -> Result<(), NoMemory>
    requires { Agrees set.old names.old }
    ensures noted { OnOk result (names.new ≡ noted names.old name) }
    ensures agrees { OnOk result (Agrees set.new names.new) }
{
    match set.insert(name) {
        Err(_) => Err(NoMemory),
        Ok(false) => Ok(()),
        Ok(true) => {
            names.push(name)?;
            Ok(())
        }
    }
}

/// The name of an entry, unless it is a submodule.
fn note_entry(names: &mut Names, set: &mut BTreeSet<Name>, found: &Found) -> Result<(), NoMemory>
    requires { Agrees set.old names.old }
    ensures noted { OnOk result (names.new ≡ noted_entry names.old found.now.submodule found.now.id) }
    ensures agrees { OnOk result (Agrees set.new names.new) }
{
    if found.submodule {
        return Ok(());
    }
    note(names, set, found.id)
}

/// What a tree mentions, each once, in order of first mention.
fn tree_deps(alloc: Global, content: &[u8]) -> Result<Names, NoMemory>
    ensures { IfOk result (λ names. (ids : List (List ℕ)) → tree_ids content.now ≡ Ok ids → names ≡ distinct ids) }
{
    let mut names = ListOf::new(alloc);
    let mut set = BTreeSet::new(alloc);
    let mut at = 0;
    'entries: while at < content.len() {
        match entry_at(content, at) {
            None => return Ok(names),
            Some(found) => match note_entry(&mut names, &mut set, &found) {
                Err(e) => return Err(e),
                Ok(()) => at = found.next,
            },
        }
    }
    Ok(names)
}

/// What parent lines from this place on mention, behind what is there.
fn note_parents(
    names: &mut Names,
    set: &mut BTreeSet<Name>,
    content: &[u8],
    from: usize,
) -> Result<(), NoMemory>
    requires inside { from ≤ length content.now }
    requires agrees { Agrees set.old names.old }
    ensures { OnOk result ((ids : List (List ℕ)) → parent_ids content.now from ≡ Ok ids → names.new ≡ fold noted names.old ids) }
{
    let mut at = from;
    'parents: while more_parents(content, at) {
        match line_at(b"parent ", content, at) {
            None => return Ok(()),
            Some(parent) => match note(names, set, parent) {
                Err(e) => return Err(e),
                Ok(()) => at += 48,
            },
        }
    }
    Ok(())
}

/// The tree and the parents of a commit, each once, in order of first mention.
#[tactic(auto, unfolding(crate::specs::Lines::commit_ids))]
fn commit_deps(alloc: Global, content: &[u8]) -> Result<Names, NoMemory>
    ensures { IfOk result (λ names. (ids : List (List ℕ)) → commit_ids content.now ≡ Ok ids → names ≡ distinct ids) }
{
    let mut names = ListOf::new(alloc);
    let mut set = BTreeSet::new(alloc);
    match line_at(b"tree ", content, 0) {
        None => return Ok(names),
        Some(tree) => note(&mut names, &mut set, tree)?,
    }
    note_parents(&mut names, &mut set, content, 46)?;
    Ok(names)
}

/// The object of a tag.
#[tactic(auto, unfolding(crate::specs::Lines::tag_ids))]
fn tag_deps(alloc: Global, content: &[u8]) -> Result<Names, NoMemory>
    ensures { IfOk result (λ names. (ids : List (List ℕ)) → tag_ids content.now ≡ Ok ids → names ≡ distinct ids) }
{
    let mut names = ListOf::new(alloc);
    match line_at(b"object ", content, 0) {
        None => {}
        Some(object) => names.push(object)?,
    }
    Ok(names)
}

/// What a content of this kind mentions, each once, in order of first mention.
pub(crate) fn content_deps(alloc: Global, kind: Kind, content: &[u8]) -> Result<Names, NoMemory>
    ensures { IfOk result (λ names. (ids : List (List ℕ)) → ids_of kind content.now ≡ Ok ids → names ≡ distinct ids) }
{
    match kind {
        Kind::Blob => Ok(ListOf::new(alloc)),
        Kind::Tree => tree_deps(alloc, content),
        Kind::Commit => commit_deps(alloc, content),
        Kind::Tag => tag_deps(alloc, content),
    }
}
