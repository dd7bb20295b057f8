ghost use Rattle.std.specs.Prelude.{◌≡◌, ◌↔◌, ◌<◌, ◌^◌, [], length, slice_get, IsTrue, OnOk};
ghost use Rattle.std.specs.List.{All, IsAmong};
ghost use Rattle.std.specs.Option.{option_copied};
ghost use Rattle.gt_mark.specs.Marking.{Finds, IsNamed, IsOnce};

use gt_list::{ListOf, NoMemory};
use gt_name::{Name, RepoPath};
use indexmap::IndexSet;
use std::alloc::Global;
use std::marker::Model;

/// Pairs of a repository's path and a name in it.
pub type Pairs = ListOf<(RepoPath, Name)>;

/// Pairs of a repository's path and a name in it, each once, in the order in which they were found. Contracts see their
/// list. Each stands in memory once, and whether one is there is told by its hash.
#[derive(Drop)]
pub struct Marked {
    set: IndexSet<(RepoPath, Name)>,
}

impl Model for Marked {
    ghost use Rattle.std.specs.Prelude.{List};
    ghost use Rattle.gt_mark.specs.Reach.{Pair};

    ghost Value = { List Pair };

    ghost view = { λ m. m.set.keys };
}

impl Marked {
    /// No pairs. It takes no memory.
    pub(crate) fn new(alloc: Global) -> Marked
        ensures { result ≡ [] }
    {
        Marked {
            set: IndexSet::new(alloc),
        }
    }

    /// The pairs in the order in which they were found.
    pub fn as_slice(&self) -> &[(RepoPath, Name)]
        ensures { result.now ≡ self.now }
    {
        self.set.as_slice()
    }

    /// How many pairs there are, each of them once.
    pub fn len(&self) -> usize
        ensures len { result ≡ length self.now }
        ensures small { result < 2 ^ 63 }
        ensures once { IsOnce self.now }
    {
        self.set.len()
    }

    /// Whether a pair is there. It takes no memory.
    pub fn has(&self, pair: &(RepoPath, Name)) -> bool
        ensures { IsTrue result ↔ IsAmong self.now pair.now }
    {
        self.set.contains(pair)
    }

    /// The pair of this index, from 0. None exactly from `len` on.
    pub fn at(&self, at: usize) -> Option<&(RepoPath, Name)>
        ensures { option_copied result ≡ slice_get self.now at }
    {
        self.set.get_index(at)
    }

    /// Finds a pair: it goes last, unless it is there.
    pub(crate) fn add(&mut self, pair: &(RepoPath, Name)) -> Result<(), NoMemory>
        ensures finds { Finds (λ p. p ≡ pair.now) self.old self.new }
        ensures there { OnOk result (IsAmong self.new pair.now) }
    {
        if self.has(pair) {
            return Ok(());
        }
        let copy = (pair.0.clone()?, pair.1);
        self.set.insert(copy)?;
        Ok(())
    }

    /// Finds these pairs in order. Those before the one at which memory ran out stay.
    pub(crate) fn add_all(&mut self, pairs: &[(RepoPath, Name)]) -> Result<(), NoMemory>
        ensures finds { Finds (IsAmong pairs.now) self.old self.new }
        ensures there { OnOk result (All (IsAmong self.new) pairs.now) }
    {
        for pair in pairs {
            self.add(pair)?;
        }
        Ok(())
    }

    /// Finds names of one repository in order. Those before the one at which memory ran out stay. The path is copied only
    /// for a pair that is new.
    pub(crate) fn add_names(&mut self, path: RepoPath, names: &[Name]) -> Result<(), NoMemory>
        ensures finds { Finds (IsNamed path names.now) self.old self.new }
        ensures there { OnOk result (All (λ name. IsAmong self.new (path, name)) names.now) }
    {
        let mut pair = (path, Name::ZERO);
        for name in names {
            pair.1 = *name;
            self.add(&pair)?;
        }
        Ok(())
    }
}
