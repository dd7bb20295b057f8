// The pairs that were found, and how far they were looked up.
ghost use Rattle.std.specs.Prelude.{◌≡◌, ◌↔◌, ◌+◌, ◌<◌, ◌≤◌, ℕ, List, length, min, slice_get, Some, None, Err, IsTrue, IfOk, OnOk, OnErr};
ghost use Rattle.std.specs.List.{AllWithin, HoldsAt};
ghost use Rattle.gt_disk.specs.declared.file_id.FileId.{FileId};
ghost use Rattle.gt_mark.specs.Reach.{Pair, Mentions};
ghost use Rattle.gt_mark.specs.Marking.{IsUnderway, IsOnce, IsMentioned, Extends, Finds};
ghost use Rattle.gt_mark.specs.Reading.{HasReadCause};

use crate::{Marked, Pairs, ReadError, Reads};
use gt_list::NoMemory;
use gt_name::{Name, Names, RepoPath};
use std::alloc::Global;
use std::marker::Model;

/// Marking underway: the pairs in the order in which they were found, and of how many of them, from the front, what they
/// mention was looked up.
#[derive(Drop)]
pub struct Mark {
    marked: Marked,
    looked: usize,
}

impl Model for Mark {
    ghost use Rattle.std.specs.Prelude.{◌≤◌, length};
    ghost use Rattle.gt_mark.specs.Marking.{Found};

    ghost Value = { Found };

    ghost view = { λ m. record { pairs = m.marked; looked = m.looked } };

    ghost invariant = { λ m. m.looked ≤ length m.marked };
}

impl Mark {
    /// The roots are found, each once, and nothing was looked up.
    pub fn begin(alloc: Global, roots: &Pairs) -> Result<Mark, NoMemory>
        ensures underway { (mentions : Mentions) → IfOk result (IsUnderway roots.now mentions) }
        ensures looked { IfOk result (λ m. m.looked ≡ 0) }
    {
        let mut marked = Marked::new(alloc);
        marked.add_all(roots.as_slice())?;
        Ok(Mark { marked, looked: 0 })
    }

    /// How many pairs were found, each of them once.
    pub fn len(&self) -> usize
        ensures len { result ≡ length self.now.pairs }
        ensures once { IsOnce self.now.pairs }
    {
        self.marked.len()
    }

    /// Whether none is left to look up.
    pub fn is_done(&self) -> bool
        ensures done { IsTrue result ↔ (self.now.looked ≡ length self.now.pairs) }
        ensures within { self.now.looked ≤ length self.now.pairs }
    {
        self.looked == self.marked.len()
    }

    /// Looks up what the next `n` pairs mention, in the order in which they were found, and finds what is new of that. Answers
    /// whether none is left to look up.
    ///
    /// Where the reader fails, or memory runs out, the pairs before that one stay looked up, all that was found stays found,
    /// and it can be tried again.
    pub fn step<R: Reads>(&mut self, n: u32, reader: &mut R) -> Result<bool, ReadError>
        ensures underway { IsTrue R.tells → (roots : List Pair) → IsUnderway roots (R.mentions reader.old) self.old → IsUnderway roots (R.mentions reader.old) self.new }
        ensures mentions { IsTrue R.tells → R.mentions reader.new ≡ R.mentions reader.old }
        ensures bad { IsTrue R.tells → R.bad reader.new ≡ R.bad reader.old }
        ensures looked { OnOk result (self.new.looked ≡ min (self.old.looked + n) (length self.new.pairs)) }
        ensures done { IfOk result (λ is_done. IsTrue is_done ↔ (self.new.looked ≡ length self.new.pairs)) }
        ensures failed { OnErr result (self.new.looked < min (self.old.looked + n) (length self.new.pairs)) }
        ensures on { self.old.looked ≤ self.new.looked }
        ensures grows { Extends self.old.pairs self.new.pairs }
        ensures only { IsTrue R.tells → Finds (IsMentioned (R.mentions reader.old) self.new.pairs self.old.looked (self.old.looked + n)) self.old.pairs self.new.pairs }
        ensures good { IsTrue R.tells → AllWithin (λ p. R.bad reader.old p.0 p.1 ≡ None) self.new.pairs self.old.looked self.new.looked }
        ensures damaged { IsTrue R.tells → (file : FileId) (at : ℕ) → result ≡ Err (ReadError.Damaged file at) → HoldsAt (λ p. R.bad reader.old p.0 p.1 ≡ Some (file, at)) self.new.pairs self.new.looked }
        ensures cause { HasReadCause (R.fault_count reader.old) (R.fault_count reader.new) result }
    {
        'turns: for _ in 0..n {
            if self.is_done() {
                return Ok(true);
            }
            self.look_up(reader)?;
        }
        Ok(self.is_done())
    }

    /// Looks up what the next pair mentions, and finds what is new of that.
    fn look_up<R: Reads>(&mut self, reader: &mut R) -> Result<(), ReadError>
        requires { self.old.looked < length self.old.pairs }
        ensures underway { IsTrue R.tells → (roots : List Pair) → IsUnderway roots (R.mentions reader.old) self.old → IsUnderway roots (R.mentions reader.old) self.new }
        ensures mentions { IsTrue R.tells → R.mentions reader.new ≡ R.mentions reader.old }
        ensures bad { IsTrue R.tells → R.bad reader.new ≡ R.bad reader.old }
        ensures looked { OnOk result (self.new.looked ≡ self.old.looked + 1) }
        ensures stays { OnErr result (self.new.looked ≡ self.old.looked) }
        ensures grows { Extends self.old.pairs self.new.pairs }
        ensures only { IsTrue R.tells → Finds (IsMentioned (R.mentions reader.old) self.old.pairs self.old.looked (self.old.looked + 1)) self.old.pairs self.new.pairs }
        ensures good { IsTrue R.tells → OnOk result (HoldsAt (λ p. R.bad reader.old p.0 p.1 ≡ None) self.old.pairs self.old.looked) }
        ensures damaged { IsTrue R.tells → (file : FileId) (at : ℕ) → result ≡ Err (ReadError.Damaged file at) → HoldsAt (λ p. R.bad reader.old p.0 p.1 ≡ Some (file, at)) self.old.pairs self.old.looked }
        ensures cause { HasReadCause (R.fault_count reader.old) (R.fault_count reader.new) result }
    {
        // for the prover: one more fits
        let _ = self.marked.len();
        let Some(pair) = self.marked.at(self.looked) else {
            unreachable!();
        };
        let (path, names) = read(pair, reader)?;
        self.marked.add_names(path, names.as_slice())?;
        self.looked += 1;
        Ok(())
    }

    /// The pairs, once what each mentions was looked up: each of them once, in the order in which they were found.
    pub fn done(self) -> Marked
        requires { self.looked ≡ length self.pairs }
        ensures pairs { result ≡ self.pairs }
        ensures once { IsOnce result }
    {
        let Mark { marked, looked: _ } = self;
        // for the prover
        let _ = marked.len();
        marked
    }
}

/// A copy of the pair's path, and the names that the pair mentions.
fn read<R: Reads>(pair: &(RepoPath, Name), reader: &mut R) -> Result<(RepoPath, Names), ReadError>
    ensures mentions { IsTrue R.tells → R.mentions reader.new ≡ R.mentions reader.old }
    ensures bad { IsTrue R.tells → R.bad reader.new ≡ R.bad reader.old }
    ensures path { IfOk result (λ read. read.0 ≡ pair.now.0) }
    ensures names { IsTrue R.tells → IfOk result (λ read. read.1 ≡ R.mentions reader.old pair.now.0 pair.now.1) }
    ensures good { IsTrue R.tells → OnOk result (R.bad reader.old pair.now.0 pair.now.1 ≡ None) }
    ensures damaged { IsTrue R.tells → (file : FileId) (at : ℕ) → result ≡ Err (ReadError.Damaged file at) → R.bad reader.old pair.now.0 pair.now.1 ≡ Some (file, at) }
    ensures cause { HasReadCause (R.fault_count reader.old) (R.fault_count reader.new) result }
{
    let path = pair.0.clone()?;
    let names = reader.deps(&pair.0, &pair.1)?;
    Ok((path, names))
}
