ghost use Rattle.std.specs.Prelude.{◌≡◌};
ghost use Rattle.std.specs.Option.{option_copied};

use gt_list::ListOf;
use gt_model::{Entry, EntryList, Job};
use gt_name::RepoPath;
use gt_plain::PlainContent;
use std::alloc::AllocError;
use std::marker::Model;

/// The work of a live job: its kind, the number of its file, how many units are left, and whether the file is ended.
#[derive(Clone, Copy, Debug)]
pub struct PlainWork {
    pub job: Job,
    pub file: u64,
    pub left: u64,
    pub is_ready: bool,
}

impl Model for PlainWork {
    ghost use Rattle.gt_model.specs.Machine.{Work};

    ghost Value = { Work };

    ghost view = { λ w. record { job = w.job; file = w.file; left = w.left; is_ready = w.is_ready } };

    ghost inverse = { λ w. record { job = w.job; file = w.file; left = w.left; is_ready = w.is_ready } };
}

/// A live transaction, or with work a live job: its number, the position that it reads, and its repository.
#[derive(Drop)]
pub struct PlainPin {
    pub number: u8,
    pub position: u64,
    pub path: RepoPath,
    pub work: Option<PlainWork>,
}

impl Model for PlainPin {
    ghost use Rattle.gt_model.specs.Machine.{Pin};

    ghost Value = { Pin };

    ghost view = { λ p. record { number = p.number; position = p.position; path = p.path; work = p.work } };
}

impl Clone for PlainPin {
    ghost is_clone = { λ a b. b ≡ a };

    fn clone(&self) -> Result<PlainPin, AllocError> {
        let path = self.path.clone()?;
        Ok(PlainPin {
            number: self.number,
            position: self.position,
            path,
            work: self.work,
        })
    }
}

impl PlainPin {
    pub fn number(&self) -> u8
        ensures { result ≡ self.now.number }
    {
        self.number
    }

    pub fn position(&self) -> u64
        ensures { result ≡ self.now.position }
    {
        self.position
    }

    pub fn path(&self) -> &RepoPath
        ensures { result.now ≡ self.now.path }
    {
        &self.path
    }

    pub fn work(&self) -> Option<PlainWork>
        ensures { result ≡ self.now.work }
    {
        self.work
    }
}

/// Live transactions and jobs, in order of beginning.
pub type PlainPins = ListOf<PlainPin>;

/// What an application comes to: the position up to which entries are applied, and the next free file number.
#[derive(Clone, Copy, Debug)]
pub struct PlainApplying {
    pub position: u64,
    pub next: u64,
}

impl Model for PlainApplying {
    ghost use Rattle.gt_model.specs.Machine.{Applying};

    ghost Value = { Applying };

    ghost view = { λ a. record { position = a.position; next = a.next } };

    ghost inverse = { λ a. record { position = a.position; next = a.next } };
}

/// A partition since it was opened.
#[derive(Drop)]
pub struct PlainState {
    /// The position behind which the log begins, and the content there.
    pub begin: u64,
    pub base: PlainContent,
    /// The log, and an entry that may be in the log or not.
    pub log: EntryList,
    pub doubt: Option<Entry>,
    /// The live transactions and jobs, in order of beginning.
    pub pins: PlainPins,
    /// The position up to which entries are applied, the number of its manifest, the next free file number there, and an
    /// application that may count or not.
    pub applied: u64,
    pub epoch: u64,
    pub manifest_next: u64,
    pub turning: Option<PlainApplying>,
    /// No position below this one is kept.
    pub floor: u64,
    /// The next free file number.
    pub next: u64,
}

/// What files recover to: the number of a manifest, the position up to which its files have the entries, the next free file
/// number there, the content at that position, and the log behind it.
#[derive(Drop)]
pub struct PlainRecovered {
    pub epoch: u64,
    pub applied: u64,
    pub next: u64,
    pub base: PlainContent,
    pub log: EntryList,
}
