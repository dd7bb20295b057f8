ghost use Rattle.std.specs.Prelude.{◌≡◌, ◌≤◌, ◌<◌, ◌+◌, ◌++◌, ◌∷◌, [], drop, length, vec_len, vec_capacity, OnOk};
ghost use Rattle.gt_table.specs.EntryLog.{gone_entries};

use gt_list::NoMemory;
use gt_model::Entry;
use std::alloc::Global;
use std::marker::Model;
use std::snapshot::Snapshot;

/// The entries of a log past a base, with room for further ones. Those that were dropped have no bytes; contracts see them
/// still. For each entry that is kept there is room to count it as dropped, so that dropping takes no memory.
#[derive(Drop)]
pub(crate) struct EntryLog {
    gone: Vec<Snapshot<Entry>>,
    kept: Vec<Entry>,
}

impl Model for EntryLog {
    ghost use Rattle.std.specs.Prelude.{◌+◌, ◌-◌, ◌≤◌, ◌++◌, length, min, vec_len, vec_capacity};
    ghost use Rattle.gt_table.specs.EntryLog.{Logged, logged_code, gone_entries};

    ghost Value = { Logged };

    ghost coded = { logged_code };

    ghost view = { λ l. record { log = gone_entries l.gone.items ++ l.kept.items; gone = vec_len l.gone; room = min (vec_capacity l.kept - vec_len l.kept) (vec_capacity l.gone - (vec_len l.gone + vec_len l.kept)) } };

    ghost invariant = { λ l. vec_len l.gone + vec_len l.kept ≤ vec_capacity l.gone };
}

impl EntryLog {
    /// No entry. It takes no memory.
    pub(crate) fn new(alloc: Global) -> EntryLog
        ensures log { result.log ≡ [] }
        ensures gone { result.gone ≡ 0 }
    {
        EntryLog {
            gone: Vec::new(alloc),
            kept: Vec::new(alloc),
        }
    }

    /// The entries that weren't dropped, in order.
    pub(crate) fn kept(&self) -> &[Entry]
        ensures { result.now ≡ drop self.now.gone self.now.log }
    {
        self.kept.as_slice()
    }

    /// Takes room for one further entry.
    pub(crate) fn reserve(&mut self) -> Result<(), NoMemory>
        ensures log { self.new.log ≡ self.old.log }
        ensures gone { self.new.gone ≡ self.old.gone }
        ensures ok { OnOk result (0 < self.new.room) }
    {
        if self.kept.reserve(1).is_err() {
            return Err(NoMemory);
        }
        match self.gone.reserve(self.kept.len() + 1) {
            Ok(()) => Ok(()),
            Err(_) => Err(NoMemory),
        }
    }

    /// Adds an entry, in room that was taken before.
    pub(crate) fn add(&mut self, entry: Entry)
        requires { 0 < self.old.room }
        ensures log { self.new.log ≡ self.old.log ++ entry ∷ [] }
        ensures gone { self.new.gone ≡ self.old.gone }
    {
        match self.kept.push(entry) {
            Ok(()) => {}
            Err(_) => unreachable!(),
        }
    }

    /// Drops so many more entries at the front. It takes no memory.
    pub(crate) fn drop_front(&mut self, count: usize)
        requires { self.old.gone + count ≤ length self.old.log }
        ensures log { self.new.log ≡ self.old.log }
        ensures gone { self.new.gone ≡ self.old.gone + count }
    {
        remember(&mut self.gone, &self.kept[..count]);
        let _front = self.kept.drain(..count);
    }
}

/// Counts these entries as dropped, in room that was taken before.
fn remember(gone: &mut Vec<Snapshot<Entry>>, entries: &[Entry])
    requires { vec_len gone.old + length entries.now ≤ vec_capacity gone.old }
    ensures items { gone_entries gone.new.items ≡ gone_entries gone.old.items ++ entries.now }
    ensures len { vec_len gone.new ≡ vec_len gone.old + length entries.now }
    ensures capacity { vec_capacity gone.old ≤ vec_capacity gone.new }
{
    for entry in entries {
        match gone.push(Snapshot::of(entry)) {
            Ok(()) => {}
            Err(_) => unreachable!(),
        }
    }
}
