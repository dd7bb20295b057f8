ghost use Rattle.std.specs.Prelude.{◌≡◌, ◌⊎◌, ◌≤◌, ◌<◌, ◌+◌, ◌++◌, ◌∷◌, [], length, List, true, IsTrue, IfOk, IfErr, OnOk, OnErr, is_some, None, Err};
ghost use Rattle.std.specs.Option.{ForSome};
ghost use Rattle.std.proofs.Props.{props};
ghost use Rattle.gt_base.specs.Answers.{HasCause};
ghost use Rattle.gt_base.specs.Built.{IsBuilt};
ghost use Rattle.gt_base.specs.Recovery.{recover};
ghost use Rattle.gt_disk.specs.Files as files;
ghost use Rattle.gt_disk.specs.Files.{now};
ghost use Rattle.gt_disk.specs.Kinds.{gate_file};
ghost use Rattle.gt_disk.specs.Moments.{Since, Narrows};
ghost use Rattle.gt_log.specs.Log.{content_length};
ghost use Rattle.gt_log.specs.declared.mount_cause.MountCause.{MountCause as Cause};
ghost use Rattle.gt_model.specs.declared.limits.Limits.{Limits as Most};
ghost use Rattle.gt_model.specs.Contents.{fits};
ghost use Rattle.gt_entry.specs.Fits.{HasSpelling};
ghost use Rattle.gt_model.specs.Machine.{Pin, SettledEntry, opening, with_entry, with_pins};
ghost use Rattle.gt_sound.specs.Sound.{IsSoundState};
ghost use Rattle.gt_table.specs.Table.{HasRoomFor, IsUnmoved, front, floor, content};
ghost use Rattle.gt_table.proofs.Rooms.{room_for};
ghost use Rattle.gt_journal.specs.Ledger.{Stored, Remembers, state_of, ground, changed, front_of, doubt_after, known};
ghost use Rattle.gt_journal.specs.Histories.{IsGood, Moves, Settling};
ghost use Rattle.gt_journal.specs.Loading.{Opens, IsNumbered, HasAddCause};

use crate::loading::load;
use crate::spelling::add_entry;
use gt_base::Base;
use gt_disk::{Disk, Failed};
use gt_log::{Log, LogError, MountCause};
use gt_model::{Entry, Limits};
use gt_table::Table;
use std::alloc::Global;
use std::marker::Model;

/// The log of a disk past the base that was opened, its entries and contents in memory, and the entry in doubt, which fits and
/// for which there is room; the manifest up to which entries are applied, and the next free file number.
#[derive(Drop)]
pub struct Journal {
    log: Log,
    pub(crate) base: Base,
    pub(crate) table: Table,
    doubt: Option<Entry>,
    pub(crate) next: u64,
    ghost counts: { log.len ≡ front table.past },
    ghost unmoved: { IsUnmoved table },
    ghost doubts: { log.in_doubt ≡ is_some doubt },
    ghost built: { ForSome doubt IsBuilt },
    ghost after: { ForSome doubt (λ entry. entry.position ≡ front table.past + 1) },
    ghost fit: { ForSome doubt (λ entry. IsTrue (fits (content table.past) entry)) },
    ghost room: { ForSome doubt (λ entry. HasRoomFor entry table) } by { Prim.hlevel (props, room_for) },
}

impl Model for Journal {
    ghost use Rattle.gt_journal.specs.Ledger.{Ledger, ledger_of};
    ghost use Rattle.gt_journal.specs.Carried.{IsMemory};

    ghost Value = { Ledger };

    ghost invariant = { λ j. IsMemory (ledger_of j.table j.doubt j.base j.next) };

    ghost view = { λ j. ledger_of j.table j.doubt j.base j.next };
}

impl Journal {
    /// Opens what the disk's files recover to. `Damaged` names the first damage: a gate or a turn that is longer than its limit,
    /// then what the manifest of the epoch and the files that it names have, then the first entry past them that is absent,
    /// isn't spelled, or doesn't fit. `DeviceFault` comes only of a fault of the disk.
    pub fn open<D: Disk>(
        alloc: Global,
        limits: &Limits,
        disk: &mut D,
    ) -> Result<Journal, MountCause>
        // Over a disk that tells it opens exactly what the files recover to, or names the first damage.
        ensures answer { IsTrue D.tells → Opens (recover limits.now (D.view disk.old).reads) result }
        ensures settled { IfOk result (λ j. j.doubt ≡ None) }
        ensures flat { IfOk result (λ j. j.base.doubt ≡ None) }
        ensures unapplied { IfOk result (λ j. j.base.manifest.applied ≡ j.past.begin) }
        ensures whole { IfOk result (λ j. j.floor ≡ j.past.begin) }
        ensures numbered { IfOk result IsNumbered }
        ensures cause { HasCause (D.fault_count disk.old) (D.fault_count disk.new) result }
        ensures gate { IsTrue D.tells → limits.now.positions < content_length ((D.view disk.old).reads gate_file)
            → (result ≡ Err (Cause.Damaged gate_file limits.now.positions)) ⊎ (result ≡ Err Cause.DeviceFault) }
        ensures later { (D.view disk.old).clock ≤ (D.view disk.new).clock }
        ensures reads { IsTrue D.tells → (D.view disk.new).reads ≡ (D.view disk.old).reads }

        // At no moment can a stop leave what it couldn't leave before.
        ensures moments { IsTrue D.tells → Narrows (D.view disk.old) (D.view disk.new) }

        // A disk that may be handed in may be handed in again at each moment, and has what is opened.
        ensures good { IsTrue D.tells → IsGood limits.now (now (D.view disk.old)) → Since (IsGood limits.now) (D.view disk.old) (D.view disk.new) }
        ensures good_end { IsTrue D.tells → IsGood limits.now (now (D.view disk.old)) → IsGood limits.now (now (D.view disk.new)) }
        ensures stored { IsTrue D.tells → IsGood limits.now (now (D.view disk.old)) → IfOk result (λ j. Stored limits.now (opening (ground j)) (now (D.view disk.new)) × IsSoundState (opening (ground j)) × Remembers j (now (D.view disk.new))) }
    {
        let Ok(log) = Log::mount(disk) else {
            return Err(MountCause::DeviceFault);
        };
        match load(alloc, limits, &log, disk) {
            Ok((base, table, next)) => Ok(Journal {
                log,
                base,
                table,
                doubt: None,
                next,
            }),
            Err(cause) => Err(cause),
        }
    }

    /// The entries, and what they have made at each position. An entry in doubt isn't among them.
    pub fn table(&self) -> &Table
        ensures past { result.now.past ≡ self.now.past }
        ensures floor { floor result.now ≡ self.now.floor }
        ensures unmoved { IsUnmoved result.now }
        ensures whole { self.now.floor ≡ self.now.past.begin }
    {
        &self.table
    }

    /// Finds out whether the entry in doubt is in the log. It takes no memory. Where nothing is in doubt the disk isn't asked.
    pub fn settle<D: Disk>(&mut self, disk: &mut D) -> Result<(), Failed>
        // For whatever is live, the machine's state is settled.
        ensures settles { OnOk result ((pins : List Pin) → SettledEntry true (state_of self.old pins) (state_of self.new pins)) }
        ensures in_doubt { OnErr result (IsTrue (is_some self.old.doubt)) }
        ensures settled { OnOk result (self.new.doubt ≡ None) }
        ensures begin { self.new.past.begin ≡ self.old.past.begin }
        ensures floor { self.new.floor ≡ self.old.floor }
        ensures known { known self.new ≡ known self.old }
        ensures longer { front_of self.old ≤ front_of self.new }
        ensures same { OnErr result (self.new ≡ self.old) }
        ensures idle { self.old.doubt ≡ None → disk.new ≡ disk.old }
        ensures cause { files.HasCause (D.fault_count disk.old) (D.fault_count disk.new) result }
        ensures later { (D.view disk.old).clock ≤ (D.view disk.new).clock }
        ensures counted { D.call_count disk.new ≤ D.call_count disk.old + 2 }
        ensures moves { IsTrue D.tells → (limits : Most) (before after : List Pin) → Settling limits (state_of self.old before) (state_of self.new after) (D.view disk.old) (D.view disk.new) }
    {
        match self.doubt.take() {
            None => Ok(()),
            Some(entry) => match self.log.settle(disk) {
                Ok(true) => {
                    self.table.add(entry);
                    Ok(())
                }
                Ok(false) => {
                    drop(entry);
                    Ok(())
                }
                Err(failed) => {
                    self.doubt = Some(entry);
                    Err(failed)
                }
            },
        }
    }

    /// Adds an entry that fits, where nothing is in doubt. All memory is taken before the first call of the disk. `Untouched`
    /// comes of a fault before the entry may be in the log, `Unsure` of one from then on, and then it is in doubt.
    pub fn add<D: Disk>(
        &mut self,
        alloc: Global,
        limits: &Limits,
        disk: &mut D,
        entry: Entry,
    ) -> Result<(), LogError>
        requires settled { self.old.doubt ≡ None }
        requires next { entry.position ≡ front_of self.old + 1 }
        requires built { IsBuilt entry }
        requires spelled { HasSpelling entry }
        requires fit { IsTrue (fits (content self.old.past) entry) }
        requires room { front_of self.old < limits.now.positions }
        ensures ok { OnOk result (self.new ≡ changed self.old (self.old.past.log ++ entry ∷ []) None) }
        ensures err { IfErr result (λ e. self.new ≡ changed self.old self.old.past.log (doubt_after e entry)) }
        ensures begin { self.new.past.begin ≡ self.old.past.begin }
        ensures floor { self.new.floor ≡ self.old.floor }
        ensures known { known self.new ≡ known self.old }
        ensures longer { front_of self.old ≤ front_of self.new }
        ensures cause { HasAddCause (D.fault_count disk.old) (D.fault_count disk.new) result }
        ensures later { (D.view disk.old).clock ≤ (D.view disk.new).clock }
        ensures counted { D.call_count disk.new ≤ D.call_count disk.old + 4 }
        // For whatever is live, the machine's state has the entry in its log.
        ensures added { OnOk result ((before after : List Pin) → state_of self.new after ≡ with_pins (with_entry (state_of self.old before) entry) after) }
        ensures moves { IsTrue D.tells → (before after : List Pin) → Moves limits.now (state_of self.old before) (state_of self.new after) (D.view disk.old) (D.view disk.new) }
    {
        if let Err(_) = self.table.prepare(alloc, &entry) {
            return Err(LogError::Memory);
        }
        match add_entry(alloc, &mut self.log, disk, &entry) {
            Ok(_) => {
                self.table.add(entry);
                Ok(())
            }
            Err(LogError::Untouched) => {
                drop(entry);
                Err(LogError::Untouched)
            }
            Err(LogError::Unsure) => {
                self.doubt = Some(entry);
                Err(LogError::Unsure)
            }
            Err(LogError::Memory) => {
                drop(entry);
                Err(LogError::Memory)
            }
        }
    }
}
