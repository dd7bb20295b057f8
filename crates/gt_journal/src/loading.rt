ghost use Rattle.std.specs.Prelude.{◌≡◌, ◌≤◌, ◌<◌, ◌+◌, ◌-◌, length, Err, Some, None, IsTrue, IfOk};
ghost use Rattle.gt_base.specs.Answers.{HasCause, Reads};
ghost use Rattle.gt_base.specs.Built.{is_built, IsBuilt};
ghost use Rattle.gt_base.specs.Entries.{entry_of as entry_at, entries_in};
ghost use Rattle.gt_base.specs.Held.{content_of};
ghost use Rattle.gt_base.specs.Recovery.{recovery};
ghost use Rattle.gt_disk.specs.Files.{Quiet, now, still};
ghost use Rattle.gt_disk.specs.Kinds.{gate_file, turn_file, entry_file};
ghost use Rattle.gt_disk.specs.Moments.{Runs, Lasting, Narrows};
ghost use Rattle.gt_log.specs.Log.{content_length};
ghost use Rattle.gt_log.specs.declared.mount_cause.MountCause.{MountCause};
ghost use Rattle.gt_model.specs.Batches.{next_past};
ghost use Rattle.gt_model.specs.Contents.{fits};
ghost use Rattle.gt_apply.specs.Fitting.{HasGoodPools};
ghost use Rattle.gt_entry.specs.Answers as answers;
ghost use Rattle.gt_entry.specs.Fits.{IsEntry, HasSpelling};
ghost use Rattle.gt_reading.specs.Reading.{run};
ghost use Rattle.gt_table.specs.Table.{IsUnmoved, front, content};
ghost use Rattle.gt_journal.specs.Carried.{IsLogged, IsCarried};
ghost use Rattle.gt_journal.specs.Loading.{Loads, LoadsAll, in_file};

use crate::spelling::decode;
use gt_applied::bases_list_their_repositories;
use gt_base::{Base, BaseContent, is_built};
use gt_disk::{Disk, DiskError, GATE, entry_file};
use gt_entry::EntryError;
use gt_log::{Log, MountCause};
use gt_model::{Entry, Limits};
use gt_table::Table;
use std::alloc::Global;

/// Reads the base of a disk, and the entries past it. The gate may not be longer than the limit.
pub(crate) fn load<D: Disk>(
    alloc: Global,
    limits: &Limits,
    log: &Log,
    disk: &mut D,
) -> Result<(Base, Table, u64), MountCause>
    ensures later { (D.view disk.old).clock ≤ (D.view disk.new).clock }
    ensures cause { HasCause (D.fault_count disk.old) (D.fault_count disk.new) result }
    ensures gate { limits.now.positions < log.now.len → result ≡ Err (MountCause.Damaged gate_file limits.now.positions) }
    ensures begin { IfOk result (λ x. x.1.past.begin ≡ x.0.manifest.applied) }
    ensures numbered { IfOk result (λ x. x.2 ≡ next_past x.0.manifest.next x.1.past.log) }
    ensures count { IfOk result (λ x. log.now.len ≡ front x.1.past) }
    ensures unmoved { IfOk result (λ x. IsUnmoved x.1) }
    ensures settled { IfOk result (λ x. x.0.doubt ≡ None) }
    ensures logged { IfOk result (λ x. IsLogged x.1.past) }
    ensures carried { IfOk result (λ x. IsCarried x.1.past x.2 x.0.manifest) }
    ensures reads { IsTrue D.tells → (D.view disk.new).reads ≡ (D.view disk.old).reads }
    ensures moments { IsTrue D.tells → Narrows (D.view disk.old) (D.view disk.new) }
    ensures run { IsTrue D.tells → Runs turn_file (Lasting (now (D.view disk.old) turn_file) ((D.view disk.old).reads turn_file)) (D.view disk.old) (D.view disk.new) }
    ensures turn { IsTrue D.tells → IfOk result (λ _. now (D.view disk.new) turn_file ≡ still ((D.view disk.old).reads turn_file)) }
    ensures loads { IsTrue D.tells → log.now.len ≡ content_length ((D.view disk.old).reads gate_file) → LoadsAll (run (D.view disk.old).reads (recovery limits.now)) result }
{
    // laws, which do nothing
    bases_list_their_repositories();
    let gate = log.len();
    if gate > limits.positions {
        return Err(MountCause::Damaged {
            file: GATE,
            at: limits.positions,
        });
    }
    let (base, repos) = match Base::load(alloc, limits, gate, disk) {
        Ok(loaded) => loaded,
        Err(cause) => return Err(cause),
    };
    let (begin, next) = (base.manifest().applied, base.manifest().next);
    match read_entries(alloc, log, disk, begin, next, &repos) {
        Ok((table, next)) => Ok((base, table, next)),
        Err(cause) => Err(cause),
    }
}

/// Reads the entries of a log past a base, and the next free file number over them, from that of the base's manifest on: an
/// entry of a kind that is built has no file.
fn read_entries<D: Disk>(
    alloc: Global,
    log: &Log,
    disk: &mut D,
    begin: u64,
    first_free: u64,
    repos: &BaseContent,
) -> Result<(Table, u64), MountCause>
    requires begin { begin ≤ log.now.len }
    requires pools { HasGoodPools (content_of repos.now) }
    ensures quiet { IsTrue D.tells → Quiet (D.view disk.old) (D.view disk.new) }
    ensures later { (D.view disk.old).clock ≤ (D.view disk.new).clock }
    ensures cause { HasCause (D.fault_count disk.old) (D.fault_count disk.new) result }
    ensures begin { IfOk result (λ x. x.0.past.begin ≡ begin) }
    ensures repos { IfOk result (λ x. x.0.past.repos ≡ repos.now) }
    ensures count { IfOk result (λ x. log.now.len ≡ front x.0.past) }
    ensures unmoved { IfOk result (λ x. IsUnmoved x.0) }
    ensures logged { IfOk result (λ x. IsLogged x.0.past) }
    ensures numbered { IfOk result (λ x. x.1 ≡ next_past first_free x.0.past.log) }
    ensures loads { IsTrue D.tells → Loads (run (D.view disk.old).reads (entries_in (content_of repos.now) (begin + 1) (log.now.len - begin))) result }
{
    let Ok(mut table) = Table::over(alloc, begin, repos) else {
        return Err(MountCause::Memory);
    };
    let mut next = first_free;
    for n in begin..log.len() {
        match read_entry(alloc, log, disk, n + 1, &table) {
            Err(cause) => return Err(cause),
            Ok(entry) => {
                if let Err(_) = table.prepare(alloc, &entry) {
                    return Err(MountCause::Memory);
                }
                table.add(entry);
                next = next.max(1);
            }
        }
    }
    Ok((table, next))
}

/// The entry of a file that is there, spells an entry at its position, and fits what the log has made.
fn read_entry<D: Disk>(
    alloc: Global,
    log: &Log,
    disk: &mut D,
    number: u64,
    table: &Table,
) -> Result<Entry, MountCause>
    ensures quiet { IsTrue D.tells → Quiet (D.view disk.old) (D.view disk.new) }
    ensures later { (D.view disk.old).clock ≤ (D.view disk.new).clock }
    ensures cause { HasCause (D.fault_count disk.old) (D.fault_count disk.new) result }
    ensures built { IfOk result IsBuilt }
    ensures typed { IfOk result IsEntry }
    ensures spelled { IfOk result HasSpelling }
    ensures next { IfOk result (λ entry. entry.position ≡ number) }
    ensures fit { IfOk result (λ entry. IsTrue (fits (content table.now.past) entry)) }
    ensures entry { IsTrue D.tells → Reads (in_file (entry_file number) (entry_at ((D.view disk.old).reads (entry_file number)) (content table.now.past) number)) result }
{
    match log.read(alloc, disk, number) {
        Err(DiskError::Failed) => Err(MountCause::DeviceFault),
        Err(DiskError::Memory) => Err(MountCause::Memory),
        Ok(None) => Err(damaged(number, 0)),
        Ok(Some(bytes)) => match fitting(alloc, table, number, &bytes) {
            Ok(entry) => Ok(entry),
            Err(EntryError::BadEntry { at }) => Err(damaged(number, at)),
            Err(EntryError::Memory) => Err(MountCause::Memory),
        },
    }
}

/// An entry's file is damaged from this place on.
fn damaged(number: u64, at: usize) -> MountCause
    ensures { result ≡ MountCause.Damaged (entry_file number) at }
{
    MountCause::Damaged {
        file: entry_file(number),
        at: at as u64,
    }
}

/// The entry at a position that these bytes spell, of a kind that is built, where it fits.
fn fitting(alloc: Global, table: &Table, number: u64, bytes: &[u8]) -> Result<Entry, EntryError>
    ensures built { IfOk result IsBuilt }
    ensures typed { IfOk result IsEntry }
    ensures spelled { IfOk result HasSpelling }
    ensures next { IfOk result (λ entry. entry.position ≡ number) }
    ensures fit { IfOk result (λ e. IsTrue (fits (content table.now.past) e)) }
    ensures entry { answers.Reads result (entry_at (Some bytes.now) (content table.now.past) number) }
{
    let entry = decode(alloc, number, bytes)?;
    if is_built(&entry.change) && table.fits(&entry) {
        Ok(entry)
    } else {
        Err(EntryError::BadEntry { at: 0 })
    }
}
