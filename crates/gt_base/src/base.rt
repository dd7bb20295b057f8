// The base of a disk: its epoch, its manifest, and what the files that it names have.
ghost use Rattle.std.specs.Prelude.{◌≡◌, ◌↔◌, ◌≤◌, ◌<◌, ◌+◌, ℕ, IsTrue, IfOk, OnOk, is_some, Some, None};
ghost use Rattle.gt_disk.specs.Files as files;
ghost use Rattle.gt_disk.specs.Files.{Quiet, now, still};
ghost use Rattle.gt_disk.specs.Kinds.{turn_file};
ghost use Rattle.gt_disk.specs.Moments.{Since, Runs, Lasting, Narrows};
ghost use Rattle.gt_log.specs.Log.{content_length};
ghost use Rattle.gt_manifest.specs.Whole.{Fits};
ghost use Rattle.gt_manifest.specs.declared.manifest.Manifest.{Manifest};
ghost use Rattle.gt_manifest.specs.declared.version.Version.TheVariants.{Second};
ghost use Rattle.gt_model.specs.declared.limits.Limits.{Limits};
ghost use Rattle.gt_reading.specs.Reading.{run};
ghost use Rattle.gt_base.specs.Answers.{Reads, HasCause};
ghost use Rattle.gt_base.specs.Loading.{limited, turn_then, as_based, next_in, headings, manifest_headings};
ghost use Rattle.gt_base.specs.Recovery.{Based, base_in};
ghost use Rattle.gt_base.specs.Switching.{Counts, Turns, SwitchMoment, AfterSwitch, AfterSettle, MaySwitch, SwitchImages, ImagesAfterSwitch, switched, settled, HasSwitchCause};

use crate::reading::read_manifest;
use crate::repos::read_repos;
use crate::switching::switch_files;
use crate::{BaseContent, SwitchError};
use gt_disk::{Disk, Failed, TURN};
use gt_log::MountCause;
use gt_manifest::{Manifest, law_a_manifest_is_read_again};
use gt_model::Limits;
use std::alloc::Global;
use std::marker::Model;

/// The base of a disk: the manifest of its epoch, and the next one while it is in doubt whether that counts.
#[derive(Drop)]
pub struct Base {
    manifest: Manifest,
    doubt: Option<Manifest>,
}

impl Model for Base {
    ghost use Rattle.gt_base.specs.Loading.{BaseState};

    ghost Value = { BaseState };

    ghost view = { λ b. record { manifest = b.manifest; doubt = b.doubt } };
}

impl Base {
    /// Which files hold the content: the old manifest while a switch is in doubt.
    pub fn manifest(&self) -> &Manifest
        ensures { result.now ≡ self.now.manifest }
    {
        &self.manifest
    }

    /// Whether the manifest of the next epoch may count: `settle` finds out.
    pub fn in_doubt(&self) -> bool
        ensures { result ≡ is_some self.now.doubt }
    {
        self.doubt.is_some()
    }

    /// The next free file number: that of the manifest in doubt, or else of the one that counts.
    pub fn next(&self) -> u64
        ensures { result ≡ next_in self.now }
    {
        match &self.doubt {
            None => self.manifest.next,
            Some(to) => to.next,
        }
    }

    /// Makes turn last, and reads the base that the disk's files have: the manifest of the epoch that turn counts, and of each
    /// repository its packs, its packed file and its loose files. `gate` is how many entries are in the log.
    ///
    /// `Damaged` names the first damage: a turn that is longer than the limit, a manifest that isn't in its grammar, is of another
    /// epoch or applies more entries than are in the log, then the first file that is absent or not in its grammar.
    /// `DeviceFault` comes only of a fault of the disk.
    pub fn load<D: Disk>(
        alloc: Global,
        limits: &Limits,
        gate: u64,
        disk: &mut D,
    ) -> Result<(Base, BaseContent), MountCause>
        ensures answer { IsTrue D.tells → Reads (run (D.view disk.old).reads (turn_then limits.now gate)) (as_based result) }
        ensures within { IfOk result (λ x. x.0.manifest.applied ≤ gate) }
        ensures few { IfOk result (λ x. x.0.manifest.epoch ≤ limits.now.epochs) }
        ensures settled { IfOk result (λ x. x.0.doubt ≡ None) }
        // The manifest may be written.
        ensures fits { IfOk result (λ x. Fits Second x.0.manifest) }
        // What was read is of the repositories that the manifest lists, in order, each with its pool.
        ensures headings { IfOk result (λ x. headings x.1 ≡ manifest_headings x.0.manifest.repos) }
        ensures cause { HasCause (D.fault_count disk.old) (D.fault_count disk.new) result }
        ensures later { (D.view disk.old).clock ≤ (D.view disk.new).clock }
        ensures reads { IsTrue D.tells → (D.view disk.new).reads ≡ (D.view disk.old).reads }
        // At no moment can a stop leave what it couldn't leave before.
        ensures moments { IsTrue D.tells → Narrows (D.view disk.old) (D.view disk.new) }
        // At each moment turn is as it was, or what was read of it lasts, and no other file changes.
        ensures run { IsTrue D.tells → Runs turn_file (Lasting (now (D.view disk.old) turn_file) ((D.view disk.old).reads turn_file)) (D.view disk.old) (D.view disk.new) }
        ensures turn { IsTrue D.tells → IfOk result (λ _. now (D.view disk.new) turn_file ≡ still ((D.view disk.old).reads turn_file)) }
    {
        let epoch = mount_turn(disk)?;
        read_limited(alloc, limits, gate, epoch, disk)
    }

    /// Makes a manifest count: it is written and synced before a byte is appended to turn, and turn is synced before the
    /// answer. The files that it names have to be there already.
    ///
    /// `Untouched`: a device failed before the append to turn began, and the old base counts. `Unsure`: a device failed from
    /// then on, the old base counts or the new one, and the base is in doubt. `Memory`: the old base counts.
    pub fn switch<D: Disk>(
        &mut self,
        alloc: Global,
        disk: &mut D,
        to: Manifest,
    ) -> Result<(), SwitchError>
        requires settled { self.old.doubt ≡ None }
        requires fits { Fits Second to }
        requires epoch { to.epoch ≡ self.old.manifest.epoch + 1 }
        ensures base { self.new ≡ switched result to self.old }
        ensures cause { HasSwitchCause (D.fault_count disk.old) (D.fault_count disk.new) result }
        ensures later { (D.view disk.old).clock ≤ (D.view disk.new).clock }
        ensures counted { D.call_count disk.new ≤ D.call_count disk.old + 4 }

        // At each moment of the call the old base counts, the new one, or it is in doubt, and no other file changes.
        ensures any_moment { IsTrue D.tells → Counts self.old.manifest.epoch (now (D.view disk.old))
            → Since (SwitchMoment result self.old.manifest.epoch to (now (D.view disk.old))) (D.view disk.old) (D.view disk.new) }
        ensures after { IsTrue D.tells → Counts self.old.manifest.epoch (now (D.view disk.old))
            → AfterSwitch result self.old.manifest.epoch to (now (D.view disk.old)) (now (D.view disk.new)) }

        // So whatever a stop leaves at each moment has the old base or the new one, whole.
        ensures images { IsTrue D.tells → (limits : Limits) (gate : ℕ) (before after : Based) → before.manifest ≡ self.old.manifest → after.manifest ≡ to
            → MaySwitch limits gate before after (now (D.view disk.old)) (D.view disk.old).reads
            → Since (SwitchImages result limits gate before after) (D.view disk.old) (D.view disk.new) }
        ensures images_after { IsTrue D.tells → (limits : Limits) (gate : ℕ) (before after : Based) → before.manifest ≡ self.old.manifest → after.manifest ≡ to
            → MaySwitch limits gate before after (now (D.view disk.old)) (D.view disk.old).reads
            → ImagesAfterSwitch result limits gate before after (now (D.view disk.new)) }
    {
        law_a_manifest_is_read_again();
        let answer = switch_files(alloc, disk, &to);
        self.note(answer, to);
        answer
    }

    /// What the base is after a switch with this answer: switched, in doubt, or as it was.
    fn note(&mut self, answer: Result<(), SwitchError>, to: Manifest)
        requires { self.old.doubt ≡ None }
        ensures { self.new ≡ switched answer to self.old }
    {
        match answer {
            Ok(()) => self.manifest = to,
            Err(SwitchError::Unsure) => self.doubt = Some(to),
            Err(SwitchError::Untouched) => {}
            Err(SwitchError::Memory) => {}
        }
    }

    /// Finds out whether the manifest in doubt counts: whether turn has its byte. It takes no memory.
    /// Where a device fails the doubt stays.
    pub fn settle<D: Disk>(&mut self, disk: &mut D) -> Result<bool, Failed>
        requires { IsTrue (is_some self.old.doubt) }
        ensures base { (to : Manifest) → self.old.doubt ≡ Some to → self.new ≡ settled result to self.old }
        ensures turn { IsTrue D.tells → IfOk result (λ counts. IsTrue counts ↔ (self.old.manifest.epoch < content_length ((D.view disk.old).reads turn_file))) }
        ensures cause { files.HasCause (D.fault_count disk.old) (D.fault_count disk.new) result }
        ensures later { (D.view disk.old).clock ≤ (D.view disk.new).clock }
        ensures counted { D.call_count disk.new ≤ D.call_count disk.old + 2 }
        ensures narrows { IsTrue D.tells → Narrows (D.view disk.old) (D.view disk.new) }
        ensures run { IsTrue D.tells → Runs turn_file (Lasting (now (D.view disk.old) turn_file) ((D.view disk.old).reads turn_file)) (D.view disk.old) (D.view disk.new) }
        ensures reads { IsTrue D.tells → (D.view disk.new).reads ≡ (D.view disk.old).reads }
        ensures after { IsTrue D.tells → (to : Manifest) → Turns self.old.manifest.epoch to (now (D.view disk.old))
            → AfterSettle result self.old.manifest.epoch to (now (D.view disk.new)) }
    {
        let epoch = mount_turn(disk)?; // The byte lasts before it counts.
        let counts = epoch > self.manifest.epoch;
        if let Some(to) = self.doubt.take() {
            if counts {
                self.manifest = to;
            }
        }
        Ok(counts)
    }
}

/// Makes turn last, and takes its length.
fn mount_turn<D: Disk>(disk: &mut D) -> Result<u64, Failed>
    ensures cause { files.HasCause (D.fault_count disk.old) (D.fault_count disk.new) result }
    ensures epoch { IsTrue D.tells → IfOk result (λ epoch. epoch ≡ content_length ((D.view disk.old).reads turn_file)) }
    ensures turn { IsTrue D.tells → OnOk result (now (D.view disk.new) turn_file ≡ still ((D.view disk.old).reads turn_file)) }
    ensures moments { IsTrue D.tells → Narrows (D.view disk.old) (D.view disk.new) }
    ensures run { IsTrue D.tells → Runs turn_file (Lasting (now (D.view disk.old) turn_file) ((D.view disk.old).reads turn_file)) (D.view disk.old) (D.view disk.new) }
    ensures later { (D.view disk.old).clock ≤ (D.view disk.new).clock }
    ensures counted { D.call_count disk.new ≤ D.call_count disk.old + 2 }
    ensures reads { IsTrue D.tells → (D.view disk.new).reads ≡ (D.view disk.old).reads }
{
    disk.sync(TURN)?;
    let len = disk.len(TURN)?;
    Ok(len.unwrap_or(0))
}

/// The base of an epoch within the limit.
fn read_limited<D: Disk>(
    alloc: Global,
    limits: &Limits,
    gate: u64,
    epoch: u64,
    disk: &mut D,
) -> Result<(Base, BaseContent), MountCause>
    ensures quiet { IsTrue D.tells → Quiet (D.view disk.old) (D.view disk.new) }
    ensures later { (D.view disk.old).clock ≤ (D.view disk.new).clock }
    ensures cause { HasCause (D.fault_count disk.old) (D.fault_count disk.new) result }
    ensures within { IfOk result (λ x. x.0.manifest.applied ≤ gate) }
    ensures few { IfOk result (λ x. x.0.manifest.epoch ≤ limits.now.epochs) }
    ensures settled { IfOk result (λ x. x.0.doubt ≡ None) }
    ensures fits { IfOk result (λ x. Fits Second x.0.manifest) }
    ensures headings { IfOk result (λ x. headings x.1 ≡ manifest_headings x.0.manifest.repos) }
    ensures answer { IsTrue D.tells → Reads (run (D.view disk.old).reads (limited limits.now gate epoch)) (as_based result) }
{
    if limits.epochs < epoch {
        return Err(MountCause::Damaged {
            file: TURN,
            at: limits.epochs,
        });
    }
    read_base(alloc, epoch, gate, disk)
}

/// The base of an epoch.
fn read_base<D: Disk>(
    alloc: Global,
    epoch: u64,
    gate: u64,
    disk: &mut D,
) -> Result<(Base, BaseContent), MountCause>
    ensures quiet { IsTrue D.tells → Quiet (D.view disk.old) (D.view disk.new) }
    ensures later { (D.view disk.old).clock ≤ (D.view disk.new).clock }
    ensures cause { HasCause (D.fault_count disk.old) (D.fault_count disk.new) result }
    ensures within { IfOk result (λ x. x.0.manifest.applied ≤ gate) }
    ensures epoch { IfOk result (λ x. x.0.manifest.epoch ≡ epoch) }
    ensures settled { IfOk result (λ x. x.0.doubt ≡ None) }
    ensures fits { IfOk result (λ x. Fits Second x.0.manifest) }
    ensures headings { IfOk result (λ x. headings x.1 ≡ manifest_headings x.0.manifest.repos) }
    ensures answer { IsTrue D.tells → Reads (run (D.view disk.old).reads (base_in epoch gate)) (as_based result) }
{
    let manifest = read_manifest(alloc, disk, epoch, gate)?;
    let repos = read_repos(alloc, disk, manifest.repos.as_slice())?;
    let base = Base {
        manifest,
        doubt: None,
    };
    Ok((base, repos))
}
