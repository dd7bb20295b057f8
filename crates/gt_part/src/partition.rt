ghost use Rattle.std.specs.Prelude.{◌≡◌, ◌≤◌, ◌++◌, ℕ, [], ◌∷◌, List, length, IsTrue, IfOk, IfErr};
ghost use Rattle.gt_disk.specs.Files.{Rose, now};
ghost use Rattle.gt_disk.specs.Moments.{Since, Narrows};
ghost use Rattle.gt_model.specs.Machine.{State, Settles, opening, content, is_live};
ghost use Rattle.gt_model.specs.Histories.{Happening, all_refs, last_state};
ghost use Rattle.gt_base.specs.Recovery.{recover};
ghost use Rattle.gt_journal.specs.Histories.{IsGood, Holds};
ghost use Rattle.gt_journal.specs.Ledger.{ground};
ghost use Rattle.gt_part.specs.Mounts.{Mounts, HasMountCause};
ghost use Rattle.gt_part.specs.Shown.{memory, Counts, HasRun, Continues, OneOpening, pins_of, front_of};

use gt_act::PartitionState;
use gt_disk::Disk;
use gt_journal::Journal;
use gt_list::ReservedVec;
use gt_log::{MountCause, MountError};
use gt_model::{Limits, Trail};
use gt_pins::{Live, Pin};
use std::alloc::Global;
use std::marker::Model;

/// A log of entries over its disk, what the log has made, the transactions that read it, and each event since it was
/// mounted.
#[derive(Drop)]
pub struct Partition<D: Disk + Drop> {
    pub(crate) number: u8,
    pub(crate) disk: D,
    pub(crate) limits: Limits,
    pub(crate) state: PartitionState,
    pub(crate) trail: Trail,
}

impl<D: Disk + Drop> Model for Partition<D> {
    ghost use Rattle.gt_part.specs.Shown.{Shown};

    ghost Value = { Shown D };

    ghost use Rattle.std.specs.Prelude.{◌≤◌, length};

    // Each live transaction has room for the record of its end.
    ghost invariant = { λ p. (1 ≤ p.number) × (p.number ≤ 8) × (length p.state.live ≤ p.trail.turns.1) };

    ghost view = { λ p. record { number = p.number; disk = p.disk; limits = p.limits; ledger = p.state.journal; live = p.state.live; opening = p.trail.opening; trail = p.trail.turns.0 } };
}

impl<D: Disk + Drop> Partition<D> {
    /// Opens what the disk's files recover to. `Damaged` names the first damage: a gate or a turn that is longer than its limit,
    /// then what the manifest of the epoch and the files that it names have, then the first entry past them that is absent,
    /// isn't spelled, or doesn't fit. `DeviceFault` comes only of a fault of the disk.
    pub fn mount(
        alloc: Global,
        number: u8,
        disk: D,
        limits: Limits,
    ) -> Result<Partition<D>, MountError<D>>
        requires least { 1 ≤ number }
        requires most { number ≤ 8 }

        // Over a disk that tells it opens exactly what the files recover to, or names the first damage.
        ensures answer { IsTrue D.tells → Mounts (recover limits (D.view disk).reads) result }
        ensures kept { IfOk result (λ p. (p.number ≡ number) × (p.limits ≡ limits)) }

        // Over any disk its memory stands for a state that is opened from the base and the entries it has.
        ensures opened { IfOk result (λ p. memory p ≡ opening (ground p.ledger)) }
        ensures empty { IfOk result (λ p. p.trail ≡ []) }

        // The trail has the references of what is opened.
        ensures opening { IfOk result (λ p. p.opening ≡ all_refs (content (memory p))) }
        ensures faults { IfOk result (λ p. Counts D.fault_count (D.fault_count p.disk) p) }
        ensures fault { IfErr result (HasMountCause D.fault_count disk) }
        ensures sure { IfOk result (λ p. D.fault_count p.disk ≡ D.fault_count disk) }

        // At no moment can a stop leave what it couldn't leave before.
        ensures moments { IsTrue D.tells → IfOk result (λ p. Narrows (D.view disk) (D.view p.disk)) }
        ensures moments_in_vain { IsTrue D.tells → IfErr result (λ e. Narrows (D.view disk) (D.view e.disk)) }
        ensures reads_in_vain { IsTrue D.tells → IfErr result (λ e. (D.view e.disk).reads ≡ (D.view disk).reads) }

        // A disk that may be handed in may be handed in again at each moment.
        ensures good_moments { IsTrue D.tells → IsGood limits (now (D.view disk)) → IfOk result (λ p. Since (IsGood limits) (D.view disk) (D.view p.disk)) }
        ensures good_moments_in_vain { IsTrue D.tells → IsGood limits (now (D.view disk)) → IfErr result (λ e. Since (IsGood limits) (D.view disk) (D.view e.disk)) }
        ensures good_in_vain { IsTrue D.tells → IsGood limits (now (D.view disk)) → IfErr result (λ e. IsGood limits (now (D.view e.disk))) }

        // Where whatever a stop may leave recovers, a run begins here.
        ensures run { IsTrue D.tells → IsGood limits (now (D.view disk)) → IfOk result (λ p. HasRun D.view (memory p) (D.view p.disk).clock [] p) }
    {
        let mut disk = disk;
        match Journal::open(alloc, &limits, &mut disk) {
            Ok(journal) => match journal.table().all_refs(alloc) {
                Ok(opening) => Ok(Partition {
                    number,
                    disk,
                    limits,
                    state: PartitionState {
                        journal,
                        live: Live::new(alloc),
                    },
                    trail: Trail {
                        turns: ReservedVec::new(alloc),
                        opening,
                    },
                }),
                Err(_) => Err(MountError {
                    cause: MountCause::Memory,
                    disk,
                }),
            },
            Err(cause) => Err(MountError { cause, disk }),
        }
    }

    /// Gives the disk back.
    pub fn unmount(self) -> D
        ensures { result ≡ self.disk }
    {
        self.disk
    }

    /// Unmounts, and mounts again: what is in doubt is settled, and a new trail begins.
    pub fn restart(self, alloc: Global) -> Result<Partition<D>, MountError<D>>
        // Where it fails, what has happened still holds on the disk.
        ensures in_vain { IsTrue D.tells → (start : State) (begin : ℕ) (history : List Happening) → HasRun D.view start begin history self → IfErr result (λ e. Holds self.limits start begin history (D.view e.disk)) }
        ensures kept { IfOk result (λ p. (p.number ≡ self.number) × (p.limits ≡ self.limits)) }
        ensures opened { IfOk result (λ p. memory p ≡ opening (ground p.ledger)) }
        ensures answer { IsTrue D.tells → Mounts (recover self.limits (D.view self.disk).reads) result }
        ensures sure { IfOk result (λ p. D.fault_count p.disk ≡ D.fault_count self.disk) }
        ensures fault { IfErr result (HasMountCause D.fault_count self.disk) }
        ensures moments_in_vain { IsTrue D.tells → IfErr result (λ e. Narrows (D.view self.disk) (D.view e.disk)) }
        ensures reads_in_vain { IsTrue D.tells → IfErr result (λ e. (D.view e.disk).reads ≡ (D.view self.disk).reads) }
        ensures empty { IfOk result (λ p. p.trail ≡ []) }
        ensures opening { IfOk result (λ p. p.opening ≡ all_refs (content (memory p))) }
        ensures settles { IsTrue D.tells → (start : State) (begin : ℕ) (history : List Happening) → HasRun D.view start begin history self → IfOk result (λ p. Settles (last_state start history) (memory p)) }
        ensures run { IsTrue D.tells → (start : State) (begin : ℕ) (history : List Happening) → HasRun D.view start begin history self
            → IfOk result (λ p. Continues D.view start begin history (OneOpening (D.view p.disk).clock (memory p)) self p) }
    {
        let number = self.number;
        let limits = self.limits;
        Partition::mount(alloc, number, self.unmount(), limits)
    }

    /// The position of the last entry of the log, 0 where there is none. An entry in doubt doesn't count.
    pub fn front(&self) -> u64
        ensures { result ≡ front_of self.now }
    {
        self.state.journal.table().front()
    }

    /// The references at this opening, and the records of the events since.
    pub fn trail(&self) -> &Trail
        ensures turns { result.now.turns.0 ≡ self.now.trail }
        ensures opening { result.now.opening ≡ self.now.opening }
    {
        &self.trail
    }

    /// Whether a pin's transaction is live.
    pub fn holds(&self, pin: &Pin) -> bool
        ensures { result ≡ is_live (pins_of self.now) pin.now }
    {
        self.state.live.is_live(pin)
    }
}
