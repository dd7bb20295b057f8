//! All lines of a script, done over a partition.
ghost use Rattle.std.specs.Prelude.{◌≡◌, ◌≢◌, ◌≤◌, ◌<◌, ◌^◌, ℕ, List, length, map, None, IsTrue, IfOk, IfErr, Err};
ghost use Rattle.std.specs.List.{All};
ghost use Rattle.gt_disk.specs.Files.{Rose};
ghost use Rattle.gt_disk.specs.declared.file_id.FileId.{FileId};
ghost use Rattle.gt_log.specs.declared.mount_cause.MountCause.{MountCause};
ghost use Rattle.gt_base.specs.Recovery.{recover};
ghost use Rattle.gt_prog.specs.Lines.{new_sessions};
ghost use Rattle.gt_prog.specs.One.{in_one, LocalDid};
ghost use Rattle.gt_prog.specs.Played.{Played, PlayedPart, PlayedWhole, restart_cause};
ghost use Rattle.gt_prog.specs.Script.{HasSession, not_built};
ghost use Rattle.gt_session.specs.Together.{AreHeld, GiveUp};

use crate::answering::write_answer;
use crate::doing::play_one;
use crate::local::Local;
use gt_disk::{Disk, FileId};
use gt_log::{MountCause, MountError};
use gt_outside::Sink;
use gt_part::Partition;
use gt_pins::Pin;
use gt_script::Request;
use gt_session::{Sessions, new_sessions_hold_nothing};
use std::alloc::Global;

/// What ends the work early.
#[derive(Clone, Copy, Debug, PartialEq, Eq)]
pub(crate) enum PlayCause {
    /// The output failed.
    Write,
    /// The disk failed.
    Device,
    /// A file is damaged.
    Damaged { file: FileId, at: u64 },
    /// Memory ran out.
    Memory,
}

/// The work ended early, and why.
#[derive(Drop)]
pub(crate) struct PlayError<D> {
    pub(crate) cause: PlayCause,
    pub(crate) disk: D,
}

/// Does the requests of all lines in order, and writes each answer before the next. Then each session gives up what it has
/// open.
pub(crate) fn play<D: Disk + Drop, K: Sink>(
    alloc: Global,
    partition: Partition<D>,
    sink: &mut K,
    requests: &[Request],
) -> Result<Partition<D>, PlayError<D>>
    requires first { partition.number ≡ 1 }
    requires few { length requests.now < 2 ^ 32 }
    requires built { not_built requests.now ≡ None }
    requires sessions { All HasSession requests.now }
    ensures played { IfOk result (λ p. PlayedWhole D.tells D.view D.fault_count requests.now partition p (K.written sink.old) (K.written sink.new)) }
    ensures part { IfErr result (λ e. PlayedPart D.tells D.view D.fault_count e.cause requests.now partition e.disk (K.written sink.old) (K.written sink.new)) }
    ensures later { K.faults sink.old ≤ K.faults sink.new }
    ensures counts { IfOk result (λ p. D.fault_count partition.disk ≤ D.fault_count p.disk) }
    ensures counts_in_vain { IfErr result (λ e. D.fault_count partition.disk ≤ D.fault_count e.disk) }
    ensures write { IfErr result (λ e. e.cause ≡ PlayCause.Write → Rose (K.faults sink.old) (K.faults sink.new)) }
    ensures sure { IfOk result (λ p. K.faults sink.new ≡ K.faults sink.old) }
    ensures sure_in_vain { IfErr result (λ e. (e.cause ≡ PlayCause.Write → ⊥) → K.faults sink.new ≡ K.faults sink.old) }
    ensures device { IfErr result (λ e. e.cause ≡ PlayCause.Device → Rose (D.fault_count partition.disk) (D.fault_count e.disk)) }
    ensures damaged { IfErr result (λ e. (file : FileId) (at : ℕ) → e.cause ≡ PlayCause.Damaged file at → IsTrue D.tells → recover partition.limits (D.view e.disk).reads ≡ Err (file, at)) }
{
    let mut sessions = match Sessions::new(alloc) {
        Ok(sessions) => sessions,
        Err(_) => {
            return Err(PlayError {
                cause: PlayCause::Memory,
                disk: partition.unmount(),
            });
        }
    };
    new_sessions_hold_nothing();
    match play_lines(alloc, Local { partition }, &mut sessions, sink, requests) {
        Ok(local) => Ok(finish(local, sessions)),
        Err(error) => Err(error),
    }
}

/// Does the requests of all lines in order, and writes each answer before the next.
fn play_lines<D: Disk + Drop, K: Sink>(
    alloc: Global,
    local: Local<D>,
    sessions: &mut Sessions<Pin>,
    sink: &mut K,
    requests: &[Request],
) -> Result<Local<D>, PlayError<D>>
    requires few { length requests.now < 2 ^ 32 }
    requires built { not_built requests.now ≡ None }
    requires sessions { All HasSession requests.now }
    requires begin { sessions.old ≡ new_sessions }
    requires held { AreHeld sessions.old (in_one (map (λ p. p.number) local.live)) }
    ensures played { IfOk result (λ p. Played D.tells D.view D.fault_count requests.now sessions.new local p (K.written sink.old) (K.written sink.new)) }
    ensures held { IfOk result (λ p. AreHeld sessions.new (in_one (map (λ p. p.number) p.live))) }
    ensures part { IfErr result (λ e. PlayedPart D.tells D.view D.fault_count e.cause requests.now local e.disk (K.written sink.old) (K.written sink.new)) }
    ensures later { K.faults sink.old ≤ K.faults sink.new }
    ensures counts { IfOk result (λ p. D.fault_count local.disk ≤ D.fault_count p.disk) }
    ensures counts_in_vain { IfErr result (λ e. D.fault_count local.disk ≤ D.fault_count e.disk) }
    ensures write { IfErr result (λ e. e.cause ≡ PlayCause.Write → Rose (K.faults sink.old) (K.faults sink.new)) }
    ensures sure { IfOk result (λ p. K.faults sink.new ≡ K.faults sink.old) }
    ensures sure_in_vain { IfErr result (λ e. (e.cause ≡ PlayCause.Write → ⊥) → K.faults sink.new ≡ K.faults sink.old) }
    ensures device { IfErr result (λ e. e.cause ≡ PlayCause.Device → Rose (D.fault_count local.disk) (D.fault_count e.disk)) }
    ensures damaged { IfErr result (λ e. (file : FileId) (at : ℕ) → e.cause ≡ PlayCause.Damaged file at → IsTrue D.tells → recover local.limits (D.view e.disk).reads ≡ Err (file, at)) }
{
    let mut local = local;
    let mut line = 0;
    for request in requests {
        line += 1;
        match play_one(alloc, local, sessions, line, request) {
            Err(error) => return Err(not_reopened(error)),
            Ok((next, answer)) => {
                local = next;
                if let Err(cause) = write_answer(alloc, sink, &answer) {
                    return Err(PlayError {
                        cause,
                        disk: local.partition.unmount(),
                    });
                }
            }
        }
    }
    Ok(local)
}

/// Has each session give up what it has open, and gives the partition back.
fn finish<D: Disk + Drop>(local: Local<D>, sessions: Sessions<Pin>) -> Partition<D>
    requires { AreHeld sessions (in_one (map (λ p. p.number) local.live)) }
    ensures ends { GiveUp (LocalDid D.tells D.view D.fault_count D.call_count) sessions local result }
    ensures later { D.fault_count local.disk ≤ D.fault_count result.disk }
{
    let mut local = local;
    let mut sessions = sessions;
    sessions.end_all(&mut local);
    local.partition
}

fn not_reopened<D>(error: MountError<D>) -> PlayError<D>
    ensures disk { result.disk ≡ error.disk }
    ensures cause { result.cause ≡ restart_cause error.cause }
    ensures write { result.cause ≢ PlayCause.Write }
    ensures device { result.cause ≡ PlayCause.Device → error.cause ≡ MountCause.DeviceFault }
    ensures damaged { (file : FileId) (at : ℕ) → result.cause ≡ PlayCause.Damaged file at → error.cause ≡ MountCause.Damaged file at }
{
    let cause = match error.cause {
        MountCause::DeviceFault => PlayCause::Device,
        MountCause::Damaged { file, at } => PlayCause::Damaged { file, at },
        MountCause::Memory => PlayCause::Memory,
    };
    PlayError {
        cause,
        disk: error.disk,
    }
}
