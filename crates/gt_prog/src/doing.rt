//! One line of a script, done over a partition.
ghost use Rattle.std.specs.Prelude.{◌≡◌, ◌≤◌, ℕ, List, map, true, IsTrue, IfOk, IfErr, Err};
ghost use Rattle.gt_disk.specs.Files.{Rose};
ghost use Rattle.gt_disk.specs.declared.file_id.FileId.{FileId};
ghost use Rattle.gt_log.specs.declared.mount_cause.MountCause.{MountCause};
ghost use Rattle.gt_model.specs.Machine.{State, is_faulty};
ghost use Rattle.gt_model.specs.Histories.{Happening};
ghost use Rattle.gt_journal.specs.Histories.{Holds};
ghost use Rattle.gt_part.specs.Mounts.{HasMountCause};
ghost use Rattle.gt_base.specs.Recovery.{recover};
ghost use Rattle.gt_history.specs.Runs.{KeepsPast};
ghost use Rattle.gt_part.specs.Shown.{HasRun};
ghost use Rattle.gt_prog.specs.One.{in_one};
ghost use Rattle.gt_prog.specs.AnyDisk.{ActedOne};
ghost use Rattle.gt_prog.specs.Played.{DidOne};
ghost use Rattle.gt_prog.specs.Script.{HasSession, is_built};
ghost use Rattle.gt_script.specs.declared.form.Form.TheVariants.{Restart};
ghost use Rattle.gt_session.specs.Courses.{has_course};
ghost use Rattle.gt_session.specs.Together.{AreHeld};

use crate::local::Local;
use gt_disk::Disk;
use gt_log::MountError;
use gt_model::{Answer, Done};
use gt_pins::Pin;
use gt_script::{Form, Request};
use gt_session::{Sessions, forgotten_sessions_hold_nothing};
use std::alloc::Global;

/// Does the request of the line of this number: a restart mounts everything again, and what else there is a session does.
pub(crate) fn play_one<D: Disk + Drop>(
    alloc: Global,
    local: Local<D>,
    sessions: &mut Sessions<Pin>,
    line: u32,
    request: &Request,
) -> Result<(Local<D>, Answer), MountError<D>>
    requires built { is_built request.now.form ≡ true }
    requires session { HasSession request.now }
    requires held { AreHeld sessions.old (in_one (map (λ p. p.number) local.live)) }
    ensures did { IfOk result (λ r. DidOne D.tells D.view local.limits line request.now r.1 sessions.old sessions.new local r.0) }
    ensures acted { IfOk result (λ r. ActedOne line request.now r.1 sessions.old sessions.new local r.0) }
    ensures held { IfOk result (λ r. AreHeld sessions.new (in_one (map (λ p. p.number) r.0.live))) }
    ensures limits { IfOk result (λ r. r.0.limits ≡ local.limits) }
    ensures fault { IfOk result (λ r. IsTrue (is_faulty r.1) → Rose (D.fault_count local.disk) (D.fault_count r.0.disk)) }
    ensures later { IfOk result (λ r. D.fault_count local.disk ≤ D.fault_count r.0.disk) }
    ensures only { IfErr result (λ e. request.now.form ≡ Restart) }
    ensures cause { IfErr result (HasMountCause D.fault_count local.disk) }
    ensures in_vain { IsTrue D.tells → (start : State) (begin : ℕ) (history : List Happening) → HasRun D.view start begin history local
        → IfErr result (λ e. Holds local.limits start begin history (D.view e.disk)) }
    ensures past { IsTrue D.tells → IfErr result (λ e. KeepsPast (D.view local.disk) (D.view e.disk)) }
    ensures damaged { IfErr result (λ e. (file : FileId) (at : ℕ) → e.cause ≡ MountCause.Damaged file at → IsTrue D.tells → recover local.limits (D.view e.disk).reads ≡ Err (file, at)) }
{
    match &request.form {
        Form::Restart => {
            sessions.forget_all();
            forgotten_sessions_hold_nothing();
            match local.partition.restart(alloc) {
                Ok(partition) => Ok((Local { partition }, Ok(Done::Restarted))),
                Err(error) => Err(error),
            }
        }
        _ => {
            let mut local = local;
            let answer = ask(alloc, &mut local, sessions, line, request);
            Ok((local, answer))
        }
    }
}

/// Has a session do the request of the line of this number.
fn ask<D: Disk + Drop>(
    alloc: Global,
    local: &mut Local<D>,
    sessions: &mut Sessions<Pin>,
    line: u32,
    request: &Request,
) -> Answer
    requires course { has_course request.now.form ≡ true }
    requires session { HasSession request.now }
    requires held { AreHeld sessions.old (in_one (map (λ p. p.number) local.old.live)) }
    ensures did { DidOne D.tells D.view local.old.limits line request.now result sessions.old sessions.new local.old local.new }
    ensures acted { ActedOne line request.now result sessions.old sessions.new local.old local.new }
    ensures held { AreHeld sessions.new (in_one (map (λ p. p.number) local.new.live)) }
    ensures limits { local.new.limits ≡ local.old.limits }
    ensures fault { IsTrue (is_faulty result) → Rose (D.fault_count local.old.disk) (D.fault_count local.new.disk) }
    ensures later { D.fault_count local.old.disk ≤ D.fault_count local.new.disk }
{
    sessions.request(alloc, local, line, request.session, &request.form)
}
