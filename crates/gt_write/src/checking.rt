ghost use Rattle.std.specs.Prelude.{◌≡◌, ◌≤◌, ℕ, List, Ok, Err};
ghost use Rattle.gt_model.specs.declared.limits.Limits.{Limits};
ghost use Rattle.gt_model.specs.Contents.{Content};
ghost use Rattle.gt_model.specs.Verdicts.{Staged, verdict};
ghost use Rattle.gt_verify.specs.Refusing.{ready_of, IsVerdict};
ghost use Rattle.gt_write.specs.declared.checked.Checked.{Checked as Came};
ghost use Rattle.gt_write.specs.Checking.{IsChecked, IsRefusedBy};

use crate::Checked;
use crate::writing::write_entry;
use gt_list::NoMemory;
use gt_model::{Limits, Look, Refusal};
use gt_name::RepoPath;
use gt_stage::Stage;
use gt_verify::{Ready, VerifyError, verdict};
use std::alloc::Global;

/// Checks what a transaction has staged against the content at the front. `Refused` comes exactly where the verdict is a
/// refusal, and then `Full` exactly at the limit of positions.
pub fn check_commit<L: Look>(
    alloc: Global,
    limits: &Limits,
    front: u64,
    content: &L,
    path: &RepoPath,
    stage: &Stage,
) -> Checked
    ensures { IsChecked limits.now front (L.content content.now) path.now stage.now.staged result }
{
    match verdict(alloc, content, path, stage) {
        Ok(ready) => good(alloc, limits, front, content, path, stage, ready),
        Err(error) => refused(error),
    }
}

/// A check fails, or memory ran out before that is known or can be said.
fn refused(error: VerifyError) -> Checked
    ensures { (limits : Limits) (front : ℕ) (c : Content) (path : List ℕ) (staged : Staged) → IsVerdict (verdict c path staged) (Err error) → IsChecked limits front c path staged result }
{
    if matches!(error, VerifyError::Memory) {
        return Checked::Memory;
    }
    refused_by(Refusal::from(error))
}

/// A refusal, with a copy of it.
fn refused_by(answer: Refusal) -> Checked
    ensures { IsRefusedBy answer result }
{
    match answer.clone() {
        Ok(kept) => Checked::Refused { answer, kept },
        Err(_) => Checked::Memory,
    }
}

/// The entry of a commit whose checks passed, where the log isn't full.
fn good<L: Look>(
    alloc: Global,
    limits: &Limits,
    front: u64,
    content: &L,
    path: &RepoPath,
    stage: &Stage,
    ready: Ready,
) -> Checked
    requires { verdict (L.content content.now) path.now stage.now.staged ≡ Ok (ready_of ready) }
    ensures checked { IsChecked limits.now front (L.content content.now) path.now stage.now.staged result }
    ensures full { limits.now.positions ≤ front → result ≡ Came.Full }
{
    let _ = content;
    if limits.positions <= front {
        return Checked::Full;
    }
    match write_entry(alloc, front + 1, path, stage, ready) {
        Ok(entry) => Checked::Good(entry),
        Err(NoMemory) => Checked::Memory,
    }
}
