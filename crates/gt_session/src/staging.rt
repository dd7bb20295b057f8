//! What is put into the stage.
ghost use Rattle.std.specs.Prelude.{◌≡◌, ℕ, None};
ghost use Rattle.std.specs.List.{IsAmong};
ghost use Rattle.gt_session.specs.Sessions.{Open, Session as Seen, pass_in};
ghost use Rattle.gt_session.specs.Courses.{with_open, with_ref, with_old, alone, put, set, check, refusal_of, content_of};
ghost use Rattle.gt_session.specs.Calls.{Takes, IsHeld};
ghost use Rattle.gt_session.specs.Pieces.{IsAlone, TurnsStage, FindsOld, stage_refusal, open_with};

use crate::values::old_in;
use crate::words::{content_of, ref_of};
use crate::{Numbered, Parts, Session};
use gt_model::{Answer, Done, Refusal, Who};
use gt_name::{Name, RefName};
use gt_object::{Kind, ObjectError, Record};
use gt_stage::{Stage, StageError};
use std::alloc::Global;

impl<T: Numbered> Session<T> {
    /// Stages a record of the content that a word spells.
    pub(crate) fn put(&mut self, alloc: Global, kind: Kind, word: &[u8]) -> Answer
        ensures alone { IsAlone self.old (with_open self.old (λ o. alone (put self.old o kind (content_of word.now)))) (result, self.new) }
        ensures pass { pass_in self.new ≡ pass_in self.old }
    {
        if self.pass.is_none() {
            return Err(Refusal::NotOpen);
        }
        match content_of(alloc, word) {
            Ok(content) => put_record(&mut self.stage, alloc, kind, content.as_slice()),
            Err(_) => Err(Refusal::Memory),
        }
    }

    /// Stages an update of a reference.
    pub(crate) fn set<P: Parts<Pass = T>>(
        &mut self,
        alloc: Global,
        parts: &mut P,
        line: u32,
        word: &[u8],
        old: Option<Name>,
        new: Name,
    ) -> Answer
        requires held { IsHeld (pass_in self.old) (P.live parts.old) }
        ensures takes { Takes P.did P.mapped (record { session = self.old.number; line = line }) self.old (with_open self.old (λ o. with_ref word.now (with_old self.old o word.now old (set self.old o word.now new)))) (result, self.new) parts.old parts.new }
        ensures live { P.live parts.new ≡ P.live parts.old }
        ensures pass { pass_in self.new ≡ pass_in self.old }
    {
        let Some(pass) = &mut self.pass else {
            return Err(Refusal::NotOpen);
        };
        let name = match ref_of(alloc, word) {
            Ok(name) => name,
            Err(refusal) => return Err(refusal),
        };
        let who = Who {
            session: self.number,
            line,
        };
        match old_value(
            alloc,
            parts,
            self.partition,
            who,
            pass,
            &self.stage,
            &name,
            old,
        ) {
            Ok(old) => put_update(&mut self.stage, name, old, new),
            Err(refusal) => Err(refusal),
        }
    }

    /// Stages a check of a reference.
    pub(crate) fn verify<P: Parts<Pass = T>>(
        &mut self,
        alloc: Global,
        parts: &mut P,
        line: u32,
        word: &[u8],
        old: Option<Name>,
    ) -> Answer
        requires held { IsHeld (pass_in self.old) (P.live parts.old) }
        ensures takes { Takes P.did P.mapped (record { session = self.old.number; line = line }) self.old (with_open self.old (λ o. with_ref word.now (with_old self.old o word.now old (check self.old o word.now)))) (result, self.new) parts.old parts.new }
        ensures live { P.live parts.new ≡ P.live parts.old }
        ensures pass { pass_in self.new ≡ pass_in self.old }
    {
        let Some(pass) = &mut self.pass else {
            return Err(Refusal::NotOpen);
        };
        let name = match ref_of(alloc, word) {
            Ok(name) => name,
            Err(refusal) => return Err(refusal),
        };
        let who = Who {
            session: self.number,
            line,
        };
        match old_value(
            alloc,
            parts,
            self.partition,
            who,
            pass,
            &self.stage,
            &name,
            old,
        ) {
            Ok(old) => put_check(&mut self.stage, name, old),
            Err(refusal) => Err(refusal),
        }
    }
}

/// The value that is given, else the one that the transaction sees: the staged one, or the one that the partition
/// reads. Zero where there is none.
fn old_value<P: Parts>(
    alloc: Global,
    parts: &mut P,
    partition: u8,
    who: Who,
    pass: &mut P::Pass,
    stage: &Stage,
    name: &RefName,
    given: Option<Name>,
) -> Result<Name, Refusal>
    requires { IsAmong (P.live parts.old partition) (P.Pass.number pass.old) }
    ensures finds { FindsOld (λ e answer. P.did partition who e answer None) (open_with partition (P.Pass.number pass.old) stage.now) name.now given result parts.old parts.new }
    ensures pass { P.Pass.number pass.new ≡ P.Pass.number pass.old }
    ensures live { P.live parts.new ≡ P.live parts.old }
{
    if let Some(old) = given {
        return Ok(old);
    }
    if let Some(own) = stage.own_ref(name) {
        return Ok(own);
    }
    match parts.get_ref(alloc, partition, who, pass, name) {
        Ok(done) => Ok(old_in(&done)),
        Err(refusal) => Err(refusal),
    }
}

fn put_record(stage: &mut Stage, alloc: Global, kind: Kind, content: &[u8]) -> Answer
    ensures { TurnsStage (λ s o. put s o kind content.now) stage.old result stage.new }
{
    let whole = match Record::new(alloc, kind, content) {
        Ok(whole) => whole,
        Err(error) => return Err(refusal_of(error)),
    };
    match stage.put(whole) {
        Ok(name) => Ok(Done::Named { name }),
        Err(error) => Err(stage_refusal(error)),
    }
}

fn put_update(stage: &mut Stage, name: RefName, old: Name, new: Name) -> Answer
    ensures { TurnsStage (λ s o. set s o name new old) stage.old result stage.new }
{
    match stage.set(name, old, new) {
        Ok(()) => Ok(Done::Staged),
        Err(error) => Err(stage_refusal(error)),
    }
}

fn put_check(stage: &mut Stage, name: RefName, old: Name) -> Answer
    ensures { TurnsStage (λ s o. check s o name old) stage.old result stage.new }
{
    match stage.verify(name, old) {
        Ok(()) => Ok(Done::Checked),
        Err(error) => Err(stage_refusal(error)),
    }
}

fn refusal_of(error: ObjectError) -> Refusal
    ensures { result ≡ refusal_of error }
{
    match error {
        ObjectError::TooLarge => Refusal::TooLarge,
        ObjectError::BadObject { at } => Refusal::BadObject { at: at as u64 },
        ObjectError::Memory => Refusal::Memory,
    }
}

fn stage_refusal(error: StageError) -> Refusal
    ensures { result ≡ stage_refusal error }
{
    match error {
        StageError::StageFull => Refusal::StageFull,
        StageError::Memory => Refusal::Memory,
    }
}
