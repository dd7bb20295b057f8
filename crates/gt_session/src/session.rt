ghost use Rattle.std.specs.Prelude.{◌≡◌, ◌≢◌, ℕ, None, true, IfErr};
ghost use Rattle.gt_model.specs.declared.refusal.Refusal.{Refusal};
ghost use Rattle.gt_script.specs.declared.form.Form.{Form};
ghost use Rattle.gt_session.specs.Sessions.{Session as Seen, IsPartition, new_session, forgotten, pass_in};
ghost use Rattle.gt_session.specs.Courses.{course};
ghost use Rattle.gt_session.specs.Calls.{Does, GivesUp, IsHeld, LeavesOthers};

use crate::{Numbered, Parts};
use gt_model::{Answer, Who};
use gt_script::Form;
use gt_stage::Stage;
use std::alloc::Global;
use std::marker::Model;

/// One session of a script: the transaction that it has open, if any, and what it has seen.
#[derive(Drop)]
pub struct Session<T: Numbered> {
    pub(crate) number: u8,
    // the partition of the pass; any where nothing is open
    pub(crate) partition: u8,
    pub(crate) pass: Option<T>,
    pub(crate) stage: Stage,
    pub(crate) seen: [u64; 8],
}

impl<T: Numbered> Model for Session<T> {
    ghost use Rattle.std.specs.Option.{option_map};
    ghost use Rattle.gt_session.specs.Sessions.{Session, IsPartition};

    ghost Value = { Session };

    ghost view = { λ s. record { number = s.number; «open» = option_map (λ pass. record { partition = s.partition; pin = T.number pass; stage = s.stage }) s.pass; seen = s.seen } };

    ghost invariant = { λ s. IsPartition s.partition };
}

impl<T: Numbered> Session<T> {
    /// A session that has nothing open and has seen nothing. It takes no memory.
    pub fn new(alloc: Global, number: u8) -> Session<T>
        ensures { result ≡ new_session number }
    {
        Session {
            number,
            partition: 1,
            pass: None,
            stage: Stage::new(alloc),
            seen: [0; 8],
        }
    }

    /// Does a line, and answers it. The forms are those that have a course.
    pub fn request<P: Parts<Pass = T>>(
        &mut self,
        alloc: Global,
        parts: &mut P,
        line: u32,
        form: &Form,
    ) -> Answer
        requires built { course self.old form.now ≢ None }
        requires held { IsHeld (pass_in self.old) (P.live parts.old) }
        ensures does { Does P.did P.mapped (record { session = self.old.number; line = line }) self.old (course self.old form.now) (result, self.new) parts.old parts.new }
        ensures aborts { form.now ≡ Form.Abort → IfErr result (λ why. why ≡ Refusal.NotOpen) }
        ensures passes { LeavesOthers (pass_in self.old) (pass_in self.new) (P.live parts.old) (P.live parts.new) }
    {
        match form {
            Form::Create { path, near: None } => self.create(alloc, parts, line, path.as_slice()),
            Form::Delete { path } => self.delete(alloc, parts, line, path.as_slice()),
            Form::Begin { path, from } => self.begin(alloc, parts, line, path.as_slice(), *from),
            Form::Put { kind, content } => self.put(alloc, *kind, content.as_slice()),
            Form::Set { name, old, new } => self.set(
                alloc,
                parts,
                line,
                name.as_slice(),
                *old,
                *new,
            ),
            Form::Verify { name, old } => self.verify(alloc, parts, line, name.as_slice(), *old),
            Form::Get { name } => self.get(alloc, parts, line, name.as_slice()),
            Form::List { prefix } => self.list(alloc, parts, line, prefix.as_slice()),
            Form::Cat { name } => self.cat(alloc, parts, line, name),
            Form::Commit => self.commit(alloc, parts, line),
            Form::Abort => self.abort(parts, line),
            Form::Apply { partition, n } => self.apply(alloc, parts, line, *partition, *n),
            _ => unreachable!(),
        }
    }

    /// Gives up what is open, at the end of the input. It takes no memory.
    pub fn end<P: Parts<Pass = T>>(&mut self, parts: &mut P)
        requires held { IsHeld (pass_in self.old) (P.live parts.old) }
        ensures session { self.new ≡ forgotten self.old }
        ensures aborts { GivesUp P.did (record { session = self.old.number; line = 0 }) self.old.open parts.old parts.new }
        ensures passes { LeavesOthers (pass_in self.old) None (P.live parts.old) (P.live parts.new) }
    {
        let who = Who {
            session: self.number,
            line: 0,
        };
        let Some(pass) = self.pass.take() else {
            return;
        };
        let _ = parts.abort(self.partition, who, pass);
    }

    /// Drops what is open, before everything is mounted again. It takes no memory.
    pub fn forget(&mut self)
        ensures { self.new ≡ forgotten self.old }
    {
        self.pass = None;
    }
}
