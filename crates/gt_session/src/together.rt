//! The sessions of a script together.
ghost use Rattle.std.specs.Prelude.{◌≡◌, ◌≤◌, true, map, IfOk, IfErr};
ghost use Rattle.gt_model.specs.declared.refusal.Refusal.{Refusal};
ghost use Rattle.gt_script.specs.declared.form.Form.{Form};
ghost use Rattle.gt_session.specs.Sessions.{forgotten};
ghost use Rattle.gt_session.specs.Courses.{has_course};
ghost use Rattle.gt_session.specs.Together.{sessions_from, Requests, GiveUp, AreHeld};

use crate::{Numbered, Parts, Session};
use gt_list::NoMemory;
use gt_model::Answer;
use gt_script::Form;
use std::alloc::Global;
use std::marker::Model;

/// The sessions 1 to 128 of a script.
#[derive(Drop)]
pub struct Sessions<T: Numbered> {
    all: Vec<Session<T>>,
}

impl<T: Numbered> Model for Sessions<T> {
    ghost use Rattle.std.specs.Prelude.{List};
    ghost use Rattle.gt_session.specs.Sessions.{Session};

    ghost Value = { List Session };

    ghost use Rattle.gt_session.specs.Together.{AreNumbered};

    ghost view = { λ s. s.all.items };

    ghost invariant = { λ s. AreNumbered s.all.items };
}

impl<T: Numbered> Sessions<T> {
    /// The sessions of a script that begins: none has anything open.
    pub fn new(alloc: Global) -> Result<Sessions<T>, NoMemory>
        ensures { IfOk result (λ s. s ≡ sessions_from 1 128) }
    {
        match new_sessions(alloc) {
            Ok(all) => Ok(Sessions { all }),
            Err(error) => Err(error),
        }
    }

    /// Does a line of a session, and answers it. The forms are those that have a course.
    pub fn request<P: Parts<Pass = T>>(
        &mut self,
        alloc: Global,
        parts: &mut P,
        line: u32,
        session: u8,
        form: &Form,
    ) -> Answer
        requires least { 1 ≤ session }
        requires most { session ≤ 128 }
        requires built { has_course form.now ≡ true }
        requires held { AreHeld self.old (P.live parts.old) }
        ensures does { Requests P.did P.mapped line session form.now result self.old self.new parts.old parts.new }
        ensures aborts { form.now ≡ Form.Abort → IfErr result (λ why. why ≡ Refusal.NotOpen) }
        ensures held { AreHeld self.new (P.live parts.new) }
    {
        self.all[session as usize - 1].request(alloc, parts, line, form)
    }

    /// Drops what is open, before everything is mounted again. It takes no memory.
    pub fn forget_all(&mut self)
        ensures { self.new ≡ map forgotten self.old }
    {
        forget_each(&mut self.all);
    }

    /// Gives up what is open, at the end of the input. It takes no memory.
    pub fn end_all<P: Parts<Pass = T>>(&mut self, parts: &mut P)
        requires held { AreHeld self.old (P.live parts.old) }
        ensures ends { GiveUp P.did self.old parts.old parts.new }
        ensures sessions { self.new ≡ map forgotten self.old }
    {
        end_each(&mut self.all, parts);
    }
}

fn new_sessions<T: Numbered>(alloc: Global) -> Result<Vec<Session<T>>, NoMemory>
    ensures { IfOk result (λ all. all.items ≡ sessions_from 1 128) }
{
    let mut all = Vec::new(alloc);
    for number in 1..129 {
        if let Err(_) = all.push(Session::new(alloc, number)) {
            return Err(NoMemory);
        }
    }
    Ok(all)
}

fn forget_each<T: Numbered>(all: &mut Vec<Session<T>>)
    ensures { all.new.items ≡ map forgotten all.old.items }
{
    for i in 0..all.len() {
        all[i].forget();
    }
}

fn end_each<T: Numbered, P: Parts<Pass = T>>(all: &mut Vec<Session<T>>, parts: &mut P)
    requires held { AreHeld all.old.items (P.live parts.old) }
    ensures ends { GiveUp P.did all.old.items parts.old parts.new }
    ensures sessions { all.new.items ≡ map forgotten all.old.items }
{
    for i in 0..all.len() {
        all[i].end(parts);
    }
}
