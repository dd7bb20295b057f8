//! What is read of references and objects.
ghost use Rattle.std.specs.Prelude.{◌≡◌, ◌⊎◌, Ok, Err};
ghost use Rattle.gt_model.specs.declared.done.Done.{Done};
ghost use Rattle.gt_model.specs.declared.refusal.Refusal.{Refusal};
ghost use Rattle.gt_session.specs.Sessions.{Open, Session as Seen, pass_in};
ghost use Rattle.gt_session.specs.Courses.{with_open, with_ref, get, cat};
ghost use Rattle.gt_session.specs.Calls.{Takes, IsHeld};

use crate::positions::hear;
use crate::values::value_of;
use crate::words::ref_of;
use crate::{Numbered, Parts, Session};
use gt_model::{Answer, Done, Refusal, Who};
use gt_name::Name;
use gt_object::Record;
use std::alloc::Global;

impl<T: Numbered> Session<T> {
    /// What a reference names: its staged value, else the one that the partition reads.
    pub(crate) fn get<P: Parts<Pass = T>>(
        &mut self,
        alloc: Global,
        parts: &mut P,
        line: u32,
        word: &[u8],
    ) -> Answer
        requires held { IsHeld (pass_in self.old) (P.live parts.old) }
        ensures takes { Takes P.did P.mapped (record { session = self.old.number; line = line }) self.old (with_open self.old (λ o. with_ref word.now (get self.old o word.now))) (result, self.new) parts.old parts.new }
        ensures live { P.live parts.new ≡ P.live parts.old }
        ensures pass { pass_in self.new ≡ pass_in self.old }
    {
        let Some(pass) = &mut self.pass else {
            return Err(Refusal::NotOpen);
        };
        let name = match ref_of(alloc, word) {
            Ok(name) => name,
            Err(refusal) => return Err(refusal),
        };
        if let Some(own) = self.stage.own_ref(&name) {
            return Ok(Done::Value {
                value: value_of(own),
            });
        }
        let who = Who {
            session: self.number,
            line,
        };
        let answer = parts.get_ref(alloc, self.partition, who, pass, &name);
        hear(&mut self.seen, self.partition, &answer);
        answer
    }

    /// The record of an object: the staged one, else the one that the partition reads.
    pub(crate) fn cat<P: Parts<Pass = T>>(
        &mut self,
        alloc: Global,
        parts: &mut P,
        line: u32,
        name: &Name,
    ) -> Answer
        requires held { IsHeld (pass_in self.old) (P.live parts.old) }
        ensures takes { Takes P.did P.mapped (record { session = self.old.number; line = line }) self.old (with_open self.old (λ o. cat self.old o name.now)) (result, self.new) parts.old parts.new }
        ensures live { P.live parts.new ≡ P.live parts.old }
        ensures pass { pass_in self.new ≡ pass_in self.old }
    {
        let Some(pass) = &mut self.pass else {
            return Err(Refusal::NotOpen);
        };
        if let Some(own) = self.stage.own_record(name) {
            return copied(own);
        }
        let who = Who {
            session: self.number,
            line,
        };
        let answer = parts.cat(alloc, self.partition, who, pass, name);
        hear(&mut self.seen, self.partition, &answer);
        answer
    }
}

fn copied(whole: &Record) -> Answer
    ensures { (result ≡ Ok (Done.Object whole.now)) ⊎ (result ≡ Err Refusal.Memory) }
{
    match whole.clone() {
        Ok(whole) => Ok(Done::Object { whole }),
        Err(_) => Err(Refusal::Memory),
    }
}
