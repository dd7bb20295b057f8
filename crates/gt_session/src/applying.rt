//! What is done with a partition's log.
ghost use Rattle.std.specs.Prelude.{◌≡◌, ◌≤◌};
ghost use Rattle.gt_model.specs.declared.event.Event.{Event};
ghost use Rattle.gt_session.specs.Sessions.{Session as Seen, pass_in};
ghost use Rattle.gt_session.specs.Courses.{asks};
ghost use Rattle.gt_session.specs.Calls.{Takes};

use crate::positions::hear;
use crate::{Numbered, Parts, Session};
use gt_model::{Answer, Who};
use std::alloc::Global;

impl<T: Numbered> Session<T> {
    /// Applies the next entries of a partition's log, as many as this at most. What the session has open stays.
    pub(crate) fn apply<P: Parts<Pass = T>>(
        &mut self,
        alloc: Global,
        parts: &mut P,
        line: u32,
        partition: u8,
        n: u32,
    ) -> Answer
        requires one { partition ≡ 1 }
        requires some { 1 ≤ n }
        requires most { n ≤ 16 }
        ensures takes { Takes P.did P.mapped (record { session = self.old.number; line = line }) self.old (asks partition (Event.Apply n)) (result, self.new) parts.old parts.new }
        ensures live { P.live parts.new ≡ P.live parts.old }
        ensures pass { pass_in self.new ≡ pass_in self.old }
    {
        let who = Who {
            session: self.number,
            line,
        };
        let answer = parts.apply(alloc, partition, who, n);
        hear(&mut self.seen, partition, &answer);
        answer
    }
}
