//! What makes and ends repositories and transactions.
ghost use Rattle.std.specs.Prelude.{◌≡◌, false, None, Some, IfErr};
ghost use Rattle.gt_model.specs.declared.event.Event.{Event};
ghost use Rattle.gt_model.specs.declared.refusal.Refusal.{Refusal};
ghost use Rattle.gt_session.specs.Sessions.{Open, Session as Seen, IsPartition, pass_in};
ghost use Rattle.gt_session.specs.Courses.{with_open, with_path, unless_open, finds, asks, ask, assign, seen_from};
ghost use Rattle.gt_session.specs.Calls.{Takes, Answers, IsHeld, LeavesOthers};

use crate::positions::{hear, seen_from};
use crate::words::path_of;
use crate::{Numbered, Parts, Session};
use gt_model::{Answer, Refusal, Who};
use gt_name::RepoPath;
use gt_stage::Stage;
use std::alloc::Global;

impl<T: Numbered> Session<T> {
    /// Makes a repository.
    pub(crate) fn create<P: Parts<Pass = T>>(
        &mut self,
        alloc: Global,
        parts: &mut P,
        line: u32,
        path: &[u8],
    ) -> Answer
        ensures takes { Takes P.did P.mapped (record { session = self.old.number; line = line }) self.old (with_path path.now (finds path.now (assign None) (λ p. Event.Create path.now false))) (result, self.new) parts.old parts.new }
        ensures live { P.live parts.new ≡ P.live parts.old }
        ensures pass { pass_in self.new ≡ pass_in self.old }
    {
        let path = match path_of(alloc, path) {
            Ok(path) => path,
            Err(refusal) => return Err(refusal),
        };
        let who = Who {
            session: self.number,
            line,
        };
        let partition = match parts.assign(alloc, who, &path, None) {
            Ok(partition) => partition,
            Err(refusal) => return Err(refusal),
        };
        let answer = parts.create(alloc, partition, who, &path, false);
        hear(&mut self.seen, partition, &answer);
        answer
    }

    /// Deletes a repository.
    pub(crate) fn delete<P: Parts<Pass = T>>(
        &mut self,
        alloc: Global,
        parts: &mut P,
        line: u32,
        path: &[u8],
    ) -> Answer
        ensures takes { Takes P.did P.mapped (record { session = self.old.number; line = line }) self.old (with_path path.now (finds path.now ask (λ p. Event.Delete path.now))) (result, self.new) parts.old parts.new }
        ensures live { P.live parts.new ≡ P.live parts.old }
        ensures pass { pass_in self.new ≡ pass_in self.old }
    {
        let path = match path_of(alloc, path) {
            Ok(path) => path,
            Err(refusal) => return Err(refusal),
        };
        let who = Who {
            session: self.number,
            line,
        };
        let partition = match parts.route(alloc, who, &path) {
            Ok(Some(partition)) => partition,
            Ok(None) => return Err(Refusal::NoRepository),
            Err(refusal) => return Err(refusal),
        };
        let answer = parts.delete(alloc, partition, who, &path);
        hear(&mut self.seen, partition, &answer);
        answer
    }

    /// Begins a transaction, with nothing staged: at the front, which has to be at or past what the session has seen of the
    /// partition, and at or past the position that the line names.
    pub(crate) fn begin<P: Parts<Pass = T>>(
        &mut self,
        alloc: Global,
        parts: &mut P,
        line: u32,
        path: &[u8],
        from: Option<u64>,
    ) -> Answer
        requires held { IsHeld (pass_in self.old) (P.live parts.old) }
        ensures takes { Takes P.did P.mapped (record { session = self.old.number; line = line }) self.old (unless_open self.old (with_path path.now (finds path.now ask (λ p. Event.Begin path.now (seen_from self.old p from))))) (result, self.new) parts.old parts.new }
        ensures passes { LeavesOthers (pass_in self.old) (pass_in self.new) (P.live parts.old) (P.live parts.new) }
    {
        if self.pass.is_some() {
            return Err(Refusal::AlreadyOpen);
        }
        let path = match path_of(alloc, path) {
            Ok(path) => path,
            Err(refusal) => return Err(refusal),
        };
        let who = Who {
            session: self.number,
            line,
        };
        let partition = match parts.route(alloc, who, &path) {
            Ok(Some(partition)) => partition,
            Ok(None) => return Err(Refusal::NoRepository),
            Err(refusal) => return Err(refusal),
        };
        self.begin_there(alloc, parts, partition, who, &path, from)
    }

    /// Begins a transaction in a partition, where nothing is open.
    fn begin_there<P: Parts<Pass = T>>(
        &mut self,
        alloc: Global,
        parts: &mut P,
        partition: u8,
        who: Who,
        path: &RepoPath,
        from: Option<u64>,
    ) -> Answer
        requires partition { IsPartition partition }
        requires home { P.home parts.old path.now ≡ Some partition }
        requires shut { self.old.open ≡ None }
        ensures answers { Answers P.did P.mapped who self.old partition (Event.Begin path.now (seen_from self.old partition from)) (result, self.new) parts.old parts.new }
        ensures passes { LeavesOthers None (pass_in self.new) (P.live parts.old) (P.live parts.new) }
    {
        let seen = seen_from(&self.seen, partition, from);
        let answer = parts.begin(alloc, partition, who, path, seen, &mut self.pass);
        self.partition = partition;
        self.stage = Stage::new(alloc);
        hear(&mut self.seen, partition, &answer);
        answer
    }

    /// Commits what is staged.
    pub(crate) fn commit<P: Parts<Pass = T>>(
        &mut self,
        alloc: Global,
        parts: &mut P,
        line: u32,
    ) -> Answer
        requires held { IsHeld (pass_in self.old) (P.live parts.old) }
        ensures takes { Takes P.did P.mapped (record { session = self.old.number; line = line }) self.old (with_open self.old (λ o. asks o.partition (Event.Commit o.pin o.stage.staged.refs o.stage.staged.records))) (result, self.new) parts.old parts.new }
        ensures passes { LeavesOthers (pass_in self.old) (pass_in self.new) (P.live parts.old) (P.live parts.new) }
    {
        if self.pass.is_none() {
            return Err(Refusal::NotOpen);
        }
        let who = Who {
            session: self.number,
            line,
        };
        let answer = parts.commit(alloc, self.partition, who, &mut self.pass, &self.stage);
        hear(&mut self.seen, self.partition, &answer);
        answer
    }

    /// Gives the transaction up.
    pub(crate) fn abort<P: Parts<Pass = T>>(&mut self, parts: &mut P, line: u32) -> Answer
        requires held { IsHeld (pass_in self.old) (P.live parts.old) }
        ensures takes { Takes P.did P.mapped (record { session = self.old.number; line = line }) self.old (with_open self.old (λ o. asks o.partition (Event.Abort o.pin))) (result, self.new) parts.old parts.new }
        ensures certain { IfErr result (λ why. why ≡ Refusal.NotOpen) }
        ensures passes { LeavesOthers (pass_in self.old) (pass_in self.new) (P.live parts.old) (P.live parts.new) }
    {
        let who = Who {
            session: self.number,
            line,
        };
        let Some(pass) = self.pass.take() else {
            return Err(Refusal::NotOpen);
        };
        parts.abort(self.partition, who, pass)
    }
}
