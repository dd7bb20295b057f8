ghost use Rattle.std.specs.Prelude.{◌≡◌, true, nat_eq, filter, map as map_list, IfOk};
ghost use Rattle.std.specs.List.{starts_with};
ghost use Rattle.std.specs.FinMap as map;
ghost use Rattle.gt_model.specs.declared.done.Done.TheVariants.{Value, Refs, Aborted};
ghost use Rattle.gt_model.specs.declared.event.Event.TheVariants.{Begin};
ghost use Rattle.gt_model.specs.Contents.{value, found};
ghost use Rattle.gt_model.specs.Verdicts.{refs_in};
ghost use Rattle.gt_model.specs.Machine.{effect, answers, object, is_live, pin_of, references, content_of, released};
ghost use Rattle.gt_plain_machine.specs.States.{as_state, as_effect};

use crate::pins::{free_number, released};
use crate::{PlainEffect, PlainPin, PlainPins, PlainState};
use gt_list::{ListOf, NoMemory};
use gt_model::{Done, Limits, RefList, RefValue, Refusal};
use gt_name::{Name, RefName, RepoPath};
use gt_plain::PlainContent;
use std::alloc::Global;

impl PlainState {
    /// What the begin of a transaction comes to.
    pub(crate) fn begin(
        &self,
        alloc: Global,
        limits: &Limits,
        path: &RepoPath,
        seen: u64,
    ) -> Result<PlainEffect, NoMemory>
        ensures { IfOk result (λ e. as_effect e ≡ effect limits.now (as_state self.now) (Begin path.now seen)) }
    {
        let front = self.front()?;
        if front < seen {
            return self.refused(Refusal::Behind { seen, front });
        }
        if usize::from(limits.pins) <= self.pins.len() {
            return self.refused(Refusal::PinsFull);
        }
        let content = self.content(alloc)?;
        if !content.has_repo(path) {
            return self.refused(Refusal::NoRepository);
        }
        let mut pins = self.all_pins()?;
        pins.push(PlainPin {
            number: free_number(self.pins.as_slice())?,
            position: front,
            path: path.clone()?,
            work: None,
        })?;
        Ok(PlainEffect::Answers(Done::Begun { position: front }, pins))
    }

    /// The content that a transaction or a job reads.
    pub(crate) fn content_of(&self, alloc: Global, number: u8) -> Result<PlainContent, NoMemory>
        requires { is_live (as_state self.now).pins number ≡ true }
        ensures { IfOk result (λ c. c ≡ content_of (as_state self.now) number) }
    {
        self.content_at(alloc, self.pin(number).position())
    }

    /// What the reading of a reference comes to.
    pub(crate) fn get_ref(
        &self,
        alloc: Global,
        number: u8,
        name: &RefName,
    ) -> Result<PlainEffect, NoMemory>
        requires { is_live (as_state self.now).pins number ≡ true }
        ensures { let s = as_state self.now in IfOk result (λ e. as_effect e ≡ answers (Value (value (content_of s number) (pin_of s number).path name.now)) s.pins) }
    {
        let content = self.content_of(alloc, number)?;
        let value = content.value(self.pin(number).path(), name);
        self.answered(Done::Value { value })
    }

    /// What the listing of references comes to.
    pub(crate) fn list_refs(
        &self,
        alloc: Global,
        number: u8,
        prefix: &[u8],
    ) -> Result<PlainEffect, NoMemory>
        requires { is_live (as_state self.now).pins number ≡ true }
        ensures { let s = as_state self.now in IfOk result (λ e. as_effect e ≡ answers (Refs (references (refs_in (content_of s number) (pin_of s number).path) prefix.now)) s.pins) }
    {
        let content = self.content_of(alloc, number)?;
        let list = references(alloc, &content, self.pin(number).path(), prefix)?;
        self.answered(Done::Refs { list })
    }

    /// What the reading of an object comes to.
    pub(crate) fn cat(
        &self,
        alloc: Global,
        number: u8,
        name: &Name,
    ) -> Result<PlainEffect, NoMemory>
        requires { is_live (as_state self.now).pins number ≡ true }
        ensures { let s = as_state self.now in IfOk result (λ e. as_effect e ≡ object (found (content_of s number) (pin_of s number).path name.now) name.now s.pins) }
    {
        let content = self.content_of(alloc, number)?;
        match content.found(self.pin(number).path(), name) {
            Some(whole) => self.answered(Done::Object {
                whole: whole.clone()?,
            }),
            None => self.refused(Refusal::Absent { name: *name }),
        }
    }

    /// What the end of a transaction or a job that is given up comes to.
    pub(crate) fn abort(&self, alloc: Global, number: u8) -> Result<PlainEffect, NoMemory>
        ensures { let s = as_state self.now in IfOk result (λ e. as_effect e ≡ answers Aborted (released s.pins number)) }
    {
        let pins = self.released(alloc, number)?;
        Ok(PlainEffect::Answers(Done::Aborted, pins))
    }

    /// What is live without the one of this number.
    pub(crate) fn released(&self, alloc: Global, number: u8) -> Result<PlainPins, NoMemory>
        ensures { IfOk result (λ pins. pins ≡ released (as_state self.now).pins number) }
    {
        released(alloc, self.pins.as_slice(), number)
    }
}

/// The references of a repository and their values, ascending.
fn refs_of(
    alloc: Global,
    content: &PlainContent,
    path: &RepoPath,
) -> Result<Vec<(RefName, Name)>, NoMemory>
    ensures { IfOk result (λ v. v.items ≡ map.entries (refs_in content.now path.now)) }
{
    match content.get(path) {
        Some(repo) => repo.refs().entries(alloc),
        None => Ok(Vec::new(alloc)),
    }
}

/// Those of a repository whose names begin so, ascending.
fn references(
    alloc: Global,
    content: &PlainContent,
    path: &RepoPath,
    prefix: &[u8],
) -> Result<RefList, NoMemory>
    ensures { IfOk result (λ list. list ≡ references (refs_in content.now path.now) prefix.now) }
{
    let refs = refs_of(alloc, content, path)?;
    with_prefix(alloc, &refs, prefix)
}

/// Those whose names begin so.
fn with_prefix(alloc: Global, refs: &[(RefName, Name)], prefix: &[u8]) -> Result<RefList, NoMemory>
    ensures { IfOk result (λ list. list ≡ map_list (λ e. record { name = e.0; value = e.1 }) (filter (λ e. starts_with nat_eq e.0 prefix.now) refs.now)) }
{
    let mut list = ListOf::new(alloc);
    for item in refs {
        if item.0.bytes().starts_with(prefix) {
            list.push(RefValue {
                name: item.0.clone()?,
                value: item.1,
            })?;
        }
    }
    Ok(list)
}
