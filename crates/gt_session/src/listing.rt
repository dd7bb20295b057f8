//! What is read of many references.
ghost use Rattle.std.specs.Prelude.{◌≡◌, ◌⊎◌, ◌∷◌, ◌++◌, [], Ok, Err, IfOk, IfErr, OnOk};
ghost use Rattle.std.specs.FinMap as map;
ghost use Rattle.gt_model.specs.declared.done.Done.{Done};
ghost use Rattle.gt_model.specs.declared.event.Event.{Event};
ghost use Rattle.gt_model.specs.declared.refusal.Refusal.{Refusal};
ghost use Rattle.gt_model.specs.Contents.{with_value, with_refs};
ghost use Rattle.gt_model.specs.Machine.{references};
ghost use Rattle.gt_session.specs.Sessions.{Open, Session as Seen, pass_in};
ghost use Rattle.gt_session.specs.Courses.{with_open, reads, list_in, as_names, laid_over};
ghost use Rattle.gt_session.specs.Calls.{Takes, IsHeld};
ghost use Rattle.gt_session.specs.Pieces.{names_of, values_with, done_over};

use crate::{Numbered, Parts, Session};
use gt_list::NoMemory;
use gt_model::{Answer, Done, RefList, RefValue, Refusal, Who};
use gt_name::{Name, RefName};
use gt_stage::Stage;
use std::alloc::Global;
use std::collections::BTreeMap;

impl<T: Numbered> Session<T> {
    /// The references whose names begin so: those that the partition reads, with the staged updates laid over them.
    pub(crate) fn list<P: Parts<Pass = T>>(
        &mut self,
        alloc: Global,
        parts: &mut P,
        line: u32,
        prefix: &[u8],
    ) -> Answer
        requires held { IsHeld (pass_in self.old) (P.live parts.old) }
        ensures takes { Takes P.did P.mapped (record { session = self.old.number; line = line }) self.old (with_open self.old (λ o. reads o.partition (Event.ListRefs o.pin prefix.now) (list_in self.old o prefix.now))) (result, self.new) parts.old parts.new }
        ensures live { P.live parts.new ≡ P.live parts.old }
        ensures pass { pass_in self.new ≡ pass_in self.old }
    {
        let Some(pass) = &mut self.pass else {
            return Err(Refusal::NotOpen);
        };
        let who = Who {
            session: self.number,
            line,
        };
        match parts.list_refs(alloc, self.partition, who, pass, prefix) {
            Ok(done) => done_over(alloc, &self.stage, prefix, done),
            Err(refusal) => Err(refusal),
        }
    }
}

/// What was read, with the staged updates laid over it.
fn done_over(alloc: Global, stage: &Stage, prefix: &[u8], done: Done) -> Answer
    ensures { (result ≡ Ok (done_over stage.now.staged.refs prefix.now done)) ⊎ (result ≡ Err Refusal.Memory) }
{
    match done {
        Done::Refs { list } => match laid_over(alloc, stage, prefix, list) {
            Ok(list) => Ok(Done::Refs { list }),
            Err(_) => Err(Refusal::Memory),
        },
        done => Ok(done),
    }
}

fn laid_over(
    alloc: Global,
    stage: &Stage,
    prefix: &[u8],
    list: RefList,
) -> Result<RefList, NoMemory>
    ensures { IfOk result (λ laid. laid ≡ laid_over stage.now.staged.refs prefix.now list) }
{
    let mut table = match table_of(alloc, list) {
        Ok(table) => table,
        Err(error) => return Err(error),
    };
    match lay_over(&mut table, stage) {
        Ok(()) => values_with(alloc, prefix, table),
        Err(error) => Err(error),
    }
}

/// References by their names. At a name that stands twice the first one counts.
fn table_of(alloc: Global, list: RefList) -> Result<BTreeMap<RefName, Name>, NoMemory>
    ensures { IfOk result (λ table. names_of table.entries ≡ as_names list) }
{
    let mut list = list;
    let mut table = BTreeMap::new(alloc);
    while let Some(RefValue { name, value }) = list.pop() {
        if let Err(error) = insert_value(&mut table, name, value) {
            return Err(error);
        }
    }
    Ok(table)
}

/// Lays the staged updates over the references, in order of first staging.
fn lay_over(table: &mut BTreeMap<RefName, Name>, stage: &Stage) -> Result<(), NoMemory>
    ensures { OnOk result (names_of table.new.entries ≡ with_refs (names_of table.old.entries) stage.now.staged.refs) }
{
    for i in 0..stage.refs_len() {
        let Some((name, _, new)) = stage.ref_at(i) else {
            unreachable!();
        };
        if let Err(error) = set_value(table, name, new) {
            return Err(error);
        }
    }
    Ok(())
}

/// A reference gets its new value, or goes where that is zero. A check leaves it.
fn set_value(
    table: &mut BTreeMap<RefName, Name>,
    name: &RefName,
    new: Option<Name>,
) -> Result<(), NoMemory>
    ensures { OnOk result (names_of table.new.entries ≡ with_value (names_of table.old.entries) name.now new) }
{
    let Some(new) = new else {
        return Ok(());
    };
    if new == Name::ZERO {
        let _ = table.remove(name);
        return Ok(());
    }
    match name.clone() {
        Ok(name) => insert_value(table, name, new),
        Err(_) => Err(NoMemory),
    }
}

fn insert_value(
    table: &mut BTreeMap<RefName, Name>,
    name: RefName,
    value: Name,
) -> Result<(), NoMemory>
    ensures { OnOk result (names_of table.new.entries ≡ map.insert (names_of table.old.entries) name value) }
{
    if let Err(_) = table.insert(name, value) {
        return Err(NoMemory);
    }
    Ok(())
}

/// The references whose names begin so, ascending.
fn values_with(
    alloc: Global,
    prefix: &[u8],
    table: BTreeMap<RefName, Name>,
) -> Result<RefList, NoMemory>
    ensures { IfOk result (λ list. list ≡ references (names_of table.entries) prefix.now) }
{
    let Ok(mut values) = Vec::with_capacity(alloc, table.len()) else {
        return Err(NoMemory);
    };
    for (name, value) in table {
        if let Err(error) = push_value(&mut values, prefix, name, value) {
            return Err(error);
        }
    }
    Ok(RefList::from_vec(values))
}

fn push_value(
    values: &mut Vec<RefValue>,
    prefix: &[u8],
    name: RefName,
    value: Name,
) -> Result<(), NoMemory>
    ensures { OnOk result (values.new.items ≡ values.old.items ++ values_with prefix.now ((name, value) ∷ [])) }
{
    if !name.bytes().starts_with(prefix) {
        return Ok(());
    }
    match values.push(RefValue { name, value }) {
        Ok(()) => Ok(()),
        Err(_) => Err(NoMemory),
    }
}
