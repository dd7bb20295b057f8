//! What stands behind each verb.
ghost use Rattle.std.specs.Prelude.{◌≡◌, ◌≤◌, List, ℕ, length, IfOk, IfErr, Ok, Err};
ghost use Rattle.std.specs.Option.{option_copied};
ghost use Rattle.gt_script.specs.declared.error.LineError.TheVariants.{Memory};
ghost use Rattle.gt_script.specs.Values.{any};
ghost use Rattle.gt_script.specs.Grammar.{one, none, form_of};
ghost use Rattle.gt_script.specs.Answers.{left, Gives, FailsAt};
ghost use Rattle.gt_script.specs.declared.verb.Verb.TheVariants as verb;

use crate::readers::{
    next_any, next_content, next_job, next_kind, next_name, next_number, next_old,
};
use crate::tails::{maybe_from, maybe_near, maybe_prefix};
use crate::words::no_more;
use crate::{Form, LineError};
use gt_model::Word;
use std::alloc::Global;

/// A copy of a word.
fn copied(alloc: Global, word: &[u8]) -> Result<Word, LineError>
    ensures ok { IfOk result (λ copy. copy ≡ word.now) }
    ensures err { IfErr result (λ e. e ≡ Memory) }
{
    match Vec::from_slice(alloc, word) {
        Ok(bytes) => Ok(Word::from_vec(bytes)),
        Err(_) => Err(LineError::Memory),
    }
}

/// A copy of a word, if there is one.
fn maybe_copied(alloc: Global, word: Option<&[u8]>) -> Result<Option<Word>, LineError>
    ensures ok { IfOk result (λ copy. copy ≡ option_copied word.entry) }
    ensures err { IfErr result (λ e. e ≡ Memory) }
{
    match word {
        None => Ok(None),
        Some(word) => {
            let copy = copied(alloc, word)?;
            Ok(Some(copy))
        }
    }
}

pub(crate) fn create(alloc: Global, text: &[u8], at: usize) -> Result<Form, LineError>
    requires { at ≤ length text.now }
    ensures { Gives (form_of verb.Create (length text.now) (left text.now at)) result }
{
    let (path, end) = next_any(text, at)?;
    let near = maybe_near(text, end)?;
    let path = copied(alloc, path)?;
    let near = maybe_copied(alloc, near)?;
    Ok(Form::Create { path, near })
}

pub(crate) fn pool(alloc: Global, text: &[u8], at: usize) -> Result<Form, LineError>
    requires { at ≤ length text.now }
    ensures { Gives (form_of verb.Pool (length text.now) (left text.now at)) result }
{
    let (path, end) = next_any(text, at)?;
    no_more(text, end)?;
    let path = copied(alloc, path)?;
    Ok(Form::Pool { path })
}

pub(crate) fn delete(alloc: Global, text: &[u8], at: usize) -> Result<Form, LineError>
    requires { at ≤ length text.now }
    ensures { Gives (form_of verb.Delete (length text.now) (left text.now at)) result }
{
    let (path, end) = next_any(text, at)?;
    no_more(text, end)?;
    let path = copied(alloc, path)?;
    Ok(Form::Delete { path })
}

pub(crate) fn get(alloc: Global, text: &[u8], at: usize) -> Result<Form, LineError>
    requires { at ≤ length text.now }
    ensures { Gives (form_of verb.Get (length text.now) (left text.now at)) result }
{
    let (name, end) = next_any(text, at)?;
    no_more(text, end)?;
    let name = copied(alloc, name)?;
    Ok(Form::Get { name })
}

pub(crate) fn link(alloc: Global, text: &[u8], at: usize) -> Result<Form, LineError>
    requires { at ≤ length text.now }
    ensures { Gives (form_of verb.Link (length text.now) (left text.now at)) result }
{
    let (path, end) = next_any(text, at)?;
    let (pool, end) = next_any(text, end)?;
    no_more(text, end)?;
    let path = copied(alloc, path)?;
    let pool = copied(alloc, pool)?;
    Ok(Form::Link { path, pool })
}

pub(crate) fn begin(alloc: Global, text: &[u8], at: usize) -> Result<Form, LineError>
    requires { at ≤ length text.now }
    ensures { Gives (form_of verb.Begin (length text.now) (left text.now at)) result }
{
    let (path, end) = next_any(text, at)?;
    let from = maybe_from(text, end)?;
    let path = copied(alloc, path)?;
    Ok(Form::Begin { path, from })
}

pub(crate) fn put(alloc: Global, text: &[u8], at: usize) -> Result<Form, LineError>
    requires { at ≤ length text.now }
    ensures { Gives (form_of verb.Put (length text.now) (left text.now at)) result }
{
    let (kind, end) = next_kind(text, at)?;
    let (content, end) = next_content(text, end)?;
    no_more(text, end)?;
    let content = copied(alloc, content)?;
    Ok(Form::Put { kind, content })
}

pub(crate) fn set(alloc: Global, text: &[u8], at: usize) -> Result<Form, LineError>
    requires { at ≤ length text.now }
    ensures { Gives (form_of verb.Set (length text.now) (left text.now at)) result }
{
    let (name, end) = next_any(text, at)?;
    let (old, end) = next_old(text, end)?;
    let (new, end) = next_name(text, end)?;
    no_more(text, end)?;
    let name = copied(alloc, name)?;
    Ok(Form::Set { name, old, new })
}

pub(crate) fn verify(alloc: Global, text: &[u8], at: usize) -> Result<Form, LineError>
    requires { at ≤ length text.now }
    ensures { Gives (form_of verb.Verify (length text.now) (left text.now at)) result }
{
    let (name, end) = next_any(text, at)?;
    let (old, end) = next_old(text, end)?;
    no_more(text, end)?;
    let name = copied(alloc, name)?;
    Ok(Form::Verify { name, old })
}

pub(crate) fn list(alloc: Global, text: &[u8], at: usize) -> Result<Form, LineError>
    requires { at ≤ length text.now }
    ensures { Gives (form_of verb.List (length text.now) (left text.now at)) result }
{
    let prefix = maybe_prefix(text, at)?;
    let prefix = copied(alloc, prefix)?;
    Ok(Form::List { prefix })
}

pub(crate) fn cat(text: &[u8], at: usize) -> Result<Form, LineError>
    requires { at ≤ length text.now }
    ensures { Gives (form_of verb.Cat (length text.now) (left text.now at)) result }
{
    let (name, end) = next_name(text, at)?;
    no_more(text, end)?;
    Ok(Form::Cat { name })
}

pub(crate) fn house(alloc: Global, text: &[u8], at: usize) -> Result<Form, LineError>
    requires { at ≤ length text.now }
    ensures { Gives (form_of verb.House (length text.now) (left text.now at)) result }
{
    let (job, end) = next_job(text, at)?;
    let (path, end) = next_any(text, end)?;
    no_more(text, end)?;
    let path = copied(alloc, path)?;
    Ok(Form::House { job, path })
}

pub(crate) fn step(text: &[u8], at: usize) -> Result<Form, LineError>
    requires { at ≤ length text.now }
    ensures { Gives (form_of verb.Step (length text.now) (left text.now at)) result }
{
    let (n, end) = next_number(text, at, 1, 65_536)?;
    no_more(text, end)?;
    Ok(Form::Step { n: n as u32 })
}

pub(crate) fn apply(text: &[u8], at: usize) -> Result<Form, LineError>
    requires { at ≤ length text.now }
    ensures { Gives (form_of verb.Apply (length text.now) (left text.now at)) result }
{
    let (partition, end) = next_number(text, at, 1, 8)?;
    let (n, end) = next_number(text, end, 1, 16)?;
    no_more(text, end)?;
    Ok(Form::Apply {
        partition: partition as u8,
        n: n as u32,
    })
}

pub(crate) fn trim(text: &[u8], at: usize) -> Result<Form, LineError>
    requires { at ≤ length text.now }
    ensures { Gives (form_of verb.Trim (length text.now) (left text.now at)) result }
{
    let (partition, end) = next_number(text, at, 1, 8)?;
    no_more(text, end)?;
    Ok(Form::Trim {
        partition: partition as u8,
    })
}

pub(crate) fn sweep(text: &[u8], at: usize) -> Result<Form, LineError>
    requires { at ≤ length text.now }
    ensures { Gives (form_of verb.Sweep (length text.now) (left text.now at)) result }
{
    let (partition, end) = next_number(text, at, 1, 8)?;
    no_more(text, end)?;
    Ok(Form::Sweep {
        partition: partition as u8,
    })
}

pub(crate) fn commit(text: &[u8], at: usize) -> Result<Form, LineError>
    requires { at ≤ length text.now }
    ensures { Gives (form_of verb.Commit (length text.now) (left text.now at)) result }
{
    no_more(text, at)?;
    Ok(Form::Commit)
}

pub(crate) fn abort(text: &[u8], at: usize) -> Result<Form, LineError>
    requires { at ≤ length text.now }
    ensures { Gives (form_of verb.Abort (length text.now) (left text.now at)) result }
{
    no_more(text, at)?;
    Ok(Form::Abort)
}

pub(crate) fn close(text: &[u8], at: usize) -> Result<Form, LineError>
    requires { at ≤ length text.now }
    ensures { Gives (form_of verb.Close (length text.now) (left text.now at)) result }
{
    no_more(text, at)?;
    Ok(Form::Close)
}

pub(crate) fn restart(text: &[u8], at: usize) -> Result<Form, LineError>
    requires { at ≤ length text.now }
    ensures { Gives (form_of verb.Restart (length text.now) (left text.now at)) result }
{
    no_more(text, at)?;
    Ok(Form::Restart)
}
