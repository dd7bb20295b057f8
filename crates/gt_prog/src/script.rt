ghost use Rattle.std.specs.Prelude.{◌≡◌, ◌<◌, ◌≤◌, ◌^◌, ◌∷◌, ◌==◌, not, length, take, drop, position, IfOk, IfErr, OnOk, Ok, None};
ghost use Rattle.std.specs.List.{All};
ghost use Rattle.gt_script.specs.Grammar.{request_of};
ghost use Rattle.gt_prog.specs.Script.{HasSession, is_built, not_built, lines_of, requests_of, doable};
ghost use Rattle.gt_prog.specs.Parses.{Parses, IsPushed, IsBad, IsBadLine};

use gt_script::{Form, LineError, Request, parse_line};
use std::alloc::Global;

/// Why an input is no script that can be done.
#[derive(Clone, Copy, Debug, PartialEq, Eq)]
pub enum ScriptError {
    /// The first bad line, from 1, and the place in it, in bytes from 0.
    BadInput { line: u32, at: u64 },
    /// All lines are good, and this is the first of a form that isn't built, from 1.
    NotYet { line: u32 },
    /// Memory ran out.
    Memory,
}

/// Whether a line of this form is done.
fn is_built(form: &Form) -> bool
    ensures { result ≡ is_built form.now }
{
    matches!(
        form,
        Form::Create { near: None, .. }
            | Form::Delete { .. }
            | Form::Begin { .. }
            | Form::Put { .. }
            | Form::Set { .. }
            | Form::Verify { .. }
            | Form::Get { .. }
            | Form::List { .. }
            | Form::Cat { .. }
            | Form::Commit
            | Form::Abort
            | Form::Apply {
                partition: 1,
                n: 1..=16
            }
            | Form::Restart
    )
}

fn not_built_index(requests: &[Request]) -> Option<usize>
    ensures { result ≡ position (λ r. not (is_built r.form)) requests.now }
{
    requests.iter().position(|request| !is_built(&request.form))
}

/// The line of the first request that isn't of a built form, from 1.
fn first_not_built(requests: &[Request]) -> Option<u32>
    requires { length requests.now < 2 ^ 32 }
    ensures { result ≡ not_built requests.now }
{
    match not_built_index(requests) {
        None => None,
        Some(index) => Some(index as u32 + 1),
    }
}

fn line_feed(text: &[u8]) -> Option<usize>
    ensures { result ≡ position (λ b. b == 10) text.now }
{
    text.iter().position(|byte| *byte == b'\n')
}

/// The length of the first line, with its line feed; where there is none, of all.
fn line_len(text: &[u8]) -> usize
    requires { 0 < length text.now }
    ensures some { 0 < result }
    ensures within { result ≤ length text.now }
    ensures first { lines_of text.now ≡ take result text.now ∷ lines_of (drop result text.now) }
{
    match line_feed(text) {
        None => text.len(),
        Some(at) => at + 1,
    }
}

/// Adds the request of the line of this number.
fn push_request(
    alloc: Global,
    requests: &mut Vec<Request>,
    line: u32,
    text: &[u8],
) -> Result<(), ScriptError>
    ensures ok { OnOk result (IsPushed (request_of text.now) requests.old.items requests.new.items) }
    ensures err { IfErr result (IsBad (request_of text.now) line) }
{
    match parse_line(alloc, text) {
        Ok(request) => match requests.push(request) {
            Ok(()) => Ok(()),
            Err(_) => Err(ScriptError::Memory),
        },
        Err(LineError::BadLine { at }) => Err(ScriptError::BadInput {
            line,
            at: at as u64,
        }),
        Err(LineError::Memory) => Err(ScriptError::Memory),
    }
}

/// The requests of all lines, in one pass.
fn read_lines(alloc: Global, bytes: &[u8]) -> Result<Vec<Request>, ScriptError>
    requires { length bytes.now < 2 ^ 31 }
    ensures ok { IfOk result (λ requests. requests_of 1 (lines_of bytes.now) ≡ Ok requests.items) }
    ensures few { IfOk result (λ requests. length requests.items ≤ length bytes.now) }
    ensures err { IfErr result (IsBadLine (requests_of 1 (lines_of bytes.now))) }
{
    let mut requests = Vec::new(alloc);
    let mut line = 1;
    let mut rest = bytes;
    'lines: while !rest.is_empty() {
        let (text, after) = rest.split_at(line_len(rest));
        if let Err(error) = push_request(alloc, &mut requests, line, text) {
            return Err(error);
        }
        line += 1;
        rest = after;
    }
    Ok(requests)
}

/// The requests of an input, line by line: the request of the line n, from 1, has the index n - 1.
///
/// `BadInput` comes exactly where a line isn't of the language, at the first such line, and `NotYet` exactly where all
/// lines are, and one isn't of a built form.
pub(crate) fn parse_script(alloc: Global, bytes: &[u8]) -> Result<Vec<Request>, ScriptError>
    requires { length bytes.now < 2 ^ 31 }
    ensures script { Parses (doable (requests_of 1 (lines_of bytes.now))) result }
    ensures few { IfOk result (λ requests. length requests.items ≤ length bytes.now) }
    ensures built { IfOk result (λ requests. not_built requests.items ≡ None) }
    ensures sessions { IfOk result (λ requests. All HasSession requests.items) }
{
    let requests = match read_lines(alloc, bytes) {
        Ok(requests) => requests,
        Err(error) => return Err(error),
    };
    match first_not_built(&requests) {
        None => Ok(requests),
        Some(line) => Err(ScriptError::NotYet { line }),
    }
}
