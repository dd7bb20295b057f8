ghost use Rattle.std.specs.Prelude.{◌≡◌, ◌≤◌, ◌<◌, ◌^◌, length, IfOk, IfErr, codes, nat_eq, ◌-◌, take, Ok, Err};
ghost use Rattle.gt_script.specs.Texts.{verb_of};
ghost use Rattle.gt_script.specs.Values.{number};
ghost use Rattle.gt_script.specs.Words.{value_first, words_of};
ghost use Rattle.gt_script.specs.Grammar.{form_of, made, in_session, request_in, without_feed, request_of};
ghost use Rattle.gt_script.specs.Answers.{left, Gives, Fails, FailsAt};

use crate::numbers::number;
use crate::readers::next_verb;
use crate::verb::Verb;
use crate::words::word_from;
use crate::{Form, LineError, Request, forms};
use std::alloc::Global;

/// The session, and its end.
fn first_session(text: &[u8]) -> Result<(u8, usize), LineError>
    ensures ok { IfOk result (λ x. (value_first (number 1 128) (length text.now) (words_of text.now) ≡ Ok (x.0, left text.now x.1)) × (x.1 ≤ length text.now)) }
    ensures err { IfErr result (λ e. FailsAt (value_first (number 1 128) (length text.now) (words_of text.now)) e) }
{
    let (word, end) = word_from(text, 0)?;
    match number(word, 1, 128) {
        Some(session) => Ok((session as u8, end)),
        None => Err(LineError::BadLine { at: 0 }),
    }
}

/// What stands behind this verb.
fn form_of(alloc: Global, verb: Verb, text: &[u8], at: usize) -> Result<Form, LineError>
    requires { at ≤ length text.now }
    ensures { Gives (form_of verb (length text.now) (left text.now at)) result }
{
    match verb {
        Verb::Create => forms::create(alloc, text, at),
        Verb::Pool => forms::pool(alloc, text, at),
        Verb::Delete => forms::delete(alloc, text, at),
        Verb::Link => forms::link(alloc, text, at),
        Verb::Begin => forms::begin(alloc, text, at),
        Verb::Put => forms::put(alloc, text, at),
        Verb::Set => forms::set(alloc, text, at),
        Verb::Verify => forms::verify(alloc, text, at),
        Verb::Get => forms::get(alloc, text, at),
        Verb::List => forms::list(alloc, text, at),
        Verb::Cat => forms::cat(text, at),
        Verb::Commit => forms::commit(text, at),
        Verb::Abort => forms::abort(text, at),
        Verb::House => forms::house(alloc, text, at),
        Verb::Step => forms::step(text, at),
        Verb::Close => forms::close(text, at),
        Verb::Apply => forms::apply(text, at),
        Verb::Trim => forms::trim(text, at),
        Verb::Sweep => forms::sweep(text, at),
        Verb::Restart => forms::restart(text, at),
    }
}

/// What the line asks for in this session, from behind its verb on.
#[tactic(auto, using(crate::proofs::MadeLemmas::made_fails))]
fn asked(
    alloc: Global,
    session: u8,
    verb: Verb,
    text: &[u8],
    at: usize,
) -> Result<Request, LineError>
    requires { at ≤ length text.now }
    ensures { Gives (made (in_session session) (form_of verb) (length text.now) (left text.now at)) result }
{
    match form_of(alloc, verb, text, at) {
        Ok(form) => Ok(Request { session, form }),
        Err(e) => Err(e),
    }
}

/// The request of a line without its line feed.
fn request_in(alloc: Global, text: &[u8]) -> Result<Request, LineError>
    ensures { Gives (request_in text.now) result }
{
    let (session, end) = first_session(text)?;
    let (verb, end) = next_verb(text, end)?;
    asked(alloc, session, verb, text, end)
}

/// The bad place of a line without a line feed: its end, if none before. Memory runs out only behind the words.
fn bad_without_feed(alloc: Global, line: &[u8]) -> usize
    ensures { without_feed line.now ≡ Err result }
{
    match request_in(alloc, line) {
        Ok(_) => line.len(),
        Err(LineError::BadLine { at }) => at,
        Err(LineError::Memory) => line.len(),
    }
}

/// Reads a line, which is given with its line feed.
///
/// A line is words with one space between each two, and a line feed. A word has one byte or more, and no space and no
/// line feed. The first word is the session, 1 to 128, the second a verb, and the rest is as each verb has it:
///
/// | Line after the session | Words |
/// |---|---|
/// | `create P`, `create P near Q` | P and Q any words |
/// | `pool P`, `delete P`, `link P Q` | |
/// | `begin P`, `begin P from n` | n a number to 4,294,967,295 |
/// | `put K C` | K one of `commit tree blob tag`, C an even number of hex digits, or `-` |
/// | `set R O N`, `verify R O` | R any word, N a name in 40 hex digits, O a name or `*` |
/// | `get R`, `list`, `list X`, `cat N` | X any word |
/// | `commit`, `abort`, `close`, `restart` | |
/// | `house J P` | J one of `repack prune refs unlink` |
/// | `step n` | n a number from 1 to 65,536 |
/// | `apply I n`, `trim I`, `sweep I` | I a number from 1 to 8, n one from 1 to 16 |
///
/// Numbers are decimal without leading zeros, and hex digits are lower case.
///
/// `BadLine` comes exactly where the line isn't of these, at the first bad place, in bytes from 0. A word that is wrong
/// there, empty, too many, or that has a line feed in it, is bad at its begin (an empty one where it would begin), and a
/// missing word at the line's length without its line feed. A missing line feed is bad at the line's length; it is looked
/// for behind the words. `Memory` is given only for a line that is good. Each byte is looked at a few times, whatever the
/// line, and a word that the request keeps is copied once.
#[tactic(auto, unfolding(crate::specs::Grammar::request_of))]
pub fn parse_line(alloc: Global, line: &[u8]) -> Result<Request, LineError>
    ensures ok { IfOk result (λ request. request_of line.now ≡ Ok request) }
    ensures err { IfErr result (λ e. Fails (request_of line.now) e) }
{
    if line.ends_with(b"\n") {
        let (text, _) = line.split_at(line.len() - 1);
        request_in(alloc, text)
    } else {
        Err(LineError::BadLine {
            at: bad_without_feed(alloc, line),
        })
    }
}
