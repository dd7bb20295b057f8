//! The words that may be left out.
ghost use Rattle.std.specs.Prelude.{◌≡◌, ◌≤◌, length, codes, IfOk, IfErr, Ok, []};
ghost use Rattle.std.specs.Option.{option_copied};
ghost use Rattle.gt_script.specs.Values.{any, number};
ghost use Rattle.gt_script.specs.Grammar.{one, maybe, maybe_with};
ghost use Rattle.gt_script.specs.Answers.{left, FailsAt};

use crate::LineError;
use crate::readers::{next_any, next_number, next_only};
use crate::words::no_more;

/// `near` and a word, if a word stands there.
#[tactic(auto, using(crate::proofs::SplitLemmas::maybe_more))]
pub(crate) fn maybe_near(text: &[u8], at: usize) -> Result<Option<&[u8]>, LineError>
    requires { at ≤ length text.now }
    ensures ok { IfOk result (λ near. maybe_with (codes "near") any (length text.now) (left text.now at) ≡ Ok (option_copied near)) }
    ensures err { IfErr result (λ e. FailsAt (maybe_with (codes "near") any (length text.now) (left text.now at)) e) }
{
    if at == text.len() {
        return Ok(None);
    }
    let (_, end) = next_only(text, at, b"near")?;
    let (near, end) = next_any(text, end)?;
    no_more(text, end)?;
    Ok(Some(near))
}

/// `from` and a position, if a word stands there.
#[tactic(auto, using(crate::proofs::SplitLemmas::maybe_more))]
pub(crate) fn maybe_from(text: &[u8], at: usize) -> Result<Option<u64>, LineError>
    requires { at ≤ length text.now }
    ensures ok { IfOk result (λ from. maybe_with (codes "from") (number 0 4294967295) (length text.now) (left text.now at) ≡ Ok from) }
    ensures err { IfErr result (λ e. FailsAt (maybe_with (codes "from") (number 0 4294967295) (length text.now) (left text.now at)) e) }
{
    if at == text.len() {
        return Ok(None);
    }
    let (_, end) = next_only(text, at, b"from")?;
    let (from, end) = next_number(text, end, 0, 4_294_967_295)?;
    no_more(text, end)?;
    Ok(Some(from))
}

/// A word, or the empty one where none stands there.
#[tactic(auto, using(crate::proofs::SplitLemmas::maybe_more))]
pub(crate) fn maybe_prefix(text: &[u8], at: usize) -> Result<&[u8], LineError>
    requires { at ≤ length text.now }
    ensures ok { IfOk result (λ prefix. maybe [] (one any (λ w. w)) (length text.now) (left text.now at) ≡ Ok prefix.now) }
    ensures err { IfErr result (λ e. FailsAt (maybe [] (one any (λ w. w)) (length text.now) (left text.now at)) e) }
{
    if at == text.len() {
        return Ok(&[]);
    }
    let (prefix, end) = next_any(text, at)?;
    no_more(text, end)?;
    Ok(prefix)
}
