//! The words of a text. A place in it is a word's end: the text ends there, or a space stands there, and the next word
//! begins behind that.
ghost use Rattle.std.specs.Prelude.{◌≡◌, ◌≤◌, ◌<◌, ◌+◌, ◌∷◌, [], ◌==◌, not, length, drop, take, Ok, Err, IfOk, IfErr, position};
ghost use Rattle.std.specs.List.{before_first, list_all, position_or_len};
ghost use Rattle.gt_script.specs.Words.{is_word, is_space, first, placed, split};
ghost use Rattle.gt_script.specs.Answers.{left, behind, FailsAt};
ghost use Rattle.gt_script.specs.Grammar.{no_word};

use crate::LineError;

fn first_space(text: &[u8]) -> Option<usize>
    ensures { result ≡ position is_space text.now }
{
    text.iter().position(|b| *b == b' ')
}

/// What stands before the first space, and what stands from there on.
fn cut(text: &[u8]) -> (&[u8], &[u8])
    ensures words { split text.now ≡ result.0.now ∷ behind result.1.now }
    ensures rest { result.1.now ≡ drop (length result.0.now) text.now }
    ensures long { length result.0.now + length result.1.now ≡ length text.now }
{
    let end = first_space(text).unwrap_or(text.len());
    text.split_at(end)
}

fn has_no_feed(word: &[u8]) -> bool
    ensures { result ≡ list_all (λ b. not (b == 10)) word.now }
{
    word.iter().all(|b| *b != b'\n')
}

fn is_word(word: &[u8]) -> bool
    ensures { result ≡ is_word word.now }
{
    !word.is_empty() && has_no_feed(word)
}

/// The word that begins here, and its end. A bad word is bad at its begin.
pub(crate) fn word_from(text: &[u8], begin: usize) -> Result<(&[u8], usize), LineError>
    requires { begin ≤ length text.now }
    ensures ok { IfOk result (λ x. (first (length text.now) (placed begin (split (drop begin text.now))) ≡ Ok (record { at = begin; word = x.0.now }, left text.now x.1)) × (x.1 ≤ length text.now)) }
    ensures err { IfErr result (λ e. FailsAt (first (length text.now) (placed begin (split (drop begin text.now)))) e) }
{
    let (_, rest) = text.split_at(begin);
    let (word, _) = cut(rest);
    if is_word(word) {
        Ok((word, begin + word.len()))
    } else {
        Err(LineError::BadLine { at: begin })
    }
}

/// The word behind this place, and its end. A missing word is bad at the text's end.
pub(crate) fn next_word(text: &[u8], at: usize) -> Result<(&[u8], usize), LineError>
    requires { at ≤ length text.now }
    ensures ok { IfOk result (λ x. (first (length text.now) (left text.now at) ≡ Ok (record { at = at + 1; word = x.0.now }, left text.now x.1)) × (x.1 ≤ length text.now)) }
    ensures err { IfErr result (λ e. FailsAt (first (length text.now) (left text.now at)) e) }
{
    if at == text.len() {
        Err(LineError::BadLine { at })
    } else {
        word_from(text, at + 1)
    }
}

/// The text ends at this place.
pub(crate) fn no_more(text: &[u8], at: usize) -> Result<(), LineError>
    requires { at ≤ length text.now }
    ensures ok { IfOk result (λ x. no_word (length text.now) (left text.now at) ≡ Ok x) }
    ensures err { IfErr result (λ e. FailsAt (no_word (length text.now) (left text.now at)) e) }
{
    if at == text.len() {
        Ok(())
    } else {
        Err(LineError::BadLine { at: at + 1 })
    }
}
