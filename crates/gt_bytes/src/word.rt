ghost use Rattle.std.specs.Prelude.{◌≤◌, length};
ghost use Rattle.gt_bytes.specs.Reading.{word_at};
ghost use Rattle.gt_bytes.specs.Answers.{EndsWithin, Reads};

use crate::Short;

/// The place after this word, where its bytes stand at this place, as at the begin of a file. `Short` exactly where they
/// don't.
pub fn read_word(word: &[u8], bytes: &[u8], at: usize) -> Result<((), usize), Short>
    requires { at ≤ length bytes.now }
    ensures within { EndsWithin result (length bytes.now) }
    ensures value { Reads result (word_at word.now bytes.now at) }
{
    let (_, rest) = bytes.split_at(at);
    if !rest.starts_with(word) {
        return Err(Short { at });
    }
    if rest.len() < word.len() {
        return Err(Short { at });
    }
    Ok(((), at + word.len()))
}
