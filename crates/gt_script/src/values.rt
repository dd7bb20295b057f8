//! What a word may be.
ghost use Rattle.std.specs.Prelude.{◌≡◌, ◌==◌, ◌%◌, ◌+◌, length, not, IsTrue};
ghost use Rattle.std.specs.List.{list_all};
ghost use Rattle.gt_name.specs.Digits.{is_other};
ghost use Rattle.gt_script.specs.Values.{name, old, is_content};

use gt_name::Name;

/// The name of an object, in 40 hex digits in lower case.
pub(crate) fn name_of(word: &[u8]) -> Option<Name>
    ensures { result ≡ name word.now }
{
    match Name::parse(word) {
        Ok(name) => Some(name),
        Err(_) => None,
    }
}

/// Such a name, or `*` for none.
pub(crate) fn old_of(word: &[u8]) -> Option<Option<Name>>
    ensures { result ≡ old word.now }
{
    if word == b"*".as_slice() {
        return Some(None);
    }
    match name_of(word) {
        Some(name) => Some(Some(name)),
        None => None,
    }
}

fn are_digits(word: &[u8]) -> bool
    ensures { result ≡ list_all (λ b. not (is_other b)) word.now }
{
    word.iter().all(|b| matches!(b, b'0'..=b'9' | b'a'..=b'f'))
}

/// An even number of hex digits in lower case, or `-` for no content.
pub(crate) fn is_content(word: &[u8]) -> bool
    ensures { result ≡ is_content word.now }
{
    word == b"-".as_slice() || (word.len() % 2 == 0 && are_digits(word))
}
