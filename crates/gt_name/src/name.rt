ghost use Rattle.std.specs.Prelude.{◌≡◌, IfOk, IfErr, Ok, Some, None, position, length};
ghost use Rattle.sha1.specs.Sha1.{sha1};
ghost use Rattle.hex.specs.Hex.{encode_lower, decode_of};
ghost use Rattle.gt_name.specs.Digits.{bad_name, is_other};

use crate::BadName;
use sha1::Sha1;
use std::marker::Model;

/// The name of an object: the SHA-1 of its record (FIPS 180-4), 20 bytes. Its order is that of its bytes.
#[derive(Clone, Copy, Debug, PartialEq, Eq, PartialOrd, Ord, Hash)]
pub struct Name(pub [u8; 20]);

impl Model for Name {
    ghost use Rattle.std.specs.Prelude.{List, ℕ};

    ghost Value = { List ℕ };

    ghost view = { λ n. n.0 };

    ghost inverse = { λ n. record { 0 = n } };
}

impl Name {
    /// No object: in an update it stands for no value.
    pub const ZERO: Name = Name([0; 20]);

    /// The SHA-1 of a record.
    pub fn of_record(whole: &[u8]) -> Name
        ensures { result ≡ sha1 whole.now }
    {
        Name(Sha1::digest(whole))
    }

    /// The 40 hex digits, in lower case.
    pub fn text(&self) -> [u8; 40]
        ensures digits { result ≡ encode_lower self.now }
        ensures parses { (bad_name result ≡ None) × (decode_of result ≡ Ok self.now) }
    {
        digits(&self.0)
    }

    /// Reads 40 hex digits in lower case. `BadName` has the first bad place: the first other byte among the first 40, else
    /// the shorter of the text's length and 40.
    pub fn parse(text: &[u8]) -> Result<Name, BadName>
        ensures ok { IfOk result (λ name. (bad_name text.now ≡ None) × (encode_lower name ≡ text.now) × (decode_of text.now ≡ Ok name)) }
        ensures err { IfErr result (λ e. bad_name text.now ≡ Some e.at) }
    {
        if let Some(at) = bad_place(text) {
            return Err(BadName { at });
        }
        let mut bytes = [0; 20];
        match hex::decode_to_slice(text, &mut bytes) {
            Ok(()) => Ok(Name(bytes)),
            Err(_) => unreachable!(),
        }
    }
}

/// The digits of 20 bytes.
fn digits(bytes: &[u8]) -> [u8; 40]
    requires { length bytes.now ≡ 20 }
    ensures digits { result ≡ encode_lower bytes.now }
    ensures parses { (bad_name result ≡ None) × (decode_of result ≡ Ok bytes.now) }
{
    let mut out = [0; 40];
    let _ = hex::encode_to_slice(bytes, &mut out);
    out
}

fn bad_digit(text: &[u8]) -> Option<usize>
    ensures { result ≡ position is_other text.now }
{
    text.iter()
        .position(|b| !matches!(b, b'0'..=b'9' | b'a'..=b'f'))
}

fn bad_place(text: &[u8]) -> Option<usize>
    ensures { result ≡ bad_name text.now }
{
    let end = text.len().min(40);
    match bad_digit(&text[..end]) {
        Some(at) => Some(at),
        None => { if text.len() == 40 { None } else { Some(end) } }
    }
}
