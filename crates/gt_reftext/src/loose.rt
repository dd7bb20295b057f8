ghost use Rattle.std.specs.Prelude.{◌≡◌, ◌≢◌, ℕ, List, ◌++◌, IfOk, IfErr, MatchResult, Ok, Err, length};
ghost use Rattle.gt_reftext.specs.Loose.{loose, value_of, IsLoose};

use crate::BadLine;
use gt_name::Name;

/// Reads a loose file: 40 hex digits in lower case and a line feed, 41 bytes. `BadLine`, with line 1, exactly where the
/// bytes are no such file.
#[tactic(auto, unfolding(crate::specs::Loose::value_of))]
pub fn read_loose(bytes: &[u8]) -> Result<Name, BadLine>
    // What is read is spelled so.
    ensures found { IfOk result (λ name. bytes.now ≡ loose name) }
    ensures good { IfOk result (λ _. IsLoose bytes.now) }
    // What is a loose file is read.
    ensures err { IfErr result (λ e. (e.line ≡ 1) × ¬ IsLoose bytes.now) }
    // It is the value that the file has.
    ensures exact { MatchResult result (λ name. value_of bytes.now ≡ Ok name) (λ _. value_of bytes.now ≡ Err 0) }
{
    let bad = BadLine { line: 1 };
    if bytes.len() != 41 {
        return Err(bad);
    }
    if bytes[40] != b'\n' {
        return Err(bad);
    }
    let (digits, _) = bytes.split_at(40);
    match Name::parse(digits) {
        Ok(name) => Ok(name),
        Err(_) => Err(bad),
    }
}

/// The loose file of a value: its 40 hex digits in lower case and a line feed.
pub fn write_loose(value: Name) -> [u8; 41]
    ensures text { result ≡ loose value }
    ensures reads_back { IsLoose result }
{
    let mut out = [b'\n'; 41];
    out[..40].copy_from_slice(&value.text());
    out
}
