ghost use Rattle.std.specs.Prelude.{◌≡◌, ◌+◌, ◌≤◌, length, IfSome};
ghost use Rattle.gt_object.specs.Finds.{FindsLine};
ghost use Rattle.gt_object.specs.Lines.{line_at, commit_ids, more_parents, parent_ids, tag_ids, has_type};
ghost use Rattle.gt_object.specs.Grammar.{fault};

use gt_name::Name;

/// The name on the line that begins at this place: a word, 40 hex digits in lower case and a line feed.
#[tactic(auto, unfolding(crate::specs::Lines::line_at))]
pub(crate) fn line_at(word: &[u8], content: &[u8], at: usize) -> Option<Name>
    requires inside { at ≤ length content.now }
    requires short { length word.now ≤ 7 }
    ensures value { FindsLine word.now at result (line_at word.now content.now at) }
    ensures within { IfSome result (λ _. at + (length word.now + 41) ≤ length content.now) }
{
    let (_, rest) = content.split_at(at);
    if !rest.starts_with(word) {
        return None;
    }
    let width = word.len();
    if rest.len() < width + 41 {
        return None;
    }
    if rest[width + 40] != b'\n' {
        return None;
    }
    let (_, tail) = rest.split_at(width);
    let (digits, _) = tail.split_at(40);
    match Name::parse(digits) {
        Ok(name) => Some(name),
        Err(_) => None,
    }
}

/// Whether the next bytes are `parent `.
pub(crate) fn more_parents(content: &[u8], at: usize) -> bool
    requires { at ≤ length content.now }
    ensures { result ≡ more_parents content.now at }
{
    let (_, rest) = content.split_at(at);
    rest.starts_with(b"parent ")
}

/// The begin of the first bad parent line from this place on.
fn bad_parents(content: &[u8], from: usize) -> Option<usize>
    requires { from ≤ length content.now }
    ensures value { result ≡ fault (parent_ids content.now from) }
    ensures within { IfSome result (λ at. at ≤ length content.now) }
{
    let mut at = from;
    'parents: while more_parents(content, at) {
        match line_at(b"parent ", content, at) {
            None => return Some(at),
            Some(_) => at += 48,
        }
    }
    None
}

/// The begin of the first bad line of a commit.
#[tactic(auto, unfolding(crate::specs::Lines::commit_ids))]
pub(crate) fn bad_commit(content: &[u8]) -> Option<usize>
    ensures value { result ≡ fault (commit_ids content.now) }
    ensures within { IfSome result (λ at. at ≤ length content.now) }
{
    match line_at(b"tree ", content, 0) {
        None => Some(0),
        Some(_) => bad_parents(content, 46),
    }
}

/// Whether a line `type` with one of the four words begins the bytes.
fn has_type(rest: &[u8]) -> bool
    ensures { result ≡ has_type rest.now }
{
    (rest.starts_with(b"type commit\n") || rest.starts_with(b"type tree\n"))
        || (rest.starts_with(b"type blob\n") || rest.starts_with(b"type tag\n"))
}

/// The begin of the first bad line of a tag.
#[tactic(auto, unfolding(crate::specs::Lines::tag_ids))]
pub(crate) fn bad_tag(content: &[u8]) -> Option<usize>
    ensures value { result ≡ fault (tag_ids content.now) }
    ensures within { IfSome result (λ at. at ≤ length content.now) }
{
    match line_at(b"object ", content, 0) {
        None => Some(0),
        Some(_) => {
            let (_, rest) = content.split_at(48);
            if has_type(rest) { None } else { Some(48) }
        }
    }
}
