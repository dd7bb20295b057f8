ghost use Rattle.std.specs.Prelude.{◌≡◌, ◌+◌, ◌<◌, ◌≤◌, length, not, ◌==◌, position, IfSome};
ghost use Rattle.gt_object.specs.Trees.{is_octal, mode_len, name_len, entry_at, tree_entries};
ghost use Rattle.gt_object.specs.Grammar.{fault};
ghost use Rattle.gt_object.specs.Finds.{FindsEntry, is_submodule_text};

use gt_name::Name;

/// An entry that was found.
#[derive(Drop)]
pub(crate) struct Found {
    /// Its object is in another repository.
    pub submodule: bool,
    /// The name of its object.
    pub id: Name,
    /// The place after it.
    pub next: usize,
}

/// The first byte that is no octal digit.
fn first_no_digit(rest: &[u8]) -> Option<usize>
    ensures value { result ≡ position (λ b. not (is_octal b)) rest.now }
    ensures within { IfSome result (λ k. k < length rest.now) }
{
    rest.iter().position(|b| !matches!(b, b'0'..=b'7'))
}

/// The first NUL.
fn first_nul(rest: &[u8]) -> Option<usize>
    ensures value { result ≡ position (λ b. b == 0) rest.now }
    ensures within { IfSome result (λ k. k < length rest.now) }
{
    rest.iter().position(|b| *b == 0)
}

/// How many octal digits stand before the space, if they are 1 to 7.
#[tactic(auto, unfolding(crate::specs::Trees::mode_len))]
fn mode_len(rest: &[u8]) -> Option<usize>
    ensures value { result ≡ mode_len rest.now }
    ensures within { IfSome result (λ k. (0 < k) × (k ≤ 7) × (k < length rest.now)) }
{
    match first_no_digit(rest) {
        None => None,
        Some(k) => {
            if k > 0 && k <= 7 && rest[k] == b' ' {
                Some(k)
            } else {
                None
            }
        }
    }
}

/// How many bytes stand before the NUL, if they are some and 20 follow after it.
#[tactic(auto, unfolding(crate::specs::Trees::name_len))]
fn name_len(tail: &[u8]) -> Option<usize>
    ensures value { result ≡ name_len tail.now }
    ensures within { IfSome result (λ m. (0 < m) × (m + 21 ≤ length tail.now)) }
{
    match first_nul(tail) {
        None => None,
        Some(m) => {
            if m > 0 && tail.len() - m >= 21 {
                Some(m)
            } else {
                None
            }
        }
    }
}

/// Whether these digits are octal 160000, with or without a leading zero.
fn is_submodule(mode: &[u8]) -> bool
    ensures { result ≡ is_submodule_text mode.now }
{
    mode == b"160000".as_slice() || mode == b"0160000".as_slice()
}

/// The entry that begins at this place.
#[tactic(auto, unfolding(crate::specs::Trees::entry_at))]
pub(crate) fn entry_at(content: &[u8], at: usize) -> Option<Found>
    requires { at ≤ length content.now }
    ensures value { FindsEntry at result (entry_at content.now at) }
    ensures within { IfSome result (λ e. (at < e.next) × (e.next ≤ length content.now)) }
{
    let (_, rest) = content.split_at(at);
    let k = match mode_len(rest) {
        None => return None,
        Some(k) => k,
    };
    let (_, tail) = rest.split_at(k + 1);
    let m = match name_len(tail) {
        None => return None,
        Some(m) => m,
    };
    let (mode, _) = rest.split_at(k);
    let (_, after) = tail.split_at(m + 1);
    let (front, _) = after.split_at(20);
    let mut id = [0; 20];
    id.copy_from_slice(front);
    Some(Found {
        submodule: is_submodule(mode),
        id: Name(id),
        next: at + (k + m + 22),
    })
}

/// The begin of the first entry that breaks.
pub(crate) fn bad_tree(content: &[u8]) -> Option<usize>
    ensures value { result ≡ fault (tree_entries content.now) }
    ensures within { IfSome result (λ at. at ≤ length content.now) }
{
    let mut at = 0;
    'entries: while at < content.len() {
        match entry_at(content, at) {
            None => return Some(at),
            Some(found) => at = found.next,
        }
    }
    None
}
