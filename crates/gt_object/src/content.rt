ghost use Rattle.std.specs.Prelude.{◌≡◌, ◌≤◌, length, IfSome};
ghost use Rattle.gt_object.specs.Grammar.{bad_content};

use crate::Kind;
use crate::lines::{bad_commit, bad_tag};
use crate::tree::bad_tree;

/// The first place where a content of this kind breaks, in bytes from its begin.
pub(crate) fn bad_content(kind: Kind, content: &[u8]) -> Option<usize>
    ensures value { result ≡ bad_content kind content.now }
    ensures within { IfSome result (λ at. at ≤ length content.now) }
{
    match kind {
        Kind::Blob => None,
        Kind::Tree => bad_tree(content),
        Kind::Commit => bad_commit(content),
        Kind::Tag => bad_tag(content),
    }
}
