ghost use Rattle.std.specs.Prelude.{◌≡◌, [], not, find};
ghost use Rattle.std.specs.Option.{option_copied};
ghost use Rattle.gt_plain.specs.Plain.{staged};
ghost use Rattle.gt_model.specs.Verdicts.{target, is_staged, is_added, is_present};

use crate::PlainContent;
use gt_model::{Added, RefUpdate};
use gt_name::{Name, RepoPath};

/// What an update moves its reference to. None for a deletion and for a check.
pub(crate) fn target(update: &RefUpdate) -> Option<Name>
    ensures { result ≡ target update.now }
{
    match update.new {
        Some(new) => { if new == Name::ZERO { None } else { Some(new) } }
        None => None,
    }
}

fn is_staged(records: &[Added], name: &Name) -> bool
    ensures { result ≡ is_staged (staged [] records.now) name.now }
{
    records.iter().any(|item| item.name == *name)
}

/// Whether a record is staged under this name, which isn't visible.
pub(crate) fn is_added(
    content: &PlainContent,
    path: &RepoPath,
    records: &[Added],
    name: &Name,
) -> bool
    ensures { result ≡ is_added content.now path.now (staged [] records.now) name.now }
{
    is_staged(records, name) && !content.is_visible(path, name)
}

/// Whether an object will be there.
pub(crate) fn is_present(
    content: &PlainContent,
    path: &RepoPath,
    records: &[Added],
    name: &Name,
) -> bool
    ensures { result ≡ is_present content.now path.now (staged [] records.now) name.now }
{
    content.is_visible(path, name) || is_staged(records, name)
}

/// The first of these objects that won't be there.
pub(crate) fn first_missing<'a>(
    content: &PlainContent,
    path: &RepoPath,
    records: &[Added],
    names: &'a [Name],
) -> Option<&'a Name>
    ensures { option_copied result ≡ find (λ dep. not (is_present content.now path.now (staged [] records.now) dep)) names.now }
{
    names
        .iter()
        .find(|name| !is_present(content, path, records, name))
}
