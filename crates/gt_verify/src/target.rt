ghost use Rattle.std.specs.Prelude.{◌≡◌};
ghost use Rattle.gt_model.specs.Verdicts.{target};

use gt_model::RefUpdate;
use gt_name::Name;

/// What an update moves its reference to. None for a deletion and for a check.
pub(crate) fn target_of(update: &RefUpdate) -> Option<Name>
    ensures { result ≡ target update.now }
{
    match update.new {
        Some(new) => { if new == Name::ZERO { None } else { Some(new) } }
        None => None,
    }
}
