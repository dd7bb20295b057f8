ghost use Rattle.std.specs.Prelude.{◌≡◌};
ghost use Rattle.gt_base.specs.Built.{is_built};

use gt_model::Change;

/// Whether entries of this kind are made and read: creations, deletions and writes.
pub fn is_built(change: &Change) -> bool
    ensures { result ≡ is_built change.now }
{
    matches!(
        change,
        Change::Create { .. } | Change::Delete | Change::Write { .. }
    )
}
