ghost use Rattle.std.specs.Prelude.{◌<◌, ◌^◌, ◌↔◌, length, IsTrue, All};
ghost use Rattle.gt_apply.specs.Fitting.{IsShort};

use gt_manifest::{Manifest, RepoFiles};

const MAX_COUNT: usize = 4_294_967_295;

fn has_short_lists(repo: &RepoFiles) -> bool
    ensures { IsTrue result ↔ ((length repo.now.packs < 2 ^ 32) × (length repo.now.loose < 2 ^ 32)) }
{
    repo.packs.len() <= MAX_COUNT && repo.loose.len() <= MAX_COUNT
}

fn all_short(repos: &[RepoFiles]) -> bool
    ensures { IsTrue result ↔ All (λ r. (length r.packs < 2 ^ 32) × (length r.loose < 2 ^ 32)) repos.now }
{
    repos.iter().all(has_short_lists)
}

/// Whether the counts of a manifest's lists take 4 bytes.
pub fn is_short(manifest: &Manifest) -> bool
    ensures { IsTrue result ↔ IsShort manifest.now }
{
    manifest.repos.len() <= MAX_COUNT && all_short(manifest.repos.as_slice())
}
