// What only positions before a new floor needed goes.
ghost use Rattle.std.specs.Prelude.{◌≡◌};
ghost use Rattle.std.specs.BTreeMap as tree;
ghost use Rattle.gt_model.specs.Contents.{key_cmp};
ghost use Rattle.gt_objset.specs.Raised.{RaisesValues, RaisesSlots, RaisesTrack, RaisesRepos, has_versions};

use crate::Place;
use crate::repo::RepoObjects;
use crate::repos::Repos;
use crate::slots::PlaceVersions;
use gt_versions::Versions;

/// Drops what only earlier positions needed of each repository, and each repository that isn't there from this position on.
pub fn raise_repos(repos: &mut Repos, to: u64)
    ensures { RaisesRepos to (λ x. tree.get key_cmp repos.old x) (λ x. tree.get key_cmp repos.new x) }
{
    repos.retain(move |_, repo| raise_repo(repo, to));
}

/// Drops what only earlier positions needed of each object, and each object that has no place from this position on. The
/// repository is there at this position since `life`.
pub fn raise_slots(slots: &mut PlaceVersions, life: Option<u64>, to: u64)
    ensures { RaisesSlots life to (λ x. tree.get key_cmp slots.old x) (λ x. tree.get key_cmp slots.new x) }
{
    slots.retain(move |_, versions| raise_slot(versions, life, to));
}

/// Drops what only earlier positions needed of one key, of a repository that is there at this position since `life`.
pub fn raise_since<V: Drop>(versions: &mut Versions<Option<V>>, life: Option<u64>, to: u64)
    ensures { RaisesValues life to versions.old versions.new }
{
    versions.law_order();
    match life {
        None => versions.drop_up_to(to),
        Some(start) => versions.raise_values(start, to),
    }
}

fn raise_slot(versions: &mut Versions<Option<Place>>, life: Option<u64>, to: u64) -> bool
    ensures raised { RaisesValues life to versions.old versions.new }
    ensures stays { result ≡ has_versions versions.new.0 }
{
    raise_since(versions, life, to);
    !versions.is_empty()
}

fn raise_repo(repo: &mut RepoObjects, to: u64) -> bool
    ensures raised { RaisesTrack to repo.old repo.new }
    ensures stays { result ≡ has_versions repo.new.lives.0 }
{
    repo.raise(to);
    repo.was_there()
}
