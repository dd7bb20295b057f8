ghost use Rattle.std.specs.Prelude.{◌≡◌, not, is_some};
ghost use Rattle.std.specs.List.{list_all};
ghost use Rattle.gt_model.specs.Contents.{own, value_or_zero, finds_old, is_visible, fits};

use crate::PlainContent;
use gt_model::{Added, Change, Entry, RefUpdate};
use gt_name::{Name, RefName, RepoPath};

impl PlainContent {
    /// Whether an entry may come next: a created path isn't there yet, and any other is; a deleted pool has no member; a
    /// link is to a pool, of a repository that is none and has none; each old value is found, an added name isn't visible, a
    /// dropped one is the repository's own; what is unlinked has a pool.
    pub fn fits(&self, entry: &Entry) -> bool
        ensures { result ≡ fits self.now entry.now }
    {
        let path = &entry.path;
        match &entry.change {
            Change::Create { pool: _ } => !self.has_repo(path),
            Change::Delete => self.has_repo(path) && self.least_member(path).is_none(),
            Change::Link { pool } => self.has_repo(path)
                && self.is_pool(pool)
                && !self.is_pool(path)
                && self.pool_of(path).is_none(),
            Change::Write {
                refs,
                needed: _,
                added,
            } => self.has_repo(path)
                && self.finds_all_old(path, refs.as_slice())
                && self.sees_none(path, added.as_slice()),
            Change::Repack { file: _, dropped } => self.has_repo(path)
                && self.owns_all(path, dropped.as_slice()),
            Change::Prune { file: _, dropped } => self.has_repo(path)
                && self.owns_all(path, dropped.as_slice()),
            Change::PackRefs { file: _ } => self.has_repo(path),
            Change::Unlink { file: _ } => self.has_repo(path) && self.pool_of(path).is_some(),
        }
    }

    /// What a reference names, zero where it isn't there.
    pub(crate) fn value_or_zero(&self, path: &RepoPath, name: &RefName) -> Name
        ensures { result ≡ value_or_zero self.now path.now name.now }
    {
        self.value(path, name).unwrap_or(Name::ZERO)
    }

    /// Whether an update or a check finds its old value.
    pub(crate) fn finds_old(&self, path: &RepoPath, update: &RefUpdate) -> bool
        ensures { result ≡ finds_old self.now path.now update.now }
    {
        update.old == self.value_or_zero(path, &update.name)
    }

    fn finds_all_old(&self, path: &RepoPath, refs: &[RefUpdate]) -> bool
        ensures { result ≡ list_all (finds_old self.now path.now) refs.now }
    {
        refs.iter().all(|update| self.finds_old(path, update))
    }

    fn sees_none(&self, path: &RepoPath, added: &[Added]) -> bool
        ensures { result ≡ list_all (λ a. not (is_visible self.now path.now a.name)) added.now }
    {
        added
            .iter()
            .all(|record| !self.is_visible(path, &record.name))
    }

    fn owns_all(&self, path: &RepoPath, names: &[Name]) -> bool
        ensures { result ≡ list_all (λ n. is_some (own self.now path.now n)) names.now }
    {
        names.iter().all(|name| self.own(path, name).is_some())
    }
}
