ghost use Rattle.std.specs.Prelude.{◌≡◌, not};
ghost use Rattle.std.specs.List.{list_all};
ghost use Rattle.gt_model.specs.Contents.{fits, finds_old, is_visible, value_or_zero};
ghost use Rattle.gt_base.specs.Built.{IsBuilt};
ghost use Rattle.gt_table.specs.Table.{content};

use crate::Table;
use gt_model::{Added, Change, Entry, Look, RefUpdate};
use gt_name::{Name, RefName, RepoPath};

impl Table {
    /// Whether an entry of a kind that is built fits the content at the front.
    pub fn fits(&self, entry: &Entry) -> bool
        requires { IsBuilt entry.now }
        ensures { result ≡ fits (content self.now.past) entry.now }
    {
        match &entry.change {
            Change::Create { .. } => !self.has_repo(&entry.path),
            Change::Delete => {
                self.has_repo(&entry.path) && self.least_member(&entry.path).is_none()
            }
            Change::Write { refs, added, .. } => {
                self.has_repo(&entry.path)
                    && self.finds_old_values(&entry.path, refs.as_slice())
                    && self.lacks_all(&entry.path, added.as_slice())
            }
            _ => unreachable!(),
        }
    }

    /// Whether each update and check finds its old value.
    fn finds_old_values(&self, path: &RepoPath, refs: &[RefUpdate]) -> bool
        ensures { result ≡ list_all (finds_old (content self.now.past) path.now) refs.now }
    {
        refs.iter().all(|update| self.finds_old(path, update))
    }

    /// Whether an update or a check finds its old value.
    fn finds_old(&self, path: &RepoPath, update: &RefUpdate) -> bool
        ensures { result ≡ finds_old (content self.now.past) path.now update.now }
    {
        update.old == self.value_or_zero(path, &update.name)
    }

    /// What a reference names, zero where it isn't there.
    fn value_or_zero(&self, path: &RepoPath, name: &RefName) -> Name
        ensures { result ≡ value_or_zero (content self.now.past) path.now name.now }
    {
        self.value(path, name).unwrap_or(Name::ZERO)
    }

    /// Whether no added name is visible.
    fn lacks_all(&self, path: &RepoPath, added: &[Added]) -> bool
        ensures { result ≡ list_all (λ a. not (is_visible (content self.now.past) path.now a.name)) added.now }
    {
        added.iter().all(|record| !self.visible(path, &record.name))
    }
}
