ghost use Rattle.gt_table.specs.Table.{content};

use crate::Table;
use gt_model::Look;
use gt_name::{Name, Names2, RefName, RepoPath};

/// The content at the front.
impl Look for Table {
    ghost content = { λ t. content t.past };

    fn has_repo(&self, path: &RepoPath) -> bool {
        Table::has_repo(self, path)
    }

    fn value(&self, path: &RepoPath, name: &RefName) -> Option<Name> {
        self.law_floor();
        self.value_at(self.front(), path, name)
    }

    fn visible(&self, path: &RepoPath, name: &Name) -> bool {
        self.law_floor();
        self.place_at(self.front(), path, name).is_some()
    }

    fn clash(&self, path: &RepoPath, name: &RefName, gone: &Names2) -> Option<&RefName> {
        self.clash_at_front(path, name, gone)
    }
}
