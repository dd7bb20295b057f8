use crate::PlainContent;
use gt_model::Look;
use gt_name::{Name, Names2, RefName, RepoPath};

impl Look for PlainContent {
    ghost content = { λ c. c };

    fn has_repo(&self, path: &RepoPath) -> bool {
        PlainContent::has_repo(self, path)
    }

    fn value(&self, path: &RepoPath, name: &RefName) -> Option<Name> {
        PlainContent::value(self, path, name)
    }

    fn visible(&self, path: &RepoPath, name: &Name) -> bool {
        self.is_visible(path, name)
    }

    fn clash(&self, path: &RepoPath, name: &RefName, gone: &Names2) -> Option<&RefName> {
        match self.get(path) {
            Some(repo) => repo.refs().clash(name, gone.as_slice()),
            None => None,
        }
    }
}
