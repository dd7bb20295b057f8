use gt_list::ListOf;
use gt_name::{RefName, RepoPath};

/// A reference with a file of its own.
#[derive(Drop)]
pub struct Loose {
    /// The reference.
    pub name: RefName,
    /// The number of the file that has its value.
    pub file: u64,
}

/// References with files of their own.
pub type LooseList = ListOf<Loose>;

/// Numbers of files.
pub type Numbers = ListOf<u64>;

/// The files of one repository.
#[derive(Drop)]
pub struct RepoFiles {
    /// The repository.
    pub path: RepoPath,
    /// Whether others may be members of it.
    pub is_pool: bool,
    /// The pool that it is a member of.
    pub pool: Option<RepoPath>,
    /// The packs with its objects.
    pub packs: Numbers,
    /// The file with its packed references; 0 where there is none.
    pub packed: u64,
    /// Its references with files of their own, which hide packed ones.
    pub loose: LooseList,
    /// The position of the last change that wrote its objects anew; 0 where there was none.
    pub repacked: u64,
    /// The position of the last change that packed its references; 0 where there was none.
    pub refs_packed: u64,
}

/// The files of all repositories.
pub type RepoList = ListOf<RepoFiles>;

/// Which files hold the content of a partition at a position of its log.
#[derive(Drop)]
pub struct Manifest {
    /// The number of this manifest.
    pub epoch: u64,
    /// The position of the last entry whose change the files have.
    pub applied: u64,
    /// A number above that of each file.
    pub next: u64,
    /// The repositories, ascending by path.
    pub repos: RepoList,
}
