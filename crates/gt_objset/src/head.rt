ghost use Rattle.std.specs.Prelude.{◌≡◌, true, false, None, IfOk};
ghost use Rattle.std.specs.Option.{option_copied};
ghost use Rattle.gt_objset.specs.Table.{head_change};

use gt_list::NoMemory;
use gt_model::Change;
use gt_name::RepoPath;

/// What an entry changes of a repository, but for its references and objects. None leaves it.
#[derive(Drop)]
pub struct HeadChange {
    /// It begins, or ends.
    pub life: Option<bool>,
    /// Whether it is a pool.
    pub kind: Option<Option<bool>>,
    /// The path of its pool, or none.
    pub pool: Option<Option<RepoPath>>,
}

impl HeadChange {
    /// Nothing changes.
    pub fn none() -> HeadChange
        ensures { result ≡ record { life = None; kind = None; pool = None } }
    {
        HeadChange {
            life: None,
            kind: None,
            pool: None,
        }
    }

    /// A repository that is there with this pool, or with none.
    pub fn seeds(is_pool: bool, pool: Option<&RepoPath>) -> Result<HeadChange, NoMemory>
        ensures { IfOk result (λ h. h ≡ record { life = Some true; kind = Some (Some is_pool); pool = Some (option_copied pool.entry) }) }
    {
        match copied(pool) {
            Ok(pool) => Ok(HeadChange {
                life: Some(true),
                kind: Some(Some(is_pool)),
                pool: Some(pool),
            }),
            Err(error) => Err(error),
        }
    }

    fn begins(pool: bool) -> HeadChange
        ensures { result ≡ record { life = Some true; kind = Some (Some pool); pool = None } }
    {
        HeadChange {
            life: Some(true),
            kind: Some(Some(pool)),
            pool: None,
        }
    }

    fn ends() -> HeadChange
        ensures { result ≡ record { life = Some false; kind = None; pool = None } }
    {
        HeadChange {
            life: Some(false),
            kind: None,
            pool: None,
        }
    }

    fn leaves() -> HeadChange
        ensures { result ≡ record { life = None; kind = None; pool = Some None } }
    {
        HeadChange {
            life: None,
            kind: None,
            pool: Some(None),
        }
    }

    fn joins(pool: &RepoPath) -> Result<HeadChange, NoMemory>
        ensures { IfOk result (λ h. h ≡ record { life = None; kind = None; pool = Some (Some pool.now) }) }
    {
        match pool.clone() {
            Ok(pool) => Ok(HeadChange {
                life: None,
                kind: None,
                pool: Some(Some(pool)),
            }),
            Err(_) => Err(NoMemory),
        }
    }
}

fn copied(path: Option<&RepoPath>) -> Result<Option<RepoPath>, NoMemory>
    ensures { IfOk result (λ copy. copy ≡ option_copied path.entry) }
{
    match path {
        None => Ok(None),
        Some(path) => match path.clone() {
            Ok(path) => Ok(Some(path)),
            Err(_) => Err(NoMemory),
        },
    }
}

/// What a change makes of a repository, but for its references and objects.
pub fn head_change(change: &Change) -> Result<HeadChange, NoMemory>
    ensures { IfOk result (λ h. h ≡ head_change change.now) }
{
    match change {
        Change::Create { pool } => Ok(HeadChange::begins(*pool)),
        Change::Delete => Ok(HeadChange::ends()),
        Change::Link { pool } => HeadChange::joins(pool),
        Change::Write { .. } => Ok(HeadChange::none()),
        Change::Repack { .. } => Ok(HeadChange::none()),
        Change::Prune { .. } => Ok(HeadChange::none()),
        Change::PackRefs { .. } => Ok(HeadChange::none()),
        Change::Unlink { .. } => Ok(HeadChange::leaves()),
    }
}
