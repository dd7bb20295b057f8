use gt_disk::FileId;
use gt_model::{Answer, Done, Refusal};
use gt_name::Name;

/// How an event ended whose answer takes no memory.
#[derive(Clone, Copy, Debug, PartialEq, Eq)]
pub enum Ended {
    Created { position: u64, pool: bool },
    Deleted { position: u64 },
    Begun { position: u64 },
    Committed { position: u64 },
    Finished { position: u64 },
    Applied { position: u64 },
    Value { value: Option<Name> },
    Aborted,
    NoRepository,
    RepositoryExists,
    Behind { seen: u64, front: u64 },
    PinsFull,
    Absent { name: Name },
    LogFull,
    EpochFull,
    DeviceFault,
    Unsure { position: u64 },
    Damaged { file: FileId, at: u64 },
    Memory,
}

impl Ended {
    ghost use Rattle.std.specs.Prelude.{◌≡◌};
    ghost use Rattle.gt_act.specs.Ended.{answer_of};

    pub fn answer(self) -> Answer
        ensures { result ≡ answer_of self }
    {
        match self {
            Ended::Created { position, pool } => Ok(Done::Created { position, pool }),
            Ended::Deleted { position } => Ok(Done::Deleted { position }),
            Ended::Begun { position } => Ok(Done::Begun { position }),
            Ended::Committed { position } => Ok(Done::Committed { position }),
            Ended::Finished { position } => Ok(Done::Finished { position }),
            Ended::Applied { position } => Ok(Done::Applied { position }),
            Ended::Value { value } => Ok(Done::Value { value }),
            Ended::Aborted => Ok(Done::Aborted),
            Ended::NoRepository => Err(Refusal::NoRepository),
            Ended::RepositoryExists => Err(Refusal::RepositoryExists),
            Ended::Behind { seen, front } => Err(Refusal::Behind { seen, front }),
            Ended::PinsFull => Err(Refusal::PinsFull),
            Ended::Absent { name } => Err(Refusal::Absent { name }),
            Ended::LogFull => Err(Refusal::LogFull),
            Ended::EpochFull => Err(Refusal::EpochFull),
            Ended::DeviceFault => Err(Refusal::DeviceFault),
            Ended::Unsure { position } => Err(Refusal::Unsure { position }),
            Ended::Damaged { file, at } => Err(Refusal::Damaged { file, at }),
            Ended::Memory => Err(Refusal::Memory),
        }
    }
}
