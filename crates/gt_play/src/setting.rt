use gt_disk::Fault;
use gt_model::Limits;

/// How a script is played.
#[derive(Drop)]
pub struct Setting {
    /// Limits other than the usual.
    pub limits: Option<Limits>,
    /// The calls of the disk that fail.
    pub faults: Vec<Fault>,
    /// The reads of the input that fail.
    pub reads: Vec<u64>,
    /// The writes of the output that fail.
    pub writes: Vec<u64>,
    /// The calls of the host for a disk that fail.
    pub takes: Vec<u64>,
    /// How many lengths of files a disk that tells nothing gives, where that isn't each.
    pub lengths: Option<u64>,
}
