ghost use Rattle.std.specs.Prelude.{◌≡◌, ◌-◌, max, slice_index};
ghost use Rattle.gt_model.specs.Histories.{done_position, position};
ghost use Rattle.gt_session.specs.Courses.{later_of};
ghost use Rattle.gt_session.specs.Sessions.{IsPartition, heard};

use gt_model::{Answer, Done};

/// The position that is named by what was done, 0 where none is.
fn done_position(done: &Done) -> u64
    ensures { result ≡ done_position done.now }
{
    match done {
        Done::Created { position, .. } => *position,
        Done::Deleted { position } => *position,
        Done::Linked { position } => *position,
        Done::Begun { position } => *position,
        Done::Committed { position } => *position,
        Done::Finished { position } => *position,
        Done::HouseOpen { position } => *position,
        Done::HouseDone { position } => *position,
        Done::Applied { position } => *position,
        _ => 0,
    }
}

/// The greater one of a position that was seen and the one that an answer names.
fn later(seen: u64, answer: &Answer) -> u64
    ensures { result ≡ max seen (position answer.now) }
{
    match answer {
        Ok(done) => seen.max(done_position(done)),
        Err(_) => seen,
    }
}

/// The greatest position that was seen of a partition.
fn seen_of(seen: &[u64; 8], partition: u8) -> u64
    requires { IsPartition partition }
    ensures { result ≡ slice_index seen.now (partition - 1) }
{
    seen[partition as usize - 1]
}

/// The later of the greatest position that was seen of a partition and the one that a line names, if it names one.
pub(crate) fn seen_from(seen: &[u64; 8], partition: u8, from: Option<u64>) -> u64
    requires { IsPartition partition }
    ensures { result ≡ later_of (slice_index seen.now (partition - 1)) from }
{
    let seen = seen_of(seen, partition);
    match from {
        None => seen,
        Some(position) => seen.max(position),
    }
}

/// An answer of a partition was heard.
pub(crate) fn hear(seen: &mut [u64; 8], partition: u8, answer: &Answer)
    requires { IsPartition partition }
    ensures { seen.new ≡ heard seen.old partition answer.now }
{
    let at = partition as usize - 1;
    seen[at] = later(seen[at], answer);
}
