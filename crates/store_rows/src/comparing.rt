//! Each script is played over a disk in memory and over the same disk as one that tells nothing.
use crate::files::{files_of, left_at_end};
use gt_disk::{Disk, MemDisk, Stop};
use gt_play::{Ended, Setting, play, play_mute};
use std::alloc::Global;

/// Plays a script over two copies of a disk, and tells whether both ended alike. Where files are to be absent after so many
/// lengths, it is played over the disk that tells nothing alone.
pub(crate) fn play_twice(
    alloc: Global,
    disk: &MemDisk,
    setting: &Setting,
    words: &[&str],
    script: &[u8],
) -> Option<(Ended, bool)> {
    let copy = copied(alloc, disk, setting)?;
    let other = play_mute(alloc, copy, setting, words, script)?;
    if setting.lengths.is_some() {
        return Some((other, true));
    }
    let copy = copied(alloc, disk, setting)?;
    let ended = play(alloc, copy, setting, words, script)?;
    let is_alike = is_alike(alloc, &ended, &other);
    Some((ended, is_alike))
}

/// The disk once more, with its count of calls at 0, whose calls fail as they are to.
fn copied(alloc: Global, disk: &MemDisk, setting: &Setting) -> Option<MemDisk> {
    let mut copy = left_at_end(alloc, disk, Stop::Most)?;
    copy.fail(&setting.faults).ok()?;
    Some(copy)
}

fn is_alike(alloc: Global, one: &Ended, other: &Ended) -> bool {
    one.status == other.status
        && one.output == other.output
        && one.left == other.left
        && one.other == other.other
        && one.disk.tick() == other.disk.tick()
        && one.disk.faults() == other.disk.faults()
        && leave_alike(alloc, &one.disk, &other.disk)
}

/// Whether each kind of stop at the end leaves the same files of both: so each file was made to last on both, or on none.
fn leave_alike(alloc: Global, one: &MemDisk, other: &MemDisk) -> bool {
    for choice in [Stop::Least, Stop::Most, Stop::Junk] {
        if !leave_alike_by(alloc, one, other, choice) {
            return false;
        }
    }
    true
}

fn leave_alike_by(alloc: Global, one: &MemDisk, other: &MemDisk, choice: Stop) -> bool {
    let Some(mut one) = left_at_end(alloc, one, choice) else {
        return false;
    };
    let Some(mut other) = left_at_end(alloc, other, choice) else {
        return false;
    };
    let files = files_of(alloc, &mut one);
    files.is_some() && files == files_of(alloc, &mut other)
}
