//! A script, played over one disk.
ghost use Rattle.std.specs.Prelude.{◌≡◌, ℕ, false};

use crate::hosting::{host_of, other_changed, taken};
use crate::replaying::replay;
use crate::{MuteHost, Setting};
use gt_disk::MemDisk;
use gt_outside::{Host, MemHost, MemSink, MemSource, read_whole};
use gt_prog::Status;
use std::alloc::Global;

/// A play that has ended.
#[derive(Drop)]
pub struct Ended {
    /// The disk as it was given back.
    pub disk: MemDisk,
    pub status: Status,
    pub output: Vec<u8>,
    /// How many bytes of the input weren't read. None where its next read fails.
    pub left: Option<usize>,
    /// Another disk that was changed or not given back.
    pub other: Option<u8>,
}

/// Plays a script over a disk, as the program would with these words. None where memory runs out.
pub fn play(
    alloc: Global,
    disk: MemDisk,
    setting: &Setting,
    words: &[&str],
    script: &[u8],
) -> Option<Ended> {
    let mut host = host_of(alloc, disk, &setting.takes)?;
    let mut source = MemSource::new(alloc, script, &setting.reads).ok()?;
    let mut sink = MemSink::new(alloc, &setting.writes).ok()?;
    let status = replay(
        alloc,
        words,
        setting.limits,
        &mut host,
        &mut source,
        &mut sink,
    );
    end_of(alloc, host, source, sink, status)
}

/// Plays a script over a disk that tells nothing. None where memory runs out.
pub fn play_mute(
    alloc: Global,
    disk: MemDisk,
    setting: &Setting,
    words: &[&str],
    script: &[u8],
) -> Option<Ended> {
    let mut host = MuteHost::new(
        host_of(alloc, disk, &setting.takes)?,
        setting.lengths.unwrap_or(u64::MAX),
    );
    let mut source = MemSource::new(alloc, script, &setting.reads).ok()?;
    let mut sink = MemSink::new(alloc, &setting.writes).ok()?;
    let status = replay(
        alloc,
        words,
        setting.limits,
        &mut host,
        &mut source,
        &mut sink,
    );
    end_of(alloc, host.into_inner(), source, sink, status)
}

fn end_of(
    alloc: Global,
    mut host: MemHost,
    mut source: MemSource,
    sink: MemSink,
    status: Status,
) -> Option<Ended>
    requires { (n : ℕ) → ⟦<MemHost as Host>⟧.is_out host n ≡ false }
{
    let other = other_changed(&host);
    let disk = taken(&mut host)?;
    let output = sink.bytes().to_vec(alloc).ok()?;
    let left = match read_whole(alloc, &mut source, usize::MAX) {
        Ok(bytes) => Some(bytes.len()),
        Err(_) => None,
    };
    Some(Ended {
        disk,
        status,
        output,
        left,
        other,
    })
}
