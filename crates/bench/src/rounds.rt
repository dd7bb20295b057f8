use gt_object::{Kind, ObjectError, Record};
use sha1::Sha1;
use std::alloc::Global;
use std::io;
use std::rt::Runtime;
use std::time::Instant;

/// About so many bytes are worked on for each rate.
const BYTES: usize = 67_108_864;

/// What is measured.
#[derive(Clone, Copy)]
pub(crate) enum Work {
    /// SHA-1 of the content alone.
    Bare,
    /// Making the record of the content, and naming it.
    Name,
    /// Reading a record from its bytes.
    Read,
    /// That, and listing what it needs.
    Needs,
}

/// One round; the answer depends on the work.
fn once(
    alloc: Global,
    work: Work,
    kind: Kind,
    content: &[u8],
    whole: &[u8],
) -> Result<usize, ObjectError> {
    match work {
        Work::Bare => Ok(usize::from(Sha1::digest(content)[0])),
        Work::Name => {
            let record = Record::new(alloc, kind, content)?;
            Ok(usize::from(record.name().0[0]))
        }
        Work::Read => {
            let record = Record::parse(alloc, whole)?;
            Ok(record.content().len())
        }
        Work::Needs => {
            let record = Record::parse(alloc, whole)?;
            let names = record.deps(alloc)?;
            Ok(names.len())
        }
    }
}

/// Megabytes a second of this work on this content.
pub(crate) fn rate<R: Runtime>(
    rt: &R,
    alloc: Global,
    work: Work,
    kind: Kind,
    content: &mut Vec<u8>,
) -> io::Result<u64> {
    let Ok(record) = Record::new(alloc, kind, content) else {
        return Ok(0);
    };
    let rounds = (BYTES / content.len().max(1)).max(1);
    let mut sum = 0usize;
    let start = Instant::now(rt)?;
    for i in 0..rounds {
        // Another name in the last entry each time, so that no round is another's.
        if let Some(last) = content.last_mut() {
            *last = (i % 256) as u8;
        }
        match once(alloc, work, kind, content, record.bytes()) {
            Ok(found) => sum ^= found,
            Err(_) => return Ok(0),
        }
    }
    let nanos = u64::try_from(start.elapsed(rt)?.as_nanos()).unwrap_or(u64::MAX);
    // The sum is used, so that no round is left out.
    let done = (rounds as u64)
        .saturating_mul(content.len() as u64)
        .saturating_add((sum == usize::MAX) as u64);
    Ok(done.saturating_mul(1000).checked_div(nanos).unwrap_or(0))
}
