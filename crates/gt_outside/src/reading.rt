ghost use Rattle.std.specs.Prelude.{◌≡◌, ◌≤◌, ◌<◌, ◌+◌, IfOk, IfSome, IsErrOf, length};
ghost use Rattle.std.specs.Io.KnownBytes.{Consumes};
ghost use Rattle.gt_outside.specs.Consumed.{ConsumesCount, ConsumesAtMost};
ghost use Rattle.gt_outside.specs.Reading.{HasReadCause};

use crate::Source;
use std::alloc::Global;

/// Why an input wasn't read whole.
#[derive(Clone, Copy, Debug, PartialEq, Eq)]
pub enum ReadError {
    /// The source failed.
    Failed,
    /// There are more bytes than the limit.
    TooLong,
    /// Memory ran out.
    Memory,
}

const PIECE: usize = 4096;

/// Reads to the end: all the bytes that are left, where they are at most `limit`.
/// `TooLong` comes exactly where they are more, and then one byte past the limit is read. None after it is ever read.
pub fn read_whole<S: Source>(
    alloc: Global,
    source: &mut S,
    limit: usize,
) -> Result<Vec<u8>, ReadError>
    ensures whole { IfOk result (λ bytes. IfSome (S.left source.old) (λ input. bytes.items ≡ input)) }
    ensures short { IfOk result (λ bytes. length bytes.items ≤ limit) }
    ensures long { IsErrOf result ReadError.TooLong → IfSome (S.left source.old) (λ input. limit < length input) }
    ensures taken { IfOk result (λ bytes. Consumes (S.left source.old) (S.left source.new) bytes.items) }
    ensures taken_long { IsErrOf result ReadError.TooLong →
        ConsumesCount (S.left source.old) (S.left source.new) (limit + 1) }
    ensures most { ConsumesAtMost (S.left source.old) (S.left source.new) (limit + 1) }
    ensures cause { HasReadCause (S.faults source.old) (S.faults source.new) result }
{
    let mut all = Vec::new(alloc);
    let mut piece = [0u8; PIECE];
    'pieces: while all.len() <= limit {
        // One byte past the limit at most.
        let most = (limit - all.len()).min(PIECE - 1) + 1;
        match source.read(&mut piece[..most]) {
            Err(_) => return Err(ReadError::Failed),
            Ok(0) => return Ok(all),
            Ok(count) => {
                if all.extend_from_slice(&piece[..count]).is_err() {
                    return Err(ReadError::Memory);
                }
            }
        }
    }
    Err(ReadError::TooLong)
}
