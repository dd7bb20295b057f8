ghost use Rattle.std.specs.Prelude.{◌≤◌, IfOk, length};

use std::io;
use std::io::Read;

/// Reads until the buffer is full or the file ends, and gives the number of bytes.
pub(crate) fn fill<S: Read>(source: &mut S, into: &mut [u8]) -> io::Result<usize>
    ensures { IfOk result (λ count. count ≤ length into.new) }
{
    let mut count = 0;
    'pieces: while count < into.len() {
        match source.read(&mut into[count..]) {
            Ok(0) => return Ok(count),
            Ok(more) => count += more,
            Err(error) => return Err(error),
        }
    }
    Ok(count)
}
