ghost use Rattle.std.specs.Prelude.{OnOk, OnErr};
ghost use Rattle.gt_disk.specs.Files.{HasCause};
ghost use Rattle.gt_outside.specs.Written.{AppendsAll, AppendsFront};

use crate::Sink;
use gt_disk::Failed;

/// Writes all the bytes. After `Failed` any front of them may have been written.
pub fn write_whole<K: Sink>(sink: &mut K, bytes: &[u8]) -> Result<(), Failed>
    ensures all { OnOk result (AppendsAll (K.written sink.old) (K.written sink.new) bytes.now) }
    ensures part { OnErr result (AppendsFront (K.written sink.old) (K.written sink.new) bytes.now) }
    ensures cause { HasCause (K.faults sink.old) (K.faults sink.new) result }
{
    let mut at = 0;
    'pieces: while at < bytes.len() {
        match sink.write(&bytes[at..]) {
            Ok(count) => at += count,
            Err(failed) => return Err(failed),
        }
    }
    Ok(())
}
