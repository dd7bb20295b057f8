ghost use Rattle.std.specs.Prelude.{◌≡◌, IfOk, Ok};
ghost use Rattle.gt_manifest.specs.Spelling.{manifest};
ghost use Rattle.gt_manifest.specs.Reading.{front_at};
ghost use Rattle.gt_manifest.specs.Answers.{Reads, MemoryAfter};
ghost use Rattle.gt_manifest.specs.declared.version.Version.{Version};
ghost use Rattle.gt_manifest.specs.declared.version.Version.TheVariants.{Second};
ghost use Rattle.gt_manifest.specs.declared.manifest.Manifest.{Manifest};
ghost use Rattle.gt_manifest.specs.Whole.{manifest_of, Fits, IsSpelledBy};

use crate::reading::read_fields;
use crate::whole::whole;
use crate::{Manifest, ManifestError};
use std::alloc::Global;

fn read_manifest(alloc: Global, bytes: &[u8]) -> Result<Manifest, ManifestError>
    ensures value { Reads result (manifest_of bytes.now) }
    ensures memory { MemoryAfter result (front_at bytes.now 0) }
{
    let (version, found) = read_fields(alloc, bytes)?;
    whole(alloc, version, &found)?;
    Ok(found)
}

impl Manifest {
    /// The manifest that the bytes spell, in either spelling.
    ///
    /// `BadManifest` has the place of the first field that may not stand there, in bytes from 0. A field that is cut, has a
    /// wrong magic, a wrong order, a repeated path or reference, or a value out of range is refused at its begin, and bytes
    /// behind the last field where they begin. If there is none of these, a file number that stands twice or isn't from 1
    /// to `next - 1`, the pool of a pool, and a pool that isn't in the list or isn't a pool are refused at the begin of
    /// that field. `Memory` is given only where memory ran out, behind a good head and the good path of
    /// a first repository.
    pub fn decode(alloc: Global, bytes: &[u8]) -> Result<Manifest, ManifestError>
        // What is read is spelled so.
        ensures found { IfOk result (IsSpelledBy bytes.now) }
        // It may be written.
        ensures fits { IfOk result (Fits Second) }
        // What is spelled so is read, unless memory runs out.
        ensures only { (v : Version) (m : Manifest) → Fits v m → bytes.now ≡ manifest v m → Reads result (Ok m) }
        // Else the first field that may not stand there.
        ensures exact { Reads result (manifest_of bytes.now) }
        // No memory is wanted before the path of a first repository is read.
        ensures memory { MemoryAfter result (front_at bytes.now 0) }
    {
        read_manifest(alloc, bytes)
    }
}
