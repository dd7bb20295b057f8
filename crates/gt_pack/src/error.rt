ghost use Rattle.std.specs.Prelude.{◌≡◌};
ghost use Rattle.gt_bytes.specs.declared.error.FieldError.{FieldError};
ghost use Rattle.gt_pack.specs.declared.error.PackError.TheVariants.{BadPack, Memory};

use gt_bytes::FieldError;

/// Why the bytes are no pack.
#[derive(Debug, Drop, PartialEq, Eq)]
pub enum PackError {
    /// The first field that can't be read, or has a value that may not stand there, begins at this place, counted in bytes
    /// from 0.
    BadPack { at: usize },
    /// Memory ran out.
    Memory,
}
