ghost use Rattle.std.specs.Prelude.{◌≡◌, ◌≢◌, Ok, Err};
ghost use Rattle.std.specs.IoError.{error_kind};
ghost use Rattle.std.specs.declared.io.ErrorKind.TheVariants.{OutOfMemory};
ghost use Rattle.gt_prog.specs.declared.status.Status.{Status};
ghost use Rattle.gt_prog.specs.declared.status.Status.TheVariants.{Usage, Memory};

use gt_prog::Status;
use std::io;
use std::io::ErrorKind;

/// How the program ended: as the top call says. Where it wasn't called, memory ran out, or the words can't be read.
pub(crate) fn ended(answer: io::Result<Status>) -> Status
    ensures called { (status : Status) → answer ≡ Ok status → result ≡ status }
    ensures memory { (error : _) → answer ≡ Err error → error_kind error ≡ OutOfMemory → result ≡ Memory }
    ensures usage { (error : _) → answer ≡ Err error → error_kind error ≢ OutOfMemory → result ≡ Usage }
{
    match answer {
        Ok(status) => status,
        Err(error) if error.kind() == ErrorKind::OutOfMemory => Status::Memory,
        Err(_) => Status::Usage,
    }
}
