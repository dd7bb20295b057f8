// A call of the system that failed, for whoever runs the program: the call, the file and the system's own words.
ghost use Rattle.std.specs.Prelude.{◌≡◌, ◌≢◌, MatchResult, IsErrAnd, Ok, Err, Some, None};
ghost use Rattle.std.specs.IoError.{error_kind};
ghost use Rattle.std.specs.declared.io.ErrorKind.TheVariants.{NotFound};

use gt_disk::FileId;
use std::io;
use std::io::{Error, ErrorKind};

/// A failed call: its name, and the system's error.
#[derive(Drop)]
pub(crate) struct Trouble {
    pub(crate) call: &'static str,
    pub(crate) error: Error,
}

/// What the call of this name answered.
pub(crate) fn during<T>(call: &'static str, answer: io::Result<T>) -> Result<T, Trouble>
    ensures { MatchResult answer (λ value. result ≡ Ok value) (λ error. IsErrAnd result (λ trouble. trouble.error ≡ error)) }
{
    match answer {
        Ok(value) => Ok(value),
        Err(error) => Err(Trouble { call, error }),
    }
}

/// What the call of this name answered, where a file that isn't there is no error. Any other error stays one.
pub(crate) fn unless_absent<T>(
    call: &'static str,
    answer: io::Result<T>,
) -> Result<Option<T>, Trouble>
    ensures there { (value : T) → answer ≡ Ok value → result ≡ Ok (Some value) }
    ensures absent { (error : _) → answer ≡ Err error → error_kind error ≡ NotFound → result ≡ Ok None }
    ensures failed { (error : _) → answer ≡ Err error → error_kind error ≢ NotFound → IsErrAnd result (λ trouble. trouble.error ≡ error) }
{
    match answer {
        Ok(value) => Ok(Some(value)),
        Err(error) if error.kind() == ErrorKind::NotFound => Ok(None),
        Err(error) => Err(Trouble { call, error }),
    }
}

/// Tells whoever runs the program of a call on a file of this folder that failed.
pub(crate) fn tell_of_file<T>(
    rt: &impl Eprint,
    folder: &str,
    file: FileId,
    answer: &Result<T, Trouble>,
) {
    if let Err(trouble) = answer {
        let FileId { kind, number } = file;
        let _ = eprintln!(rt;
            "gitstore: {} {folder}/{kind}-{number}: {}",
            trouble.call, trouble.error
        );
    }
}

/// Tells whoever runs the program of a call on what has this name that failed.
pub(crate) fn tell<T>(rt: &impl Eprint, name: &str, answer: &Result<T, Trouble>) {
    if let Err(trouble) = answer {
        let _ = eprintln!(rt; "gitstore: {} {name}: {}", trouble.call, trouble.error);
    }
}
