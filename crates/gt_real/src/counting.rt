// An error of the system is a fault, and raises a count that stands still at its end.
ghost use Rattle.std.specs.Prelude.{◌≡◌, ◌≤◌, MatchResult, IsErr, Ok, Err};
ghost use Rattle.gt_disk.specs.Files.{Rose, HasCause, HasDiskCause};
ghost use Rattle.gt_disk.specs.declared.errors.DiskError.TheVariants.{Failed as DiskFailed};

use crate::trouble::Trouble;
use gt_disk::{DiskError, Failed};

/// Counts a fault.
pub(crate) fn count_fault(faults: &mut u64)
    ensures rose { Rose faults.old faults.new }
    ensures later { faults.old ≤ faults.new }
{
    *faults = faults.saturating_add(1);
}

/// Counts an error: what was answered stays, and no error is anything but a fault.
pub(crate) fn counted<T>(faults: &mut u64, answer: Result<T, Trouble>) -> Result<T, Failed>
    ensures same { MatchResult answer (λ value. result ≡ Ok value) (λ _. IsErr result) }
    ensures cause { HasCause faults.old faults.new result }
{
    let count = *faults;
    match answer {
        Ok(value) => Ok(value),
        Err(_) => {
            *faults = count.saturating_add(1);
            Err(Failed)
        }
    }
}

/// Counts an error of a call that changes a file.
pub(crate) fn counted_change(faults: &mut u64, answer: Result<(), Trouble>) -> Result<(), DiskError>
    ensures same { MatchResult answer (λ value. result ≡ Ok value) (λ _. result ≡ Err DiskFailed) }
    ensures cause { HasDiskCause faults.old faults.new result }
{
    match counted(faults, answer) {
        Ok(()) => Ok(()),
        Err(Failed) => Err(DiskError::Failed),
    }
}
