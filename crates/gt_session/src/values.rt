ghost use Rattle.std.specs.Prelude.{◌≡◌};
ghost use Rattle.gt_session.specs.Courses.{old_in, value_of};

use gt_model::Done;
use gt_name::Name;

/// The value that was read, as an old value: zero where none was.
pub(crate) fn old_in(done: &Done) -> Name
    ensures { result ≡ old_in done.now }
{
    match done {
        Done::Value { value: Some(value) } => *value,
        _ => Name::ZERO,
    }
}

/// The value of a reference, None where it is zero.
pub(crate) fn value_of(value: Name) -> Option<Name>
    ensures { result ≡ value_of value }
{
    if value == Name::ZERO {
        None
    } else {
        Some(value)
    }
}
