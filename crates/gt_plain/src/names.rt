ghost use Rattle.std.specs.Prelude.{◌≡◌};
ghost use Rattle.std.specs.List.{list_any};
ghost use Rattle.gt_model.specs.Verdicts.{same_name, is_under, clashes};

use gt_name::RefName;

/// Whether the longer name stands in the folder of the shorter one.
fn is_under(longer: &RefName, shorter: &RefName) -> bool
    ensures { result ≡ is_under longer.now shorter.now }
{
    match longer.bytes().strip_prefix(shorter.bytes()) {
        Some(rest) => rest.starts_with(b"/"),
        None => false,
    }
}

/// Whether one of the names stands in the other's folder.
pub(crate) fn clashes(one: &RefName, other: &RefName) -> bool
    ensures { result ≡ clashes one.now other.now }
{
    is_under(one, other) || is_under(other, one)
}

pub(crate) fn is_among(name: &RefName, names: &[RefName]) -> bool
    ensures { result ≡ list_any (same_name name.now) names.now }
{
    names.iter().any(|other| name == other)
}
