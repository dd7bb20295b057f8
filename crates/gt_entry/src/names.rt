ghost use Rattle.std.specs.Prelude.{◌≡◌, ◌≤◌, ◌++◌, length, OnOk, OnErr};
ghost use Rattle.std.specs.List.{All};
ghost use Rattle.gt_bytes.specs.Answers.{Gives, Within};
ghost use Rattle.gt_bytes.specs.Spelling.{counted};
ghost use Rattle.gt_entry.specs.Fits.{IsCounted, IsName};
ghost use Rattle.gt_entry.specs.Reading.{above, ascending_at};
ghost use Rattle.gt_entry.specs.Spelling.{same};

use gt_bytes::{FieldError, Item, get_name, put_name, put_u32};
use gt_list::NoMemory;
use gt_name::{Name, law_name};
use std::alloc::Global;
use std::cmp::Ordering;

fn is_above(before: &[Name], name: &Name) -> bool
    ensures { result ≡ above same before.now name.now }
{
    match before.last() {
        None => true,
        Some(last) => matches!(last.cmp(name), Ordering::Less),
    }
}

/// Names of objects, ascending.
pub(crate) struct AscendingNames;

impl Item for AscendingNames {
    type Value = Name;

    ghost item_at = { ascending_at };

    #[tactic(auto, unfolding(crate::specs::Reading::ascending_at))]
    fn read(
        _alloc: Global,
        bytes: &[u8],
        before: &[Name],
        at: usize,
    ) -> Result<(Name, usize), FieldError> {
        let (found, next) = get_name(bytes, at)?;
        let name = Name(found);
        if !is_above(before, &name) {
            return Err(FieldError::BadField { at });
        }
        Ok((name, next))
    }

    ghost spell = { same };

    ghost may_put = { λ name. Unit {0} };

    fn put(out: &mut Vec<u8>, value: &Name) -> Result<(), NoMemory> {
        put_id(out, value)
    }
}

/// Appends the name of an object.
pub(crate) fn put_id(out: &mut Vec<u8>, name: &Name) -> Result<(), NoMemory>
    ensures spelled { OnOk result (out.new.items ≡ out.old.items ++ name.now) }
    ensures err { OnErr result (out.new.items ≡ out.old.items) }
    ensures typed { IsName name.now }
{
    law_name(name);
    put_name(out, &name.0)
}

/// Appends names of objects.
pub(crate) fn put_names(out: &mut Vec<u8>, names: &[Name]) -> Result<(), NoMemory>
    requires { IsCounted names.now }
    ensures spelled { OnOk result (out.new.items ≡ out.old.items ++ counted same names.now) }
    ensures typed { OnOk result (All IsName names.now) }
{
    put_u32(out, names.len() as u32)?;
    'names: for name in names {
        AscendingNames::put(out, name)?;
        law_name(name);
    }
    Ok(())
}
