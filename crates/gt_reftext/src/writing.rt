ghost use Rattle.std.specs.Prelude.{◌≡◌, ◌++◌, ◌∷◌, [], not, IfOk, IfErr, OnOk, Ok};
ghost use Rattle.gt_reftext.specs.declared.error.RefTextError.TheVariants.{Memory};
ghost use Rattle.std.specs.List.{AllPass, flat_map};
ghost use Rattle.hex.specs.Hex.{encode_lower};
ghost use Rattle.gt_reftext.specs.Lines.{is_zero};
ghost use Rattle.gt_reftext.specs.Packed.{packed_of, Ascends};
ghost use Rattle.gt_reftext.specs.Spelling.{header, peeled_text, ref_text, packed_text};

use crate::{PackedList, PackedRef, RefTextError};
use gt_list::NoMemory;
use gt_name::Name;
use std::alloc::Global;

/// Appends a name's digits and a byte.
fn put_name(out: &mut Vec<u8>, name: &Name, end: u8) -> Result<(), NoMemory>
    ensures { OnOk result (out.new.items ≡ out.old.items ++ (encode_lower name.now ++ end ∷ [])) }
{
    out.extend_from_slice(&name.text())?;
    out.push(end)?;
    Ok(())
}

fn put_peeled(out: &mut Vec<u8>, peeled: &Option<Name>) -> Result<(), NoMemory>
    ensures { OnOk result (out.new.items ≡ out.old.items ++ peeled_text peeled.now) }
{
    match peeled {
        None => Ok(()),
        Some(name) => {
            out.push(b'^')?;
            put_name(out, name, b'\n')
        }
    }
}

fn put_ref(out: &mut Vec<u8>, it: &PackedRef) -> Result<(), NoMemory>
    ensures { OnOk result (out.new.items ≡ out.old.items ++ ref_text it.now) }
{
    put_name(out, &it.value, b' ')?;
    out.extend_from_slice(it.name.bytes())?;
    out.push(b'\n')?;
    put_peeled(out, &it.peeled)
}

/// The one spelling of references as a packed file: the line `# pack-refs with: peeled fully-peeled sorted ` (with the
/// space), and for each reference the line `<40 hex> SP <name>`, and after it, where it has a peeled name, `^<40 hex>`. The
/// only error is `Memory`.
pub fn write_packed(alloc: Global, list: &PackedList) -> Result<Vec<u8>, RefTextError>
    requires ascending { Ascends list.now }
    requires no_zero { AllPass (λ r. not (is_zero r.value)) list.now }
    ensures text { IfOk result (λ text. text.items ≡ packed_text list.now) }
    ensures err { IfErr result (λ e. e ≡ Memory) }
{
    let mut out = Vec::from_slice(alloc, b"# pack-refs with: peeled fully-peeled sorted \n")?;
    'refs: for it in list.as_slice() {
        put_ref(&mut out, it)?;
    }
    Ok(out)
}
