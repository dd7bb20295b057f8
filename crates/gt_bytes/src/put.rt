ghost use Rattle.std.specs.Prelude.{◌≡◌, ◌<◌, ◌++◌, ◌∷◌, [], ◌^◌, length, OnOk, OnErr};
ghost use Rattle.std.specs.Int.{w16, w32, w64, to_be_bytes};
ghost use Rattle.gt_bytes.specs.Spelling.{text};

use gt_list::NoMemory;

/// Appends a byte.
pub fn put_u8(out: &mut Vec<u8>, value: u8) -> Result<(), NoMemory>
    ensures ok { OnOk result (out.new.items ≡ out.old.items ++ value ∷ []) }
    ensures err { OnErr result (out.new.items ≡ out.old.items) }
{
    out.push(value)?;
    Ok(())
}

/// Appends a number as 2 bytes, the highest first.
pub fn put_u16(out: &mut Vec<u8>, value: u16) -> Result<(), NoMemory>
    ensures ok { OnOk result (out.new.items ≡ out.old.items ++ to_be_bytes w16 value) }
    ensures err { OnErr result (out.new.items ≡ out.old.items) }
{
    out.extend_from_slice(&value.to_be_bytes())?;
    Ok(())
}

/// Appends a number as 4 bytes, the highest first.
pub fn put_u32(out: &mut Vec<u8>, value: u32) -> Result<(), NoMemory>
    ensures ok { OnOk result (out.new.items ≡ out.old.items ++ to_be_bytes w32 value) }
    ensures err { OnErr result (out.new.items ≡ out.old.items) }
{
    out.extend_from_slice(&value.to_be_bytes())?;
    Ok(())
}

/// Appends a number as 8 bytes, the highest first.
pub fn put_u64(out: &mut Vec<u8>, value: u64) -> Result<(), NoMemory>
    ensures ok { OnOk result (out.new.items ≡ out.old.items ++ to_be_bytes w64 value) }
    ensures err { OnErr result (out.new.items ≡ out.old.items) }
{
    out.extend_from_slice(&value.to_be_bytes())?;
    Ok(())
}

/// Appends the 20 bytes of a name.
pub fn put_name(out: &mut Vec<u8>, value: &[u8; 20]) -> Result<(), NoMemory>
    ensures ok { OnOk result (out.new.items ≡ out.old.items ++ value.now) }
    ensures err { OnErr result (out.new.items ≡ out.old.items) }
{
    out.extend_from_slice(value)?;
    Ok(())
}

/// Appends a text of at most 65,535 bytes: its length as a number of 2 bytes, and its bytes.
pub fn put_text(out: &mut Vec<u8>, value: &[u8]) -> Result<(), NoMemory>
    requires { length value.now < 2 ^ 16 }
    ensures ok { OnOk result (out.new.items ≡ out.old.items ++ text value.now) }
    ensures err { OnErr result (out.new.items ≡ out.old.items) }
{
    let before = out.len();
    put_u16(out, value.len() as u16)?;
    match out.extend_from_slice(value) {
        Ok(()) => Ok(()),
        Err(_) => {
            out.truncate(before);
            Err(NoMemory)
        }
    }
}
