ghost use Rattle.std.specs.Prelude.{◌≤◌, length};
ghost use Rattle.std.specs.Int.{w16, w32, w64};
ghost use Rattle.gt_bytes.specs.Answers.{EndsWithin, TextWithin, Reads, ReadsText};
ghost use Rattle.gt_bytes.specs.Reading.{byte_at, number_at, name_at, text_at};

use crate::Short;

/// The byte at this place, and the place after it. `Short` exactly where no byte is left.
pub fn get_u8(from: &[u8], at: usize) -> Result<(u8, usize), Short>
    requires { at ≤ length from.now }
    ensures within { EndsWithin result (length from.now) }
    ensures value { Reads result (byte_at from.now at) }
{
    let (_, rest) = from.split_at(at);
    match rest {
        [] => Err(Short { at }),
        [byte, ..] => Ok((*byte, at + 1)),
    }
}

/// The big-endian number of the 2 bytes at this place, and the place after them. `Short` exactly where fewer are left.
pub fn get_u16(from: &[u8], at: usize) -> Result<(u16, usize), Short>
    requires { at ≤ length from.now }
    ensures within { EndsWithin result (length from.now) }
    ensures value { Reads result (number_at w16 from.now at) }
{
    let (_, rest) = from.split_at(at);
    if rest.len() < 2 {
        return Err(Short { at });
    }
    Ok((u16::from_be_bytes([rest[0], rest[1]]), at + 2))
}

/// The big-endian number of the 4 bytes at this place, and the place after them. `Short` exactly where fewer are left.
pub fn get_u32(from: &[u8], at: usize) -> Result<(u32, usize), Short>
    requires { at ≤ length from.now }
    ensures within { EndsWithin result (length from.now) }
    ensures value { Reads result (number_at w32 from.now at) }
{
    let (_, rest) = from.split_at(at);
    if rest.len() < 4 {
        return Err(Short { at });
    }
    let (front, _) = rest.split_at(4);
    Ok((
        u32::from_be_bytes([front[0], front[1], front[2], front[3]]),
        at + 4,
    ))
}

/// The big-endian number of the 8 bytes at this place, and the place after them. `Short` exactly where fewer are left.
pub fn get_u64(from: &[u8], at: usize) -> Result<(u64, usize), Short>
    requires { at ≤ length from.now }
    ensures within { EndsWithin result (length from.now) }
    ensures value { Reads result (number_at w64 from.now at) }
{
    let (_, rest) = from.split_at(at);
    if rest.len() < 8 {
        return Err(Short { at });
    }
    let (front, _) = rest.split_at(8);
    let number = u64::from_be_bytes([
        front[0], front[1], front[2], front[3], front[4], front[5], front[6], front[7],
    ]);
    Ok((number, at + 8))
}

/// The name of the 20 bytes at this place, and the place after them. `Short` exactly where fewer are left.
pub fn get_name(from: &[u8], at: usize) -> Result<([u8; 20], usize), Short>
    requires { at ≤ length from.now }
    ensures within { EndsWithin result (length from.now) }
    ensures value { Reads result (name_at from.now at) }
{
    let (_, rest) = from.split_at(at);
    if rest.len() < 20 {
        return Err(Short { at });
    }
    let (front, _) = rest.split_at(20);
    let mut name = [0; 20];
    name.copy_from_slice(front);
    Ok((name, at + 20))
}

/// Where the bytes of a text stand, begin and end, and the place after it. At this place stands the big-endian number
/// of 2 bytes that is the text's length in bytes. `Short`, at the begin of that number, exactly where fewer than 2 bytes
/// are left, or fewer after them than it says.
#[tactic(auto, unfolding(crate::specs::Reading::text_at))]
pub fn get_text(from: &[u8], at: usize) -> Result<((usize, usize), usize), Short>
    requires { at ≤ length from.now }
    ensures within { TextWithin result (length from.now) }
    ensures value { ReadsText from.now result (text_at from.now at) }
{
    let (len, begin) = match get_u16(from, at) {
        Ok(found) => found,
        Err(short) => return Err(short),
    };
    let len = len as usize;
    if from.len() - begin < len {
        return Err(Short { at });
    }
    Ok(((begin, begin + len), begin + len))
}
