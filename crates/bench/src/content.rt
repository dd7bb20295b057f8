use std::alloc::{AllocError, Global};

/// The content of a tree with so many entries, each of 36 bytes: a mode, the number of the entry in 8 digits, and a name
/// that no other entry has.
pub(crate) fn tree_content(alloc: Global, entries: u32) -> Result<Vec<u8>, AllocError> {
    let mut out = Vec::new(alloc);
    for i in 0..entries {
        out.extend_from_slice(b"100644 ")?;
        for place in [10_000_000, 1_000_000, 100_000, 10_000, 1_000, 100, 10, 1] {
            out.push(b'0' + ((i / place) % 10) as u8)?;
        }
        out.push(0)?;
        // The later entries have the lesser names.
        out.extend_from_slice(&(u32::MAX - i).to_be_bytes())?;
        out.extend_from_slice(&[0x5a; 16])?;
    }
    Ok(out)
}
