// The name of a file in its folder: its kind and its number in decimal, as `3-17`.
use gt_disk::FileId;
use std::alloc::Global;
use std::io;

/// The path of a file in this folder.
pub(crate) fn path_of(alloc: Global, folder: &str, file: FileId) -> io::Result<String> {
    let FileId { kind, number } = file;
    Ok(format!(in alloc; "{folder}/{kind}-{number}")?)
}

/// The file of this name. Every name but those that `path_of` gives has none.
pub(crate) fn file_of(name: &str) -> Option<FileId> {
    let (kind, number) = name.split_once('-')?;
    let kind = u8::try_from(number_of(kind)?).ok()?;
    let number = number_of(number)?;
    Some(FileId { kind, number })
}

// A number in decimal without leading zeros.
fn number_of(text: &str) -> Option<u64> {
    let bytes = text.as_bytes();
    if !bytes.iter().all(|b| b.is_ascii_digit()) {
        return None;
    }
    if bytes.len() > 1 && bytes[0] == b'0' {
        return None;
    }
    text.parse::<u64>().ok()
}
