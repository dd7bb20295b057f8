//! What is printed that the rows of other drivers haven't.
use gt_disk::FileId;
use itoa::Buffer;
use row_words::{put, put_number};
use std::alloc::AllocError;

pub(crate) fn put_field(out: &mut Vec<u8>, name: &[u8], number: u64) -> Result<(), AllocError> {
    put(out, name)?;
    put_number(out, number)
}

/// `|`, and each file once, its kind, `-` and its number, in order.
pub(crate) fn put_files(out: &mut Vec<u8>, files: &[FileId]) -> Result<(), AllocError> {
    put(out, b"|")?;
    let mut last = FileId { kind: 0, number: 0 };
    for file in files {
        if *file != last {
            put_file(out, *file)?;
        }
        last = *file;
    }
    Ok(())
}

fn put_file(out: &mut Vec<u8>, file: FileId) -> Result<(), AllocError> {
    let mut buffer = Buffer::new();
    put_number(out, file.kind as u64)?;
    out.push(b'-')?;
    out.extend_from_slice(buffer.format(file.number).as_bytes())
}
