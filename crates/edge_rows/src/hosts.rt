//! Folders of disks.
use gt_disk::{Disk, FileId};
use gt_outside::Host;
use gt_real::{FolderDisk, FolderHost};
use std::{fs, io};

const HOST: &str = "disks";

const MARK: FileId = FileId { kind: 1, number: 1 };

/// Takes a disk of a host, and the same one of another host meanwhile, and writes a file on it.
pub(crate) fn take_row(rt: &HostRuntime, number: u64) -> io::Result<()> {
    let number = u8::try_from(number).unwrap_or(u8::MAX);
    let mut host = FolderHost::new(rt.clone()?, String::from_str(rt.alloc(), HOST)?);
    match host.take(number) {
        Ok(mut disk) => {
            let is_taken_twice = is_taken(rt, number)?;
            marked(rt, &mut disk, number, is_taken_twice)
        }
        Err(_) => println!(rt; "not taken"),
    }
}

fn is_taken(rt: &HostRuntime, number: u8) -> io::Result<bool> {
    let mut host = FolderHost::new(rt.clone()?, String::from_str(rt.alloc(), HOST)?);
    Ok(host.take(number).is_ok())
}

/// Whether the file was there before, and what its folder has of it after.
fn marked(
    rt: &HostRuntime,
    disk: &mut FolderDisk<HostRuntime>,
    number: u8,
    is_taken_twice: bool,
) -> io::Result<()> {
    let before = disk.len(MARK);
    let written = disk.write(MARK, b"x");
    let path = format!(in rt.alloc(); "{HOST}/{number}/1-1")?;
    let text = fs::read_to_string(rt, path.as_str())?;
    println!(rt; "{is_taken_twice} {before:?} {written:?} {text}")
}
