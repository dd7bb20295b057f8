//! What is printed of paths, references, updates and places.
use gt_model::{RefList, RefUpdate, RefUpdates};
use gt_name::{Paths, RepoPath};
use gt_objset::Place;
use row_words::{put, put_name, put_number};
use std::alloc::AllocError;

/// How many paths there are, and each.
pub(crate) fn put_paths(out: &mut Vec<u8>, paths: &Paths) -> Result<(), AllocError> {
    put_number(out, paths.len() as u64)?;
    for path in paths.as_slice() {
        put(out, path.bytes())?;
    }
    Ok(())
}

/// How many references there are, and the name and the value of each.
pub(crate) fn put_list(out: &mut Vec<u8>, list: &RefList) -> Result<(), AllocError> {
    put_number(out, list.len() as u64)?;
    for item in list.as_slice() {
        put(out, item.name.bytes())?;
        put_name(out, &item.value)?;
    }
    Ok(())
}

/// How many updates and checks there are, and each.
pub(crate) fn put_updates(out: &mut Vec<u8>, updates: &RefUpdates) -> Result<(), AllocError> {
    put_number(out, updates.len() as u64)?;
    for update in updates.as_slice() {
        put_update(out, update)?;
    }
    Ok(())
}

fn put_update(out: &mut Vec<u8>, update: &RefUpdate) -> Result<(), AllocError> {
    put(out, update.name.bytes())?;
    put_name(out, &update.old)?;
    match update.new {
        Some(new) => put_name(out, &new),
        None => put(out, b"-"),
    }
}

/// A path, or `none`.
pub(crate) fn put_path(out: &mut Vec<u8>, found: Option<&RepoPath>) -> Result<(), AllocError> {
    match found {
        Some(path) => put(out, path.bytes()),
        None => put(out, b"none"),
    }
}

/// The kind and the number of a file, and where in it a record stands: its first byte and its length.
pub(crate) fn put_place(out: &mut Vec<u8>, place: Option<Place>) -> Result<(), AllocError> {
    let Some(place) = place else {
        return put(out, b"none");
    };
    put_number(out, u64::from(place.file.kind))?;
    put_number(out, place.file.number)?;
    put_number(out, place.at)?;
    put_number(out, u64::from(place.len))
}
