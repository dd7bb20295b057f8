//! The table of objects.
ghost use Rattle.std.specs.Prelude.{◌≤◌};

use crate::asked::Asked;
use crate::shown::{put_path, put_paths, put_place};
use gt_list::NoMemory;
use gt_name::{Names, Paths};
use gt_objset::ObjSet;
use row_words::{name_of, put, put_is, put_names};
use std::alloc::{AllocError, Global};

/// `place`, `has`, `repo`, `own`, `names`, `members`, `member` or `paths`, at a position.
pub(crate) fn row(
    out: &mut Vec<u8>,
    alloc: Global,
    objects: &ObjSet,
    question: &str,
    asked: &Asked,
) -> Result<(), AllocError> {
    if asked.at < objects.floor() || objects.front() < asked.at {
        return put(out, b"no such position");
    }
    match question {
        "place" => place(out, objects, asked),
        "repo" => repo(out, objects, asked),
        "own" => put_some(out, objects.own(alloc, asked.at, &asked.path)),
        "names" => put_some(out, objects.names(alloc, asked.at, &asked.path)),
        "members" => put_all(out, objects.members(alloc, asked.at, &asked.path)),
        "member" => put_path(out, objects.least_member(asked.at, &asked.path)),
        "paths" => put_all(out, objects.paths(alloc, asked.at)),
        _ => put(out, b"no such question"),
    }
}

/// Whether an object is visible, and where its record stands.
fn place(out: &mut Vec<u8>, objects: &ObjSet, asked: &Asked) -> Result<(), AllocError>
    requires from { objects.now.floor ≤ asked.now.at }
    requires to { asked.now.at ≤ objects.now.front }
{
    match name_of(asked.word) {
        Some(name) => {
            put_is(out, objects.has(asked.at, &asked.path, &name))?;
            put_place(out, objects.place(asked.at, &asked.path, &name))
        }
        None => put(out, b"no such name"),
    }
}

/// Whether a repository is there, whether it is a pool, and the path of its pool.
fn repo(out: &mut Vec<u8>, objects: &ObjSet, asked: &Asked) -> Result<(), AllocError>
    requires from { objects.now.floor ≤ asked.now.at }
    requires to { asked.now.at ≤ objects.now.front }
{
    put_is(out, objects.has_repo(asked.at, &asked.path))?;
    put_is(out, objects.is_pool(asked.at, &asked.path))?;
    put_path(out, objects.pool(asked.at, &asked.path))
}

fn put_some(out: &mut Vec<u8>, names: Result<Names, NoMemory>) -> Result<(), AllocError> {
    match names {
        Ok(names) => put_names(out, &names),
        Err(_) => put(out, b"memory"),
    }
}

fn put_all(out: &mut Vec<u8>, paths: Result<Paths, NoMemory>) -> Result<(), AllocError> {
    match paths {
        Ok(paths) => put_paths(out, &paths),
        Err(_) => put(out, b"memory"),
    }
}
