//! What stands at the floor.
use crate::asked::{Asked, asked_of};
use crate::bench::Bench;
use gt_disk::FileId;
use gt_list::NoMemory;
use gt_objset::{ObjSet, Place};
use gt_reftable::RefTable;
use row_words::{name_of, number, path_of, ref_of};
use std::alloc::Global;

/// `ref FLOOR PATH NAME VALUE`, `repo FLOOR PATH [POOL]`, `pool FLOOR PATH`, or `object FLOOR PATH NAME NUMBER`: a record of
/// ten bytes from byte 44 on in the file of an entry.
pub(crate) fn seed(alloc: Global, bench: &mut Bench, words: &str) -> &'static str {
    let Some((part, words)) = words.split_once(' ') else {
        return "bad row";
    };
    match asked_of(alloc, words) {
        Some(asked) => seed_part(alloc, bench, part, &asked),
        None => "bad row",
    }
}

fn seed_part(alloc: Global, bench: &mut Bench, part: &str, asked: &Asked) -> &'static str {
    match part {
        "ref" => seed_ref(alloc, &mut bench.refs, asked),
        "object" => seed_object(alloc, &mut bench.objects, asked),
        "repo" => seed_repo(alloc, &mut bench.objects, asked, false),
        _ => seed_repo(alloc, &mut bench.objects, asked, true),
    }
}

fn word_of(answer: Result<(), NoMemory>) -> &'static str {
    match answer {
        Ok(()) => "ok",
        Err(_) => "memory",
    }
}

fn seed_ref(alloc: Global, refs: &mut RefTable, asked: &Asked) -> &'static str {
    let Some((name, value)) = asked.word.split_once(' ') else {
        return "bad row";
    };
    let (Some(name), Some(value)) = (ref_of(alloc, name), name_of(value)) else {
        return "bad row";
    };
    if refs.front() != refs.floor() {
        return "not at the floor";
    }
    word_of(refs.seed(alloc, &asked.path, &name, value))
}

fn seed_repo(alloc: Global, objects: &mut ObjSet, asked: &Asked, is_pool: bool) -> &'static str {
    let pool = path_of(alloc, asked.word);
    if objects.front() != objects.floor() {
        return "not at the floor";
    }
    if objects.has_repo(objects.floor(), &asked.path) {
        return "there already";
    }
    word_of(objects.seed_repo(alloc, &asked.path, is_pool, pool.as_ref()))
}

fn seed_object(alloc: Global, objects: &mut ObjSet, asked: &Asked) -> &'static str {
    let Some((name, file)) = asked.word.split_once(' ') else {
        return "bad row";
    };
    let (Some(name), Some(number)) = (name_of(name), number(file)) else {
        return "bad row";
    };
    if objects.front() != objects.floor() {
        return "not at the floor";
    }
    if !objects.has_repo(objects.floor(), &asked.path) {
        return "no repository";
    }
    word_of(objects.seed(alloc, &asked.path, &name, place_in(number)))
}

fn place_in(number: u64) -> Place {
    Place {
        file: FileId { kind: 4, number },
        at: 44,
        len: 10,
    }
}
