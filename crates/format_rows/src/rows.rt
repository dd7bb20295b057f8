//! Which kind a row is of. Each kind has a small function, since a long one is dear to prove.
use crate::{answers, entries, fields, manifests, names, packs, records, texts};
use gt_object::Kind;
use std::alloc::Global;
use std::io;

pub(crate) fn row(rt: &impl Print, alloc: Global, row: &str) -> io::Result<()> {
    match row.split_once(' ') {
        Some(("hex", value)) => hex_row(rt, alloc, value),
        Some(("line", value)) => texts::line_row(rt, alloc, value),
        Some(("answer", value)) => answers::answer_row(rt, alloc, value),
        Some(("order", value)) => names::order_row(rt, alloc, value),
        Some(("keys", value)) => names::keys_row(rt, alloc, value),
        Some(("build", value)) => packs::build_row(rt, alloc, value),
        Some(("zeros", value)) => records::zeros_row(rt, alloc, value),
        Some((kind, value)) => name_row(rt, alloc, kind, value.as_bytes()),
        None => println!(rt; "no value"),
    }
}

fn hex_row(rt: &impl Print, alloc: Global, value: &str) -> io::Result<()> {
    match value.split_once(' ') {
        Some((kind, digits)) => digits_row(rt, alloc, kind, digits),
        None => println!(rt; "no digits"),
    }
}

fn digits_row(rt: &impl Print, alloc: Global, kind: &str, digits: &str) -> io::Result<()> {
    match hex::decode(alloc, digits.trim_start_matches('-')) {
        Ok(bytes) => bytes_row(rt, alloc, kind, &bytes),
        Err(error) => println!(rt; "{error:?}"),
    }
}

fn bytes_row(rt: &impl Print, alloc: Global, kind: &str, bytes: &[u8]) -> io::Result<()> {
    match kind {
        "entry" => entries::entry_row(rt, alloc, bytes),
        "manifest" => manifests::manifest_row(rt, alloc, bytes),
        "pack" => packs::pack_row(rt, alloc, bytes),
        "packed" => texts::packed_row(rt, alloc, bytes),
        "loose" => texts::loose_row(rt, bytes),
        "line" => texts::request_row(rt, alloc, bytes),
        "fields" => fields::fields_row(rt, alloc, bytes),
        "list" => fields::list_row(rt, alloc, bytes),
        "room" => fields::room_row(rt, alloc, bytes),
        _ => record_row(rt, alloc, kind, bytes),
    }
}

fn record_row(rt: &impl Print, alloc: Global, kind: &str, bytes: &[u8]) -> io::Result<()> {
    match kind {
        "record" => records::whole_row(rt, alloc, bytes),
        "commit" => records::content_row(rt, alloc, Kind::Commit, bytes),
        "tree" => records::content_row(rt, alloc, Kind::Tree, bytes),
        "blob" => records::content_row(rt, alloc, Kind::Blob, bytes),
        "tag" => records::content_row(rt, alloc, Kind::Tag, bytes),
        _ => name_row(rt, alloc, kind, bytes),
    }
}

fn name_row(rt: &impl Print, alloc: Global, kind: &str, bytes: &[u8]) -> io::Result<()> {
    match kind {
        "ref" => names::ref_row(rt, alloc, bytes),
        "path" => names::path_row(rt, alloc, bytes),
        "name" => names::name_row(rt, bytes),
        "digest" => names::digest_row(rt, bytes),
        _ => println!(rt; "no such kind"),
    }
}
