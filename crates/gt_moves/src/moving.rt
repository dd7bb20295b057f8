// Moves, entry after entry and repository after repository.
ghost use Rattle.std.specs.Prelude.{◌≡◌, ◌+◌, ◌<◌, ◌^◌, ◌++◌, None, length, flat_map, map as map_list, IfOk, OnOk};
ghost use Rattle.gt_apply.specs.Steps.{seen};
ghost use Rattle.gt_model.specs.Batches.{files_of, files_at};
ghost use Rattle.gt_moves.specs.Moves.{moved, moves_by, moves_of, moves_in, moves_at, moves_all};
ghost use Rattle.gt_pack.specs.Index.{Rises};

use crate::finding::place_of;
use crate::laying::laid_out;
use crate::{Move, Moves};
use gt_apply::{Own, added_by, copied_path, count_files, repos_at};
use gt_list::NoMemory;
use gt_model::{Added, Entry};
use gt_name::RepoPath;
use gt_pack::Placed;
use std::alloc::Global;
use std::snapshot::Snapshot;

/// The move of a record that an entry added.
fn moved(number: u64, places: &[Placed], entry: &Entry, item: &Added) -> Result<Move, NoMemory>
    requires { Rises None places.now }
    ensures { IfOk result (λ m. m ≡ moved number places.now entry.now item.now) }
{
    let path = copied_path(&entry.path)?;
    Ok(Move {
        position: entry.position,
        path,
        name: item.name,
        place: place_of(number, places, &item.name),
        whole: Snapshot::of(&item.whole),
    })
}

fn add_records(
    moves: &mut Moves,
    number: u64,
    places: &[Placed],
    entry: &Entry,
    added: &[Added],
) -> Result<(), NoMemory>
    requires { Rises None places.now }
    ensures { OnOk result (moves.new ≡ moves.old ++ map_list (moved number places.now entry.now) added.now) }
{
    for item in added {
        moves.push(moved(number, places, entry, item)?)?;
    }
    Ok(())
}

fn add_entries(
    moves: &mut Moves,
    number: u64,
    places: &[Placed],
    own: &[&Entry],
) -> Result<(), NoMemory>
    requires { Rises None places.now }
    ensures { OnOk result (moves.new ≡ moves.old ++ flat_map (moves_by number places.now) (seen own.now)) }
{
    for entry in own {
        add_records(moves, number, places, entry, added_by(&entry.change))?;
    }
    Ok(())
}

/// Adds the moves of one repository, whose new files are numbered from here on, and gives the next free number.
fn add_repo(alloc: Global, moves: &mut Moves, number: u64, own: &[&Entry]) -> Result<u64, NoMemory>
    requires { number + length (files_of (seen own.now)) < 2 ^ 64 }
    ensures next { IfOk result (λ next. next ≡ number + length (files_of (seen own.now))) }
    ensures moves { OnOk result (moves.new ≡ moves.old ++ moves_of number (seen own.now)) }
{
    let places = laid_out(alloc, own)?;
    add_entries(moves, number, places.as_slice(), own)?;
    Ok(number + count_files(alloc, own)?)
}

/// Adds the moves of the repositories of a path, one after the other.
fn add_repos(
    alloc: Global,
    moves: &mut Moves,
    number: u64,
    repos: &[Own<'_>],
) -> Result<u64, NoMemory>
    requires { number + length (flat_map files_of (map_list seen repos.now)) < 2 ^ 64 }
    ensures next { IfOk result (λ next. next ≡ number + length (flat_map files_of (map_list seen repos.now))) }
    ensures moves { OnOk result (moves.new ≡ moves.old ++ moves_in number (map_list seen repos.now)) }
{
    let mut next = number;
    for own in repos {
        next = add_repo(alloc, moves, next, own.as_slice())?;
    }
    Ok(next)
}

fn add_path(
    alloc: Global,
    moves: &mut Moves,
    number: u64,
    entries: &[Entry],
    path: &RepoPath,
) -> Result<u64, NoMemory>
    requires { number + length (files_at path.now entries.now) < 2 ^ 64 }
    ensures next { IfOk result (λ next. next ≡ number + length (files_at path.now entries.now)) }
    ensures moves { OnOk result (moves.new ≡ moves.old ++ moves_at entries.now number path.now) }
{
    let repos = repos_at(alloc, path, entries)?;
    add_repos(alloc, moves, number, &repos)
}

/// Adds the moves of all entries, path after path.
pub(crate) fn add_paths(
    alloc: Global,
    moves: &mut Moves,
    number: u64,
    entries: &[Entry],
    paths: &[RepoPath],
) -> Result<u64, NoMemory>
    requires { number + length (flat_map (λ path. files_at path entries.now) paths.now) < 2 ^ 64 }
    ensures next { IfOk result (λ next. next ≡ number + length (flat_map (λ path. files_at path entries.now) paths.now)) }
    ensures moves { OnOk result (moves.new ≡ moves.old ++ moves_all entries.now number paths.now) }
{
    let mut next = number;
    for path in paths {
        next = add_path(alloc, moves, next, entries, path)?;
    }
    Ok(next)
}
