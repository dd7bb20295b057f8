ghost use Rattle.std.specs.Prelude.{◌≡◌, find, if◌then◌else◌, None, IfOk};
ghost use Rattle.std.specs.List.{list_any};
ghost use Rattle.std.specs.Option.{option_copied, option_map};
ghost use Rattle.gt_model.specs.declared.refusal.Refusal.TheVariants.{PrunedObject};
ghost use Rattle.gt_model.specs.Contents.{pool_of, is_this};
ghost use Rattle.gt_model.specs.Verdicts.{same_name, first_some};
ghost use Rattle.gt_model.specs.Needed.{needed_by};
ghost use Rattle.gt_model.specs.Conflicts.{head, is_kin, is_prune, is_unlink, adds_some, is_change_in_way, is_in_way, pruned_by, job_conflict};

use gt_model::{Added, Change, Entry, Job, Refusal};
use gt_name::{Name, RepoPath};
use gt_plain::PlainContent;

/// A repository's pool, or itself where it has none.
pub fn head<'a>(content: &'a PlainContent, path: &'a RepoPath) -> &'a RepoPath
    ensures { result.now ≡ head content.now path.now }
{
    match content.pool_of(path) {
        Some(pool) => pool,
        None => path,
    }
}

/// Whether the second repository is of the first one's family.
pub fn is_kin(content: &PlainContent, path: &RepoPath, other: &RepoPath) -> bool
    ensures { result ≡ is_kin content.now path.now other.now }
{
    head(content, other) == head(content, path)
}

/// Whether a repository has this pool.
pub(crate) fn has_pool(content: &PlainContent, path: &RepoPath, pool: &RepoPath) -> bool
    ensures { result ≡ is_this (pool_of content.now path.now) pool.now }
{
    match content.pool_of(path) {
        Some(found) => found == pool,
        None => false,
    }
}

fn is_prune(job: Job) -> bool
    ensures { result ≡ is_prune job }
{
    match job {
        Job::Prune => true,
        Job::Repack => false,
        Job::PackRefs => false,
        Job::Unlink => false,
    }
}

fn is_unlink(job: Job) -> bool
    ensures { result ≡ is_unlink job }
{
    match job {
        Job::Unlink => true,
        Job::Repack => false,
        Job::Prune => false,
        Job::PackRefs => false,
    }
}

pub(crate) fn adds_some(added: &[Added]) -> bool
    ensures { result ≡ adds_some added.now }
{
    match added {
        [] => false,
        [..] => true,
    }
}

fn is_change_in_way(
    content: &PlainContent,
    path: &RepoPath,
    job: Job,
    other: &RepoPath,
    change: &Change,
) -> bool
    ensures { result ≡ is_change_in_way content.now path.now job other.now change.now }
{
    match change {
        Change::Create { pool: _ } => false,
        Change::Link { pool } => is_kin(content, path, other) || is_kin(content, path, pool),
        Change::Write {
            refs: _,
            needed: _,
            added,
        } => is_unlink(job) && adds_some(added.as_slice()) && has_pool(content, path, other),
        Change::Delete => is_kin(content, path, other),
        Change::Repack { .. } => is_kin(content, path, other),
        Change::Prune { .. } => is_kin(content, path, other),
        Change::PackRefs { .. } => is_kin(content, path, other),
        Change::Unlink { .. } => is_kin(content, path, other),
    }
}

fn is_in_way(content: &PlainContent, path: &RepoPath, job: Job, entry: &Entry) -> bool
    ensures { result ≡ is_in_way content.now path.now job entry.now }
{
    is_change_in_way(content, path, job, &entry.path, &entry.change)
}

/// The first entry in the way of a job.
fn first_in_way<'a>(
    content: &PlainContent,
    path: &RepoPath,
    job: Job,
    since: &'a [Entry],
) -> Option<&'a Entry>
    ensures { option_copied result ≡ find (is_in_way content.now path.now job) since.now }
{
    since
        .iter()
        .find(|entry| is_in_way(content, path, job, entry))
}

/// The names that a change says it relies on.
fn needed_by(change: &Change) -> &[Name]
    ensures { result.now ≡ needed_by change.now }
{
    match change {
        Change::Write {
            refs: _,
            needed,
            added: _,
        } => needed.as_slice(),
        Change::Create { .. } => &[],
        Change::Delete => &[],
        Change::Link { .. } => &[],
        Change::Repack { .. } => &[],
        Change::Prune { .. } => &[],
        Change::PackRefs { .. } => &[],
        Change::Unlink { .. } => &[],
    }
}

fn is_dropped(dropped: &[Name], name: &Name) -> bool
    ensures { result ≡ list_any (same_name name.now) dropped.now }
{
    dropped.iter().any(|other| name == other)
}

fn first_dropped<'a>(dropped: &[Name], names: &'a [Name]) -> Option<&'a Name>
    ensures { option_copied result ≡ find (λ n. list_any (same_name n) dropped.now) names.now }
{
    names.iter().find(|name| is_dropped(dropped, name))
}

/// The least dropped name on which an entry of the family relies.
fn pruned_by(
    content: &PlainContent,
    path: &RepoPath,
    dropped: &[Name],
    entry: &Entry,
) -> Option<Refusal>
    ensures { result ≡ pruned_by content.now path.now dropped.now entry.now }
{
    if !is_kin(content, path, &entry.path) {
        return None;
    }
    match first_dropped(dropped, needed_by(&entry.change)) {
        Some(name) => Some(Refusal::PrunedObject {
            name: *name,
            position: entry.position,
        }),
        None => None,
    }
}

/// The first entry of the family that relies on a dropped name.
fn first_pruned(
    content: &PlainContent,
    path: &RepoPath,
    dropped: &[Name],
    since: &[Entry],
) -> Option<Refusal>
    ensures { result ≡ first_some (pruned_by content.now path.now dropped.now) since.now }
{
    for entry in since {
        if let Some(refusal) = pruned_by(content, path, dropped, entry) {
            return Some(refusal);
        }
    }
    None
}

/// What refuses a job that drops these names, over the content that it read and the entries since.
pub fn job_conflict(
    content: &PlainContent,
    path: &RepoPath,
    job: Job,
    dropped: &[Name],
    since: &[Entry],
) -> Option<Refusal>
    ensures { result ≡ job_conflict content.now path.now job dropped.now since.now }
{
    if let Some(entry) = first_in_way(content, path, job, since) {
        return Some(Refusal::HousekeepingConflict {
            position: entry.position,
        });
    }
    if is_prune(job) {
        first_pruned(content, path, dropped, since)
    } else {
        None
    }
}
