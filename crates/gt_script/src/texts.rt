ghost use Rattle.std.specs.Prelude.{◌≡◌};
ghost use Rattle.gt_script.specs.Texts.{kind_of, job_text, job_of};

use gt_model::Job;
use gt_object::Kind;

const KINDS: [Kind; 4] = [Kind::Commit, Kind::Tree, Kind::Blob, Kind::Tag];

const JOBS: [Job; 4] = [Job::Repack, Job::Prune, Job::PackRefs, Job::Unlink];

fn job_text(job: Job) -> &'static [u8]
    ensures { result.now ≡ job_text job }
{
    match job {
        Job::Repack => b"repack",
        Job::Prune => b"prune",
        Job::PackRefs => b"refs",
        Job::Unlink => b"unlink",
    }
}

/// The kind of this text.
#[tactic(auto, unfolding(crate::specs::Texts::kind_of))]
pub(crate) fn kind_of(word: &[u8]) -> Option<Kind>
    ensures { result ≡ kind_of word.now }
{
    KINDS.iter().copied().find(|kind| kind.word() == word)
}

/// The job of this text.
#[tactic(auto, unfolding(crate::specs::Texts::job_of))]
pub(crate) fn job_of(word: &[u8]) -> Option<Job>
    ensures { result ≡ job_of word.now }
{
    JOBS.iter().copied().find(|job| job_text(*job) == word)
}
