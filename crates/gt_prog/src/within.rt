ghost use Rattle.std.specs.Prelude.{◌≡◌, ◌≢◌, ◌+◌, ◌≤◌, ℕ, false, IsTrue, Err};
ghost use Rattle.gt_disk.specs.Files.{Rose};
ghost use Rattle.gt_disk.specs.declared.file_id.FileId.{FileId};
ghost use Rattle.gt_outside.specs.Consumed.{ConsumesAtMost};
ghost use Rattle.gt_base.specs.Recovery.{recover};
ghost use Rattle.gt_prog.specs.Statuses.{IsBadAt, IsNotYetAt, IsGoodInput, IsUnderway, RoseEither, input_limit};

use crate::status::Status;
use crate::top::requests_in;
use crate::working::work;
use gt_model::Limits;
use gt_outside::{Host, Sink, Source};
use std::alloc::Global;

/// What the top call does for the word `replay`, under these limits.
pub fn replay_within<H: Host, S: Source, K: Sink>(
    alloc: Global,
    limits: Limits,
    host: &mut H,
    source: &mut S,
    sink: &mut K,
) -> Status
    requires { (n : ℕ) → H.is_out host.old n ≡ false }
    ensures bad_input { (line at : ℕ) → result ≡ Status.BadInput line at → IsBadAt (S.left source.old) line at }
    ensures not_yet { (line : ℕ) → result ≡ Status.NotYet line → IsNotYetAt (S.left source.old) line }
    ensures good_input { IsUnderway result → IsGoodInput (S.left source.old) }
    ensures read { result ≡ Status.ReadFault → Rose (S.faults source.old) (S.faults source.new) }
    ensures write { result ≡ Status.WriteFault → Rose (K.faults sink.old) (K.faults sink.new) }
    ensures device { (disk : ℕ) → result ≡ Status.DiskFault disk → (disk ≡ 1) × RoseEither (H.faults host.old) (H.faults host.new) (H.disk_faults host.old 1) (H.disk_faults host.new 1) }
    ensures damaged { (disk : ℕ) (file : FileId) (at : ℕ) → result ≡ Status.Damaged disk file at → (disk ≡ 1) × (IsTrue H.D.tells → recover limits (H.disk_view host.new 1).reads ≡ Err (file, at)) }
    ensures back { (n : ℕ) → H.is_out host.new n ≡ false }
    ensures other_views { (n : ℕ) → n ≢ 1 → H.disk_view host.new n ≡ H.disk_view host.old n }
    ensures other_counts { (n : ℕ) → n ≢ 1 → H.disk_faults host.new n ≡ H.disk_faults host.old n }
    ensures most { ConsumesAtMost (S.left source.old) (S.left source.new) (input_limit + 1) }
{
    match requests_in(alloc, source) {
        Err(status) => status,
        Ok(requests) => work(alloc, limits, host, sink, &requests),
    }
}
