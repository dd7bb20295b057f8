ghost use Rattle.std.specs.Prelude.{◌≡◌, ◌≢◌, ◌+◌, ◌⊎◌, ◌≤◌, ◌<◌, ◌^◌, ◌↔◌, ℕ, length, false, IsTrue, IfOk, None, map, Err};
ghost use Rattle.std.specs.List.{All};
ghost use Rattle.gt_disk.specs.Files.{Rose, now};
ghost use Rattle.gt_disk.specs.declared.file_id.FileId.{FileId};
ghost use Rattle.gt_model.specs.Usual.{usual};
ghost use Rattle.gt_outside.specs.Consumed.{ConsumesAtMost};
ghost use Rattle.gt_base.specs.Recovery.{recover};
ghost use Rattle.gt_journal.specs.Histories.{IsGood};
ghost use Rattle.gt_prog.specs.declared.playing.PlayCause.{PlayCause};
ghost use Rattle.gt_prog.specs.Script.{HasSession, not_built};
ghost use Rattle.gt_prog.specs.Lines.{Stays};
ghost use Rattle.gt_prog.specs.Statuses.{AreGood, IsBadAt, IsNotYetAt, IsGoodInput, IsDone, IsCutShort, IsBroken, IsEarly, IsUnderway, ReadsInput, RoseEither, input_limit};
ghost use Rattle.gt_prog.specs.Words.{is_replay};

use crate::script::{ScriptError, parse_script};
use crate::status::Status;
use crate::words::is_replay;
use crate::working::work;
use gt_disk::Disk;
use gt_model::Limits;
use gt_outside::{Host, ReadError, Sink, Source, read_whole};
use gt_script::Request;
use std::alloc::Global;

/// The greatest input, in bytes.
const INPUT_LIMIT: usize = 134_217_728;

/// All that the program does, on one thread.
///
/// The only words are the one word `replay`: the whole input is read, then its lines are read, then the disk of the
/// partition is taken and mounted, and then the lines are done, each answer written before the next line is done.
/// `BadInput` comes exactly where a line is bad, and `NotYet` exactly where all are good and one is of no built form, where
/// the words are known, and neither the source nor memory fails.
pub fn gitstore_plain<H: Host, S: Source, K: Sink>(
    alloc: Global,
    words: &[&str],
    host: &mut H,
    source: &mut S,
    sink: &mut K,
) -> Status
    requires { (n : ℕ) → H.is_out host.old n ≡ false }

    // What was done and written, by the status.
    ensures done { result ≡ Status.Done → IsDone H.D.tells usual (S.left source.old) (H.disk_view host.old 1) (H.disk_view host.new 1) (H.disk_faults host.old 1) (H.disk_faults host.new 1) (K.written sink.old) (K.written sink.new) }
    ensures cut_short { result ≡ Status.WriteFault → IsCutShort H.D.tells usual PlayCause.Write (S.left source.old) (H.disk_view host.old 1) (H.disk_view host.new 1) (H.disk_faults host.old 1) (H.disk_faults host.new 1) (K.written sink.old) (K.written sink.new) }
    ensures failed { (disk : ℕ) → result ≡ Status.DiskFault disk → IsBroken H.D.tells usual PlayCause.Device (S.left source.old) (H.disk_view host.old 1) (H.disk_view host.new 1) (H.disk_faults host.old 1) (H.disk_faults host.new 1) (K.written sink.old) (K.written sink.new) }
    ensures found_damaged { (disk : ℕ) (file : FileId) (at : ℕ) → result ≡ Status.Damaged disk file at → IsBroken H.D.tells usual (PlayCause.Damaged file at) (S.left source.old) (H.disk_view host.old 1) (H.disk_view host.new 1) (H.disk_faults host.old 1) (H.disk_faults host.new 1) (K.written sink.old) (K.written sink.new) }
    ensures memory { result ≡ Status.Memory → IsBroken H.D.tells usual PlayCause.Memory (S.left source.old) (H.disk_view host.old 1) (H.disk_view host.new 1) (H.disk_faults host.old 1) (H.disk_faults host.new 1) (K.written sink.old) (K.written sink.new) }
    ensures untouched { IsEarly result → (H.disk_view host.new 1 ≡ H.disk_view host.old 1) × (K.written sink.new ≡ K.written sink.old) }

    // Whatever the status, the disk may be handed in again where it might before.
    ensures good { IsTrue H.D.tells → IsGood usual (now (H.disk_view host.old 1)) → IsGood usual (now (H.disk_view host.new 1)) }

    // Nothing but want of memory keeps a good script over a good disk from its end where nothing fails.
    ensures complete { AreGood H.D.tells (map (λ w. w.now) words.now) (S.left source.old) (H.disk_view host.old 1)
        → Stays (S.faults source.old) (S.faults source.new) → Stays (K.faults sink.old) (K.faults sink.new) → Stays (H.faults host.old) (H.faults host.new) → Stays (H.disk_faults host.old 1) (H.disk_faults host.new 1)
        → (result ≡ Status.Done) ⊎ (result ≡ Status.Memory) }

    // Its cause.
    ensures usage { (result ≡ Status.Usage) ↔ (is_replay (map (λ w. w.now) words.now) ≡ false) }
    ensures bad_input { (line at : ℕ) → result ≡ Status.BadInput line at → IsBadAt (S.left source.old) line at }
    ensures not_yet { (line : ℕ) → result ≡ Status.NotYet line → IsNotYetAt (S.left source.old) line }
    ensures good_input { IsUnderway result → IsGoodInput (S.left source.old) }
    ensures read { result ≡ Status.ReadFault → Rose (S.faults source.old) (S.faults source.new) }
    ensures write { result ≡ Status.WriteFault → Rose (K.faults sink.old) (K.faults sink.new) }
    ensures device { (disk : ℕ) → result ≡ Status.DiskFault disk → (disk ≡ 1) × RoseEither (H.faults host.old) (H.faults host.new) (H.disk_faults host.old 1) (H.disk_faults host.new 1) }
    ensures damaged { (disk : ℕ) (file : FileId) (at : ℕ) → result ≡ Status.Damaged disk file at → (disk ≡ 1) × (IsTrue H.D.tells → recover usual (H.disk_view host.new 1).reads ≡ Err (file, at)) }
    ensures back { (n : ℕ) → H.is_out host.new n ≡ false }

    // No other disk is touched, and nothing at all before the input is good. The input is read one byte past its limit at most, and
    // for other words not at all.
    ensures other_views { (n : ℕ) → n ≢ 1 → H.disk_view host.new n ≡ H.disk_view host.old n }
    ensures other_counts { (n : ℕ) → n ≢ 1 → H.disk_faults host.new n ≡ H.disk_faults host.old n }
    ensures idle { IsEarly result → (host.new ≡ host.old) × (sink.new ≡ sink.old) }
    ensures unread { result ≡ Status.Usage → source.new ≡ source.old }
    ensures most { ConsumesAtMost (S.left source.old) (S.left source.new) (input_limit + 1) }

    // No count rises but that of what failed.
    ensures read_sure { result ≢ Status.ReadFault → S.faults source.new ≡ S.faults source.old }
    ensures write_sure { result ≢ Status.WriteFault → K.faults sink.new ≡ K.faults sink.old }
    ensures host_sure { ((disk : ℕ) → result ≢ Status.DiskFault disk) → H.faults host.new ≡ H.faults host.old }
{
    if !is_replay(words) {
        return Status::Usage;
    }
    match requests_in(alloc, source) {
        Err(status) => status,
        Ok(requests) => work(alloc, Limits::usual(), host, sink, &requests),
    }
}

/// The requests of the whole input.
pub(crate) fn requests_in<S: Source>(alloc: Global, source: &mut S) -> Result<Vec<Request>, Status>
    ensures input { ReadsInput result (S.left source.old) }
    ensures few { IfOk result (λ requests. length requests.items < 2 ^ 32) }
    ensures built { IfOk result (λ requests. not_built requests.items ≡ None) }
    ensures sessions { IfOk result (λ requests. All HasSession requests.items) }
    ensures later { S.faults source.old ≤ S.faults source.new }
    ensures read { result ≡ Err Status.ReadFault → Rose (S.faults source.old) (S.faults source.new) }
    ensures sure { (result ≡ Err Status.ReadFault → ⊥) → S.faults source.new ≡ S.faults source.old }
    ensures most { ConsumesAtMost (S.left source.old) (S.left source.new) (input_limit + 1) }
{
    let bytes = match read_whole(alloc, source, INPUT_LIMIT) {
        Ok(bytes) => bytes,
        Err(ReadError::Failed) => return Err(Status::ReadFault),
        Err(ReadError::TooLong) => {
            return Err(Status::BadInput {
                line: 0,
                at: INPUT_LIMIT as u64,
            });
        }
        Err(ReadError::Memory) => return Err(Status::Memory),
    };
    match parse_script(alloc, &bytes) {
        Ok(requests) => Ok(requests),
        Err(ScriptError::BadInput { line, at }) => Err(Status::BadInput { line, at }),
        Err(ScriptError::NotYet { line }) => Err(Status::NotYet { line }),
        Err(ScriptError::Memory) => Err(Status::Memory),
    }
}
