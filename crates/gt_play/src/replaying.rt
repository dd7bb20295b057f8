ghost use Rattle.std.specs.Prelude.{◌≡◌, ℕ, false};

use gt_model::Limits;
use gt_outside::{Host, MemSink, MemSource};
use gt_prog::{Status, gitstore_plain, replay_within};
use std::alloc::Global;

/// The top call. Under other limits than the usual the words don't count.
pub(crate) fn replay<H: Host>(
    alloc: Global,
    words: &[&str],
    limits: Option<Limits>,
    host: &mut H,
    source: &mut MemSource,
    sink: &mut MemSink,
) -> Status
    requires { (n : ℕ) → H.is_out host.old n ≡ false }
    ensures { (n : ℕ) → H.is_out host.new n ≡ false }
{
    match limits {
        None => gitstore_plain(alloc, words, host, source, sink),
        Some(limits) => replay_within(alloc, limits, host, source, sink),
    }
}
