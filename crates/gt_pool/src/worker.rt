ghost use Rattle.std.specs.Prelude.{◌≡◌, ◌<◌, ◌^◌, true, false};
ghost use Rattle.gt_pool.specs.Workers.{IsReady, IsAt, IsDone};

use crate::claims::{Claimer, Claims};
use crate::numbered::Numbered;
use crate::{TicketPass, Tickets, Work};
use gt_list::ListOf;
use gt_outside::Gate;
use std::sync::Wait;

/// Who works in one thread: a kit, and the pieces so far. It is short once memory for a piece ran out.
#[derive(Drop)]
pub struct Worker<K, P> {
    pub(crate) kit: K,
    pub(crate) claimer: Claimer,
    pub(crate) pass: TicketPass,
    pub(crate) pieces: ListOf<Numbered<P>>,
    pub(crate) short: bool,
}

/// The work on one index, with its number.
fn piece_of<R: Wait, W: Work, G: Gate>(
    rt: &R,
    work: &W,
    gate: &G,
    tickets: &Tickets,
    kit: &mut W::Kit,
    pass: &mut TicketPass,
    index: u32,
) -> Numbered<W::Piece>
    requires index { index < W.size work.now }
    requires pass { pass.old.of ≡ tickets.now }
    ensures index { result.index ≡ index }
    ensures piece { W.gives work.now index result.piece }
    ensures kit { W.steps work.now kit.old index kit.new }
    ensures pass { pass.new.of ≡ tickets.now }
{
    let piece = work.run(rt, index, kit, tickets, pass, gate);
    Numbered { index, piece }
}

/// Claims one index and does the work on it. False where none is left, or memory for its piece ran out.
fn work_once<R: Wait, W: Work, G: Gate>(
    rt: &R,
    work: &W,
    gate: &G,
    claims: &Claims,
    tickets: &Tickets,
    worker: &mut Worker<W::Kit, W::Piece>,
) -> bool
    requires size { claims.now.count ≡ W.size work.now }
    requires of { (worker.old.claimer.of ≡ claims.now) × (worker.old.pass.of ≡ tickets.now) }
    requires on { worker.old.short ≡ false }
    ensures more { result ≡ true → worker.new.short ≡ false }
    ensures finished { result ≡ false → worker.new.short ≡ false → worker.new.claimer.finished ≡ true }
    ensures moved { (kit : W.Kit) → IsAt (W.gives work.now) (W.steps work.now) claims.now tickets.now kit worker.old
        → IsAt (W.gives work.now) (W.steps work.now) claims.now tickets.now kit worker.new }
{
    let Some(index) = claims.claim(&mut worker.claimer) else {
        return false;
    };
    let piece = piece_of(
        rt,
        work,
        gate,
        tickets,
        &mut worker.kit,
        &mut worker.pass,
        index,
    );
    match worker.pieces.push(piece) {
        Ok(()) => true,
        Err(_) => {
            worker.short = true;
            false
        }
    }
}

/// Claims indices and does the work on each, until none is left.
pub(crate) fn work_on<R: Wait, W: Work, G: Gate>(
    rt: &R,
    work: &W,
    gate: &G,
    claims: &Claims,
    tickets: &Tickets,
    worker: &mut Worker<W::Kit, W::Piece>,
)
    requires size { claims.now.count ≡ W.size work.now }
    requires ready { IsReady claims.now tickets.now worker.old }
    ensures { IsDone (W.gives work.now) (W.steps work.now) claims.now tickets.now worker.old.kit worker.new }
{
    worker.short = false;
    'claims: for _ in rt.forever() {
        if !work_once(rt, work, gate, claims, tickets, worker) {
            break;
        }
    }
}
