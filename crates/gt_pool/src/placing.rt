ghost use Rattle.std.specs.Prelude.{◌≡◌, ◌≢◌, ◌<◌, ℕ, map, length, replicate, Some, None, IfOk, get_or, slice_set};
ghost use Rattle.std.specs.List.{AllByRecursion};
ghost use Rattle.gt_pool.specs.Counting.{times, below};
ghost use Rattle.gt_pool.specs.Working.{InOrder};
ghost use Rattle.gt_pool.specs.Workers.{indices_of, AreGiven, AreFilled, AreAwaited};

use crate::numbered::Numbered;
use crate::turned::turned;
use crate::{Pieces, Work};
use gt_list::{ListOf, NoMemory};
use std::alloc::Global;

/// So many places, with no piece yet.
fn blank<P: Drop>(alloc: Global, count: u32) -> Result<Vec<Option<P>>, NoMemory>
    ensures { IfOk result (λ slots. slots.items ≡ replicate count None) }
{
    let mut slots = Vec::new(alloc);
    'slots: for _ in 0..count {
        slots.push(None)?;
    }
    Ok(slots)
}

fn put_at<P: Drop>(slots: &mut Vec<Option<P>>, index: u32, piece: P)
    requires { index < length slots.old.items }
    ensures { slots.new.items ≡ slice_set slots.old.items index (Some piece) }
{
    slots[index as usize] = Some(piece);
}

/// Puts each piece at its place.
fn place<W: Work>(_work: &W, slots: &mut Vec<Option<W::Piece>>, all: ListOf<Numbered<W::Piece>>)
    requires inside { AllByRecursion (λ x. x.index < length slots.old.items) all }
    requires given { AreGiven (W.gives _work.now) all }
    requires filled { AreFilled (W.gives _work.now) slots.old.items }
    requires awaited { AreAwaited slots.old.items (length slots.old.items) all }
    ensures len { length slots.new.items ≡ length slots.old.items }
    ensures filled { AreFilled (W.gives _work.now) slots.new.items }
    ensures whole { (i : ℕ) → i < length slots.old.items → get_or slots.new.items i None ≢ None }
{
    let mut left = all;
    'pieces: while let Some(it) = left.pop() {
        let Numbered { index, piece } = it;
        put_at(slots, index, piece);
    }
}

/// The pieces, once each place has one.
fn unwrapped<P: Drop>(alloc: Global, slots: Vec<Option<P>>) -> Result<Pieces<P>, NoMemory>
    requires { (i : ℕ) → i < length slots.items → get_or slots.items i None ≢ None }
    ensures { IfOk result (λ pieces. map (λ p. Some p) pieces ≡ slots.items) }
{
    let mut left = ListOf::from_vec(slots);
    let mut pieces = ListOf::new(alloc);
    'slots: while let Some(slot) = left.pop() {
        match slot {
            Some(piece) => pieces.push(piece)?,
            None => unreachable!(),
        }
    }
    turned(alloc, pieces)
}

/// The pieces in the order of their indices, which are those below the count, each once.
pub(crate) fn in_order<W: Work>(
    alloc: Global,
    work: &W,
    count: u32,
    all: ListOf<Numbered<W::Piece>>,
) -> Result<Pieces<W::Piece>, NoMemory>
    requires given { AreGiven (W.gives work.now) all }
    requires once { (x : ℕ) → times x (indices_of all) ≡ below x count }
    ensures { IfOk result (InOrder (W.gives work.now) count) }
{
    let mut slots = blank(alloc, count)?;
    place(work, &mut slots, all);
    unwrapped(alloc, slots)
}
