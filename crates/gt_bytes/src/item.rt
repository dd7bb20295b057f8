ghost use Rattle.std.specs.Prelude.{◌≡◌, ◌≤◌, ◌++◌, ℕ, List, Result, length, OnOk, OnErr};
ghost use Rattle.gt_bytes.specs.Answers.{Gives, Within, MemoryAfter};
ghost use Rattle.gt_bytes.specs.Spelling.{IsFront};

use crate::FieldError;
use gt_list::NoMemory;
use std::alloc::Global;

/// How an item of a list is read and written. The type that implements it is a mark without a value, so that the same
/// items can stand in lists by several rules.
pub trait Item {
    /// What an item is.
    type Value: Drop;

    // What is read at a place, after these items.
    ghost item_at: { List ℕ → List Self.Value → ℕ → Result (Self.Value × ℕ) ℕ };

    /// Reads the item at this place. Whether it may stand there depends on those before it.
    fn read(
        alloc: Global,
        bytes: &[u8],
        before: &[Self::Value],
        at: usize,
    ) -> Result<(Self::Value, usize), FieldError>
        requires { at ≤ length bytes.now }
        ensures within { Within result (length bytes.now) }
        ensures value { Gives result (item_at bytes.now before.now at) }
        // Memory is wanted only for what may stand there.
        ensures memory { MemoryAfter result (item_at bytes.now before.now at) };

    // The one spelling of an item.
    ghost spell: { Self.Value → List ℕ };

    // Whether it has a spelling.
    ghost may_put: { Self.Value → Type 0 };

    /// Appends an item. After an error `out` is what it was, and behind that a part of the item may stand.
    fn put(out: &mut Vec<u8>, value: &Self::Value) -> Result<(), NoMemory>
        requires { may_put value.now }
        ensures ok { OnOk result (out.new.items ≡ out.old.items ++ spell value.now) }
        ensures err { OnErr result (IsFront out.old.items out.new.items) };
}
