ghost use Rattle.std.specs.Prelude.{◌≡◌, ◌≤◌, ◌<◌, ◌^◌, ◌++◌, length, OnOk, OnErr, IfOk, IsSome};
ghost use Rattle.std.specs.Int.{w64, to_be_bytes};
ghost use Rattle.gt_bytes.specs.Answers.{Gives, Within};
ghost use Rattle.gt_manifest.specs.Spelling.{above, name_of, loose};
ghost use Rattle.gt_manifest.specs.Reading.{number_item, next_name, loose_at};

use crate::manifest::Loose;
use gt_bytes::{FieldError, Item, get_text, get_u64, put_text, put_u64};
use gt_list::NoMemory;
use gt_name::{NameError, RefName};
use std::alloc::Global;
use std::cmp::Ordering;

/// Numbers of files, in any order.
pub(crate) struct FileNumbers;

impl Item for FileNumbers {
    type Value = u64;

    ghost item_at = { number_item };

    #[tactic(auto, unfolding(crate::specs::Reading::number_item))]
    fn read(
        _alloc: Global,
        bytes: &[u8],
        _before: &[u64],
        at: usize,
    ) -> Result<(u64, usize), FieldError> {
        let found = get_u64(bytes, at)?;
        Ok(found)
    }

    ghost spell = { to_be_bytes w64 };

    ghost may_put = { λ n. n < 2 ^ 64 };

    fn put(out: &mut Vec<u8>, value: &u64) -> Result<(), NoMemory> {
        put_u64(out, *value)
    }
}

fn name_above(before: &[Loose], name: &[u8]) -> bool
    ensures { result ≡ above name_of before.now name.now }
{
    match before.last() {
        None => true,
        Some(last) => matches!(last.name.bytes().cmp(name), Ordering::Less),
    }
}

/// A good name that is greater than the last one; none where it isn't. It is compared before memory is taken for it.
fn next_name(alloc: Global, before: &[Loose], text: &[u8]) -> Result<Option<RefName>, NoMemory>
    ensures found { IfOk result (λ found. found ≡ next_name before.now text.now) }
    ensures memory { OnErr result (IsSome (next_name before.now text.now)) }
{
    if !name_above(before, text) {
        return Ok(None);
    }
    match RefName::parse(alloc, text) {
        Ok(name) => Ok(Some(name)),
        Err(NameError::Memory) => Err(NoMemory),
        Err(_) => Ok(None),
    }
}

/// References with files of their own, ascending by name.
pub(crate) struct LooseRefs;

impl Item for LooseRefs {
    type Value = Loose;

    ghost item_at = { loose_at };

    #[tactic(auto, using(crate::proofs::LooseLemmas::loose_cut))]
    fn read(
        alloc: Global,
        bytes: &[u8],
        before: &[Loose],
        at: usize,
    ) -> Result<(Loose, usize), FieldError> {
        let ((begin, end), after) = get_text(bytes, at)?;
        let file = get_u64(bytes, after);
        match next_name(alloc, before, &bytes[begin..end]) {
            Ok(None) => Err(FieldError::BadField { at }),
            Ok(Some(name)) => {
                let (file, next) = file?;
                Ok((Loose { name, file }, next))
            }
            // A file number that is cut is told all the same.
            Err(NoMemory) => {
                let _ = file?;
                Err(FieldError::Memory)
            }
        }
    }

    ghost spell = { loose };

    ghost may_put = { λ l. length l.name < 2 ^ 16 };

    fn put(out: &mut Vec<u8>, value: &Loose) -> Result<(), NoMemory> {
        put_text(out, value.name.bytes())?;
        put_u64(out, value.file)?;
        Ok(())
    }
}
