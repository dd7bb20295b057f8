// Names of two lists in one.
ghost use Rattle.std.specs.Prelude.{◌≡◌, ◌||◌, ℕ, List, IfOk, OnOk};
ghost use Rattle.std.specs.BTreeSet as set;
ghost use Rattle.std.specs.List.{list_any};
ghost use Rattle.std.specs.List.Sorted.{IsStrictlySortedBy};
ghost use Rattle.std.specs.Ordering.{eq_by_cmp};
ghost use Rattle.gt_model.specs.Contents.{key_cmp};

use gt_list::{ListOf, NoMemory};
use gt_name::{Name, Names};
use std::alloc::Global;
use std::collections::BTreeSet;

/// The names of two lists, ascending, each once.
pub fn in_one(alloc: Global, one: &[Name], two: &[Name]) -> Result<Names, NoMemory>
    ensures ordered { IfOk result (λ names. IsStrictlySortedBy key_cmp names) }
    ensures names { IfOk result (λ names. (x : List ℕ) → list_any (λ n. eq_by_cmp key_cmp x n) names ≡ (list_any (λ n. eq_by_cmp key_cmp x n) two.now || list_any (λ n. eq_by_cmp key_cmp x n) one.now)) }
{
    let mut all = BTreeSet::new(alloc);
    if let Err(error) = insert_all(&mut all, one) {
        return Err(error);
    }
    if let Err(error) = insert_all(&mut all, two) {
        return Err(error);
    }
    in_order(alloc, &all)
}

fn insert_all(all: &mut BTreeSet<Name>, names: &[Name]) -> Result<(), NoMemory>
    ensures { OnOk result ((x : List ℕ) → set.contains key_cmp all.new x ≡ (list_any (λ n. eq_by_cmp key_cmp x n) names.now || set.contains key_cmp all.old x)) }
{
    for name in names {
        match all.insert(*name) {
            Ok(_) => {}
            Err(_) => return Err(NoMemory),
        }
    }
    Ok(())
}

fn in_order(alloc: Global, all: &BTreeSet<Name>) -> Result<Names, NoMemory>
    ensures ordered { IfOk result (λ names. IsStrictlySortedBy key_cmp names) }
    ensures names { IfOk result (λ names. names ≡ all.now.keys) }
{
    let mut names = ListOf::new(alloc);
    for name in all.iter() {
        if let Err(error) = names.push(*name) {
            return Err(error);
        }
    }
    Ok(names)
}
