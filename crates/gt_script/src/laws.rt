//! What a caller's proof may want to know of lines. Each call does nothing.
ghost use Rattle.std.specs.Prelude.{◌≡◌, ℕ, ◌<◌, ◌≤◌, ◌^◌, List, Some, Result, decimal};
ghost use Rattle.gt_model.specs.declared.done.Done.{Done};
ghost use Rattle.gt_model.specs.declared.refusal.Refusal.{Refusal};
ghost use Rattle.gt_script.specs.Values.{number};
ghost use Rattle.gt_script.specs.Printed.{printed};
ghost use Rattle.gt_script.specs.Proper.{IsProper};

/// A word of a script is read as a number of a range exactly where the number is of that range and the word is its decimal
/// digits.
pub fn numbers_are_their_digits()
    ensures read { (low high n : ℕ) → n < 2 ^ 64 → low ≤ n → n ≤ high → number low high (decimal n) ≡ Some n }
    ensures only { (low high n : ℕ) (w : List ℕ) → number low high w ≡ Some n → (w ≡ decimal n) × (low ≤ n) × (n ≤ high) }
{}

/// Different answers print differently.
pub fn answers_print_differently()
    ensures { (one other : Result Done Refusal) → IsProper one → IsProper other → printed one ≡ printed other → one ≡ other }
{}
