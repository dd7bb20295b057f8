//! What a caller's proof may want to know of names, references and paths. Each call does nothing.
ghost use Rattle.std.specs.Prelude.{◌≡◌, ℕ, ◌<◌, ◌≤◌, ◌^◌, true, List, ◌∷◌, ◌++◌, None, All, length, not, codes, nat_eq};
ghost use Rattle.std.specs.List.{AllPass, starts_with, ends_with};
ghost use Rattle.std.specs.declared.cmp.Ordering.TheVariants.{Less};
ghost use Rattle.std.specs.Ordering.{nat_cmp};
ghost use Rattle.std.specs.Cmp.Lexicographic.{slice_cmp};
ghost use Rattle.gt_name.specs.Paths.{bad_path, is_path_byte};
ghost use Rattle.gt_name.specs.References.{bad_ref, is_forbidden};

use crate::Name;

/// The order of names, references and paths: the first byte that differs decides, and where one is a prefix of the
/// other, the shorter is less.
pub fn law_byte_order()
    ensures differ { (same left right : List ℕ) (a b : ℕ) → a < b
        → slice_cmp nat_cmp (same ++ a ∷ left) (same ++ b ∷ right) ≡ Less }
    ensures shorter { (same rest : List ℕ) (next : ℕ) → slice_cmp nat_cmp same (same ++ next ∷ rest) ≡ Less }
{}

/// A name is 20 bytes.
pub fn law_name(name: &Name)
    ensures long { length name.now ≡ 20 }
    ensures bytes { All (λ b. b < 256) name.now }
{
    law_bytes(&name.0);
}

fn law_bytes(bytes: &[u8])
    ensures { All (λ b. b < 256) bytes.now }
{}

/// A reference's name is short, begins with `refs/` and has no forbidden byte.
pub fn law_references()
    ensures short { (t : List ℕ) → bad_ref t ≡ None → length t ≤ 1024 }
    ensures begins { (t : List ℕ) → bad_ref t ≡ None → starts_with nat_eq t (codes "refs/") ≡ true }
    ensures bytes { (t : List ℕ) → bad_ref t ≡ None → AllPass (λ b. not (is_forbidden b)) t }
{}

/// A path has 1 to 255 bytes, each of them one of `a-z 0-9 . _ - /`, and ends in `.git`.
pub fn law_paths()
    ensures some { (t : List ℕ) → bad_path t ≡ None → 0 < length t }
    ensures short { (t : List ℕ) → bad_path t ≡ None → length t ≤ 255 }
    ensures bytes { (t : List ℕ) → bad_path t ≡ None → AllPass is_path_byte t }
    ensures ends { (t : List ℕ) → bad_path t ≡ None → ends_with nat_eq t (codes ".git") ≡ true }
{}
