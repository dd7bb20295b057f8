//! What a caller's proof may want to know of the files. Each call does nothing.
ghost use Rattle.std.specs.Prelude.{◌≡◌, ℕ, List, [], ◌++◌, length, Ok};
ghost use Rattle.std.specs.List.{AllByRecursion};
ghost use Rattle.gt_reftext.specs.declared.packed_ref.PackedRef.{PackedRef};
ghost use Rattle.gt_reftext.specs.Loose.{loose, IsLoose};
ghost use Rattle.gt_reftext.specs.Packed.{packed_of, Ascends};
ghost use Rattle.gt_reftext.specs.Spelling.{packed_text, IsPackedRef};

/// No loose file begins another one.
pub fn law_loose_files()
    ensures prefix { (bytes rest : List ℕ) → IsLoose bytes → IsLoose (bytes ++ rest) → rest ≡ [] }
{}

/// A packed file that was written is read as its list.
pub fn law_written_is_read()
    ensures { (list : List PackedRef) → Ascends list → AllByRecursion IsPackedRef list → packed_of (packed_text list) ≡ Ok list }
{}
