//! What a caller's proof may want to know of entries. Each call does nothing.
ghost use Rattle.std.specs.Prelude.{◌≡◌, ℕ, List, [], ◌++◌, Ok};
ghost use Rattle.gt_bytes.specs.Standing.{IsBytes};
ghost use Rattle.gt_model.specs.declared.entry.Entry.{Entry};
ghost use Rattle.gt_entry.specs.Fits.{IsEntry, HasSpelling};
ghost use Rattle.gt_entry.specs.Reading.{entry_of};
ghost use Rattle.gt_entry.specs.Spelling.{spelling};

/// What has a spelling is read from it.
pub fn law_entries_are_read_again()
    ensures { (e : Entry) → IsEntry e → HasSpelling e → entry_of (spelling e) ≡ Ok e }
{}

/// What is read has a spelling, and is spelled so.
pub fn law_entries_are_read_exactly()
    ensures { (bytes : List ℕ) (e : Entry) → IsBytes bytes → entry_of bytes ≡ Ok e → IsEntry e × HasSpelling e × (bytes ≡ spelling e) }
{}

/// No spelling of an entry begins another's.
pub fn law_no_entry_begins_another()
    ensures { (a b : Entry) (rest : List ℕ) → IsEntry a → HasSpelling a → IsEntry b → HasSpelling b → spelling b ≡ spelling a ++ rest
        → (a ≡ b) × (rest ≡ []) }
{}
