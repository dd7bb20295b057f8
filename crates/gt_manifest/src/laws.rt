//! What a caller's proof may want to know of manifests. Each call does nothing.
ghost use Rattle.std.specs.Prelude.{◌≡◌, ◌↔◌, ℕ, List, [], ◌++◌, Ok, IsTrue, is_ok};
ghost use Rattle.gt_manifest.specs.declared.manifest.Manifest.{Manifest};
ghost use Rattle.gt_manifest.specs.declared.version.Version.{Version};
ghost use Rattle.gt_manifest.specs.Spelling.{manifest, FitsFields};
ghost use Rattle.gt_manifest.specs.Whole.{whole, manifest_of, Fits, IsWhole};

/// No spelling of a manifest begins a spelling of another one.
pub fn law_no_manifest_begins_another()
    ensures { (v w : Version) (a b : Manifest) (rest : List ℕ) → FitsFields v a → FitsFields w b → manifest w b ≡ manifest v a ++ rest
        → (a ≡ b) × (rest ≡ []) }
{}

/// The reader finds no fault over the whole list exactly where its file numbers are in range and stand once, and its pools stand.
pub fn law_whole_is_what_the_reader_accepts()
    ensures { (v : Version) (m : Manifest) → IsTrue (is_ok (whole v m)) ↔ IsWhole m }
{}

/// What a manifest is spelled as, in either spelling, is read as that manifest.
pub fn law_a_manifest_is_read_again()
    ensures { (v : Version) (m : Manifest) → Fits v m → manifest_of (manifest v m) ≡ Ok m }
{}
