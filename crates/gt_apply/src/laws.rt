//! What a caller's proof may want to know of plans. Each call does nothing.
ghost use Rattle.std.specs.Prelude.{ℕ, List};
ghost use Rattle.gt_manifest.specs.declared.manifest.Manifest.{Manifest};
ghost use Rattle.gt_manifest.specs.declared.version.Version.TheVariants.{Second};
ghost use Rattle.gt_manifest.specs.Whole.{Fits};
ghost use Rattle.gt_model.specs.declared.entry.Entry.{Entry};
ghost use Rattle.gt_model.specs.Contents.{Content, after_all};
ghost use Rattle.gt_apply.specs.Plan.{planned};
ghost use Rattle.gt_apply.specs.Fitting.{Lists, IsNext, IsShort};

/// The manifest of a plan lists the repositories of the content behind the entries, and where its counts are short it has its
/// spelling.
pub fn plans_fit()
    ensures lists { (from : Manifest) (next : ℕ) (entries : List Entry) (c : Content) → IsNext from next entries c → Lists (planned from next entries) (after_all c entries) }
    ensures fits { (from : Manifest) (next : ℕ) (entries : List Entry) (c : Content) → IsNext from next entries c → IsShort (planned from next entries) → Fits Second (planned from next entries) }
{}
