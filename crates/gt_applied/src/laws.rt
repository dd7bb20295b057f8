// Laws of the definitions alone. Each is the contract of a function that does nothing.
ghost use Rattle.std.specs.Prelude.{◌≡◌, ◌≤◌, ◌<◌, ◌^◌, ℕ, List, length, All, Ok};
ghost use Rattle.gt_apply.specs.Fitting.{Lists, HasGoodPools};
ghost use Rattle.gt_apply.specs.Plan.{planned};
ghost use Rattle.gt_base.specs.Built.{IsBuilt};
ghost use Rattle.gt_base.specs.Held.{content_of};
ghost use Rattle.gt_base.specs.Loading.{headings, manifest_headings};
ghost use Rattle.gt_base.specs.Recovery.{Based, based_on};
ghost use Rattle.gt_base.specs.declared.held.BaseRepo.{BaseRepo};
ghost use Rattle.gt_disk.specs.Files.{Files};
ghost use Rattle.gt_entry.specs.Fits.{HasSpelling};
ghost use Rattle.gt_manifest.specs.Whole.{Fits};
ghost use Rattle.gt_manifest.specs.declared.manifest.Manifest.{Manifest};
ghost use Rattle.gt_manifest.specs.declared.version.Version.TheVariants.{Second};
ghost use Rattle.gt_model.specs.Batches.{new_files};
ghost use Rattle.gt_model.specs.Contents.{Content, IsLegal, after_all};
ghost use Rattle.gt_model.specs.declared.entry.Entry.{Entry};
ghost use Rattle.gt_reading.specs.Reading.{run};
ghost use Rattle.gt_applied.specs.Applied.{Applies};

/// The planned manifest is read from the files after an application, and what it and the files that it names hold is the
/// content before it with the entries.
pub fn applications_hold_the_content()
    ensures { (from : Based) (next : ℕ) (entries : List Entry) (a b : Files) → Applies from next entries a b
        → (to : Based) × (run b (based_on (planned from.manifest next entries)) ≡ Ok to) × (to.manifest ≡ planned from.manifest next entries) × (content_of to.repos ≡ after_all (content_of from.repos) entries) }
{}

/// The manifest of a base lists the repositories of the base's content, each with its pool; and its pools are pools.
pub fn bases_list_their_repositories()
    ensures lists { (m : Manifest) (repos : List BaseRepo) → Fits Second m → headings repos ≡ manifest_headings m.repos → Lists m (content_of repos) }
    ensures pools { (m : Manifest) (repos : List BaseRepo) → Fits Second m → headings repos ≡ manifest_headings m.repos → HasGoodPools (content_of repos) }
{}

/// Entries of the kinds that are built keep pools pools.
pub fn built_entries_keep_good_pools()
    ensures { (c : Content) (position : ℕ) (entries : List Entry) → All IsBuilt entries → IsLegal c position entries → HasGoodPools c → HasGoodPools (after_all c entries) }
{}

/// Few entries, each with a spelling, add few files.
pub fn few_entries_add_few_files()
    ensures { (entries : List Entry) → length entries ≤ 16 → All HasSpelling entries → new_files entries < 2 ^ 62 }
{}
