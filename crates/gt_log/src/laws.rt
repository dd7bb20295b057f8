// What the files of a log stand for.
ghost use Rattle.std.specs.Prelude.{◌≡◌, ◌≤◌, ◌+◌, ◌++◌, ℕ, List, length};
ghost use Rattle.gt_disk.specs.Files.{Files, States};
ghost use Rattle.gt_log.specs.Log.{gate_file, entry_file, content_length, Recovers, Stands};

/// What an image recovers to from a position on depends on the gate and on the entries that it counts from there alone: an
/// image with the same gate and the same files of these entries recovers to the same. And it is one list.
pub fn recovers_by_its_files()
    ensures alone { (first : ℕ) (image other : Files) (entries : List (List ℕ)) → other gate_file ≡ image gate_file
        → ((k : ℕ) → k + first ≤ content_length (image gate_file) → other (entry_file (k + first)) ≡ image (entry_file (k + first)))
        → Recovers first image entries → Recovers first other entries }
    ensures one { (first : ℕ) (image : Files) (entries others : List (List ℕ)) → Recovers first image entries → Recovers first image others → others ≡ entries }
{}

/// Entries that stand from a position on stand from each later one on too, without those below it.
pub fn later_entries_stand()
    ensures recovers { (first : ℕ) (image : Files) (front entries : List (List ℕ)) → Recovers first image (front ++ entries)
        → Recovers (length front + first) image entries }
    ensures stands { (first : ℕ) (states : States) (front entries : List (List ℕ)) → Stands first (front ++ entries) states
        → Stands (length front + first) entries states }
{}
