// Laws of the definitions alone, of programs that answer a list of bytes. Each is the contract of a function that does nothing;
// the lemmas of proofs/ are for any answer.
ghost use Rattle.std.specs.Prelude.{◌≡◌, ℕ, List};
ghost use Rattle.gt_disk.specs.declared.file_id.FileId.{FileId};
ghost use Rattle.gt_disk.specs.Files.{Files, View, now};
ghost use Rattle.gt_disk.specs.Moments.{Since};
ghost use Rattle.gt_reading.specs.Reading.{Reading, run, asked};
ghost use Rattle.gt_reading.specs.Frames.{Agree, AnswersAs, Unasked, Touches};

/// A program answers the same, by the same files, over files that agree on those that it asks for.
pub fn programs_go_by_what_they_ask()
    ensures { (r : Reading (List ℕ)) (a b : Files) → Agree a b (asked a r) → (run b r ≡ run a r) × (asked b r ≡ asked a r) }
{}

/// A device call on a file that the program doesn't ask for, whatever a stop leaves, changes at none of its moments what the
/// program answers and asks for.
pub fn calls_elsewhere_leave_answers()
    ensures { (r : Reading (List ℕ)) (file : FileId) (v w : View) → Touches file v w → Unasked r (now v) file → Since (AnswersAs r (now v)) v w }
{}
