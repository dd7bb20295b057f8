// Laws of the definitions alone. Each is the contract of a function that does nothing.
ghost use Rattle.std.specs.Prelude.{◌≡◌, ◌≤◌, ◌+◌, ◌-◌, ◌++◌, ◌∷◌, ℕ, List, Option, Result, Some, Ok, true, false, IsTrue, length, map};
ghost use Rattle.std.specs.List.{All, IsAmong};
ghost use Rattle.std.specs.Ordering.{eq_by_cmp};
ghost use Rattle.sha1.specs.Sha1.{sha1};
ghost use Rattle.gt_model.specs.declared.added.Added.{Added};
ghost use Rattle.gt_model.specs.declared.change.Change.TheVariants.{Write};
ghost use Rattle.gt_model.specs.declared.entry.Entry.{Entry};
ghost use Rattle.gt_model.specs.declared.update.RefUpdate.{RefUpdate};
ghost use Rattle.gt_model.specs.Contents.{key_cmp, Content, Repo, nothing, value, value_or_zero, is_visible, changed, after_all, at, IsLegal};
ghost use Rattle.gt_model.specs.Soundness.{IsSound, Reach};
ghost use Rattle.gt_model.specs.Needed.{HasNeeded};
ghost use Rattle.gt_model.specs.Verdicts.{Staged, Ready, verdict, added_records};

/// The content after two logs, one behind the other, is that after the second on top of that after the first.
pub fn contents_add_up()
    ensures { (c : Content) (one two : List Entry) → after_all c (one ++ two) ≡ after_all (after_all c one) two }
{}

/// A front of a legal log is legal, and the rest is legal after it.
pub fn legal_logs_have_legal_fronts()
    ensures front { (c : Content) (position : ℕ) (one two : List Entry) → IsLegal c position (one ++ two) → IsLegal c position one }
    ensures rest { (c : Content) (position : ℕ) (one two : List Entry) → IsLegal c position (one ++ two) → IsLegal (after_all c one) (position + length one) two }
{}

/// Entries behind a position change nothing there.
pub fn later_entries_leave_earlier_positions()
    ensures { (begin : ℕ) (base : Content) (log more : List Entry) (position : ℕ) → position ≤ begin + length log → at begin base (log ++ more) position ≡ at begin base log position }
{}

/// A write leaves every reference that it has no update of, in each repository, and every reference of the others.
pub fn writes_leave_other_references()
    ensures named { (c : Content) (path other name : List ℕ) (refs : List RefUpdate) (needed : List (List ℕ)) (added : List Added) → All (λ u. eq_by_cmp key_cmp name u.name ≡ false) refs
        → value (changed c path (Write refs needed added)) other name ≡ value c other name }
    ensures elsewhere { (c : Content) (path other name : List ℕ) (refs : List RefUpdate) (needed : List (List ℕ)) (added : List Added) → eq_by_cmp key_cmp other path ≡ false
        → value (changed c path (Write refs needed added)) other name ≡ value c other name }
{}

/// A sound content stays sound under a commit whose verdict is good, where each staged record has its name.
pub fn good_commits_keep_contents_sound()
    ensures { (c : Content) (path : List ℕ) (s : Staged) (ready : Ready) → IsSound c → All (λ a. sha1 a.whole ≡ a.name) s.records → verdict c path s ≡ Ok ready
        → IsSound (changed c path (Write ready.refs ready.needed (added_records c path s))) }
{}

/// In a sound content all that is reached from a reference is visible.
pub fn what_is_reached_is_present()
    ensures { (c : Content) (path name : List ℕ) → IsSound c → Reach c path name → IsTrue (is_visible c path name) }
{}

/// Each update and each check of an entry of a legal log finds its old value in the content just before it.
pub fn legal_logs_find_old_values()
    ensures { (c : Content) (position : ℕ) (one two : List Entry) (e : Entry) (refs : List RefUpdate) (needed : List (List ℕ)) (added : List Added) → e.change ≡ Write refs needed added
        → IsLegal c position (one ++ e ∷ two) → All (λ u. value_or_zero (after_all c one) e.path u.name ≡ u.old) refs }
{}

/// A commit whose verdict is good says what it needs: each new value and each name that an added record mentions, but for what it adds itself.
pub fn good_commits_say_what_they_need()
    ensures { (c : Content) (path : List ℕ) (s : Staged) (ready : Ready) (position : ℕ) → verdict c path s ≡ Ok ready
        → HasNeeded (record { position = position; path = path; change = Write ready.refs ready.needed (added_records c path s) }) }
{}
