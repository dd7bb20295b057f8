ghost use Rattle.std.specs.Prelude.{◌≡◌, map};
ghost use Rattle.gt_prog.specs.Words.{is_replay};

/// Whether the words are the one word `replay`.
pub(crate) fn is_replay(words: &[&str]) -> bool
    ensures { result ≡ is_replay (map (λ w. w.now) words.now) }
{
    match words {
        [word] => *word == "replay",
        _ => false,
    }
}
