//! What a caller's proof may want to know of the sessions of a script. Each call does nothing.
ghost use Rattle.std.specs.Prelude.{ℕ, List, map};
ghost use Rattle.gt_session.specs.Sessions.{Session as Seen, forgotten};
ghost use Rattle.gt_session.specs.Together.{sessions_from, AreHeld};

/// The sessions of a script that begins have nothing open, so they hold nothing, whatever is live.
pub fn new_sessions_hold_nothing()
    ensures { (live : ℕ → List ℕ) → AreHeld (sessions_from 1 128) live }
{}

/// Sessions that forgot what they had open hold nothing, whatever is live.
pub fn forgotten_sessions_hold_nothing()
    ensures { (sessions : List Seen) (live : ℕ → List ℕ) → AreHeld (map forgotten sessions) live }
{}
