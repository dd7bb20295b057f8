ghost use Rattle.std.specs.Prelude.{◌≡◌, IfOk};
ghost use Rattle.gt_model.specs.Machine.{refuses, answers, adds, next_entry};
ghost use Rattle.gt_plain_machine.specs.States.{as_state, as_effect};

use crate::{PlainApplying, PlainPin, PlainPins, PlainState};
use gt_list::NoMemory;
use gt_model::{Change, Done, Entry, Refusal};
use gt_name::RepoPath;

/// What an event comes to.
#[derive(Drop)]
pub enum PlainEffect {
    /// It is refused, and these live on.
    Refuses(Refusal, PlainPins),
    /// It is answered, and these live on.
    Answers(Done, PlainPins),
    /// An entry is added, with this answer, and these live on.
    Adds(Entry, Done, PlainPins),
    /// A job is opened.
    Opens(PlainPin),
    /// A job goes on by so many units.
    Works(u8, u32),
    /// Entries are applied.
    Applies(PlainApplying),
    /// Files are removed, with this floor and this answer.
    Removes(u64, Done),
}

impl PlainState {
    /// A copy of what is live.
    pub(crate) fn all_pins(&self) -> Result<PlainPins, NoMemory>
        ensures { IfOk result (λ pins. pins ≡ (as_state self.now).pins) }
    {
        Ok(self.pins.clone()?)
    }

    /// A refusal, with all that is live.
    pub(crate) fn refused(&self, refusal: Refusal) -> Result<PlainEffect, NoMemory>
        ensures { IfOk result (λ e. as_effect e ≡ refuses refusal (as_state self.now).pins) }
    {
        Ok(PlainEffect::Refuses(refusal, self.all_pins()?))
    }

    /// An answer, with all that is live.
    pub(crate) fn answered(&self, done: Done) -> Result<PlainEffect, NoMemory>
        ensures { IfOk result (λ e. as_effect e ≡ answers done (as_state self.now).pins) }
    {
        Ok(PlainEffect::Answers(done, self.all_pins()?))
    }

    /// The entry behind the front.
    pub(crate) fn next_entry(&self, path: &RepoPath, change: Change) -> Result<Entry, NoMemory>
        ensures { IfOk result (λ e. e ≡ next_entry (as_state self.now) path.now change) }
    {
        Ok(Entry {
            position: self.next_position()?,
            path: path.clone()?,
            change,
        })
    }

    /// An entry behind the front, with all that is live.
    pub(crate) fn added(
        &self,
        path: &RepoPath,
        change: Change,
        done: Done,
    ) -> Result<PlainEffect, NoMemory>
        ensures { IfOk result (λ e. as_effect e ≡ adds (next_entry (as_state self.now) path.now change) done (as_state self.now).pins) }
    {
        let entry = self.next_entry(path, change)?;
        Ok(PlainEffect::Adds(entry, done, self.all_pins()?))
    }
}
