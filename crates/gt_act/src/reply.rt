ghost use Rattle.std.specs.Prelude.{◌≡◌, Err};
ghost use Rattle.gt_act.specs.Ended.{answer_of};

use crate::ended::Ended;
use gt_model::{Answer, Refusal};

/// What an event is answered, and what its record keeps of that.
#[derive(Drop)]
pub struct Reply {
    pub answer: Answer,
    pub kept: Answer,
}

impl Reply {
    /// An answer that is kept as it is. It takes no memory.
    pub fn of(ended: Ended) -> Reply
        ensures answer { result.answer ≡ answer_of ended }
        ensures kept { result.kept ≡ answer_of ended }
    {
        let copy = ended;
        Reply {
            answer: ended.answer(),
            kept: copy.answer(),
        }
    }

    /// A refusal, and the copy of it that is kept.
    pub fn refused(answer: Refusal, kept: Refusal) -> Reply
        ensures answer { result.answer ≡ Err answer }
        ensures kept { result.kept ≡ Err kept }
    {
        Reply {
            answer: Err(answer),
            kept: Err(kept),
        }
    }
}
