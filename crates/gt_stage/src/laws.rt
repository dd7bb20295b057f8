//! What a caller's proof may want to know of a stage. Each call does nothing.
ghost use Rattle.gt_stage.specs.Staging.{IsClean};

use crate::Stage;

/// No reference and no record is staged twice, and each record has its name.
pub fn law_stage(stage: &Stage)
    ensures { IsClean stage.now.staged }
{
    stage.open();
}
