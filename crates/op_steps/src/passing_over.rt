//! Stages at which an operation has nothing to do are passed over, without a look at the stores.
ghost use Rattle.std.specs.Prelude.{◌≡◌, false};
ghost use Rattle.cell_world.specs.Images.{Image};
ghost use Rattle.cell_world.specs.declared.operations.Op.{Op};
ghost use Rattle.op_steps.specs.Advancing.{AtStage};
ghost use Rattle.op_steps.specs.PassingOver.{has_step, is_beside};
ghost use Rattle.op_steps.specs.Stages.{name_of, next_stage, number_of};

use crate::stages::Stage;
use cell_world::operations::{Op, Piece, StageName};

/// Whether the mapping is there, and not at the site of this other one, where the local step is done.
fn is_beside(piece: &Option<Piece>, done: &Option<Piece>) -> bool
    ensures { result ≡ is_beside piece.now done.now }
{
    match (piece, done) {
        (None, _) => false,
        (Some(_), None) => true,
        (Some(piece), Some(done)) => !piece.location.cmp(&done.location).is_eq(),
    }
}

/// Whether something leads on from the stage: the local step at the site of the old mappings, that at another site of the
/// new ones, the commit, the settling. From Settled nothing does.
pub fn has_step(op: &Op, name: StageName) -> bool
    ensures { result ≡ has_step op.now name }
{
    match name {
        StageName::Logged => is_beside(&op.olds.one, &None),
        StageName::SourceDone => is_beside(&op.news.one, &op.olds.one),
        StageName::TargetDone | StageName::Committed => true,
        StageName::Settled => false,
    }
}

/// Leads an operation from a stage without a step to the next one. The stage is the operation's own, and is spent.
pub fn pass_over(op: &Op, stage: Stage) -> Stage
    requires { has_step op.now (name_of stage) ≡ false }
    ensures number { number_of result ≡ number_of stage }
    ensures name { name_of result ≡ next_stage (name_of stage) }
    ensures stays { (image : Image) → AtStage op.now (name_of stage) image → AtStage op.now (next_stage (name_of stage)) image }
{
    stage.advanced()
}
