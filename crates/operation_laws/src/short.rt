//! Short commands beside live operations.
ghost use Rattle.std.specs.Prelude.{◌≡◌, false};
ghost use Rattle.cell_world.specs.Images.{Image, global};
ghost use Rattle.cell_world.specs.Operations.{conflicts};
ghost use Rattle.cell_world.specs.Sound.{Sound, HasLog};
ghost use Rattle.cell_world.specs.declared.operations.Op.{Op};
ghost use Rattle.cell_world.specs.declared.operations.Reach.{Reach};
ghost use Rattle.op_log.specs.ShortChanges.{ShortChange};
ghost use Rattle.session_laws.specs.Doing.{AllDoing};
ghost use Rattle.session_laws.specs.Core.{AllStand};
ghost use Rattle.session_laws.specs.Needs.{Needs};

/// A short change whose reach conflicts with no logged operation leaves each live operation standing: its log row, its stage, and that it is what its command exchanges.
pub fn live_operations_stand_through_short_changes()
    ensures { (doing : AllDoing) (image : Image) → Sound image → AllStand Needs doing image → (reach : Reach) (after : Image) → ShortChange image reach after → ((op : Op) → HasLog (global image).log op → conflicts reach op ≡ false) → AllStand Needs doing after }
{}
