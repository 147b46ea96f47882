//! Plans of one edit.
ghost use Rattle.std.specs.Prelude.{◌≡◌, IsTrue, IfOk, IfErr, [], ◌∷◌};
ghost use Rattle.cell_world.specs.Spelled.{is_spelled};

use cell_world::cells::{Cell, CellKey};
use cell_world::changes::{Change, Edit};
use cell_world::operations::Reach;
use plain_model::plans::{Plan, PlanStop};
use plain_model::replies::Reply;
use std::alloc::Global;

/// The plan that puts one cell and reaches nothing. The cell is one that has a spelling.
pub fn put_cell(alloc: Global, cell: Cell) -> Result<Plan, PlanStop>
    requires { IsTrue (is_spelled cell) }
    ensures plan { IfOk result (λ plan. plan ≡ Plan.Short Reach.Nothing (Edit.Put cell ∷ []) Reply.Ok) }
    ensures memory { IfErr result (λ stop. stop ≡ PlanStop.Memory) }
{
    let mut change = Change::empty(alloc);
    change.put(cell)?;
    Ok(Plan::Short(Reach::Nothing, change, Reply::Ok))
}

/// The plan that deletes one cell.
pub fn delete_cell(alloc: Global, reach: Reach, key: CellKey) -> Result<Plan, PlanStop>
    ensures plan { IfOk result (λ plan. plan ≡ Plan.Short reach (Edit.Delete key ∷ []) Reply.Ok) }
    ensures memory { IfErr result (λ stop. stop ≡ PlanStop.Memory) }
{
    let mut change = Change::empty(alloc);
    change.delete(key)?;
    Ok(Plan::Short(reach, change, Reply::Ok))
}
