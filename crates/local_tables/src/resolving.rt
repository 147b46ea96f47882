//! The status of a key at a shard, as its local rows say it.
ghost use Rattle.std.specs.Prelude.{◌≡◌, ◌≤◌, ◌<◌, ◌+◌, ◌⊎◌, IfOk, IsErrOf};
ghost use Rattle.cell_world.specs.Counts.{Rose};
ghost use Rattle.cell_world.specs.Images.{global};
ghost use Rattle.cell_world.specs.Outside.{IfContents, IsLater, IsSite, store_at};
ghost use Rattle.local_tables.specs.Resolving.{CountApart, marks_over, resolved};

use crate::judging::{Look, step_down};
use cell_world::cells::{CellKey, Site, Status};
use cell_world::names::Name;
use cell_world::norm_keys::NormKey;
use cell_world::outside::World;
use global_tables::faults::StepFault;
use std::alloc::Global;

/// The status of the counted row of the map that contains the key; `None` where none does. It is told where at most
/// one row counts over a key, as in each sound image at an attached or suspect site.
///
/// The site is a shard's. Besides it the log alone is read, at most once for each marked row that contains the key: so
/// never where a Plain row and no marked one contains it. `Store`: the shard's store or the global one refused.
/// `Memory`: also where a world that tells nothing never came to an end. After an error nothing has changed but counts.
pub fn resolved_at<W: World>(
    alloc: Global,
    world: &mut W,
    site: Site,
    map: &Name,
    key: &NormKey,
) -> Result<Option<Status>, StepFault>
    requires site { IsSite (W.outside world.old) site }
    requires shard { 0 < site.0 }
    ensures found { IfOk result (λ status. IfContents (W.outside world.old).told (λ image. CountApart (global image).log (store_at (W.outside world.old) site image).locals map.now → status ≡ resolved (global image).log (store_at (W.outside world.old) site image).locals map.now key.now)) }
    ensures reads { IfContents (W.outside world.old).told (λ image. (W.outside world.new).global_reads ≤ (W.outside world.old).global_reads + marks_over (store_at (W.outside world.old) site image).locals map.now key.now) }
    ensures told { (W.outside world.new).told ≡ (W.outside world.old).told }
    ensures later { IsLater (W.outside world.old) (W.outside world.new) }
    ensures cause { IsErrOf result StepFault.Store → Rose ((W.outside world.old).faults_at site.0) ((W.outside world.new).faults_at site.0) ⊎ Rose ((W.outside world.old).faults_at 0) ((W.outside world.new).faults_at 0) }
{
    let mut from = CellKey::Local(*map, *key, u64::MAX);
    for _ in 0..u64::MAX {
        match step_down(alloc, world, site, map, key, &from)? {
            Look::Ends(status) => return Ok(status),
            Look::Goes(next) => from = next,
        }
    }
    Err(StepFault::Memory)
}
