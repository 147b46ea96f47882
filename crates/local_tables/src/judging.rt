//! One local row at or below a key, and what it says of a key.
ghost use Rattle.std.specs.Prelude.{◌≡◌, ◌≤◌, ◌<◌, ◌+◌, ◌⊎◌, IfOk, IsErrOf};
ghost use Rattle.cell_world.specs.Counts.{Rose};
ghost use Rattle.cell_world.specs.Images.{global};
ghost use Rattle.cell_world.specs.Meaning.{counts};
ghost use Rattle.cell_world.specs.Outside.{IfContents, IsLater, IsSite, store_at};
ghost use Rattle.local_tables.specs.Resolving.{CountApart, GoesBelow, IsFrom, Judges, Looks, NoneAbove, StaysFrom, left_after, log_reads, marks_left, reads_over};

use crate::below::key_below;
use cell_world::cells::{CellKey, LocalRow, Mark, Site, Status};
use cell_world::names::Name;
use cell_world::norm_keys::NormKey;
use cell_world::outside::World;
use global_tables::faults::StepFault;
use global_tables::lookups::log_row;
use global_tables::reads::floor_row;
use std::alloc::Global;

/// How the search for the counted row goes on.
pub enum Look {
    /// It is found, and has this status; or there is none.
    Ends(Option<Status>),
    /// It is at or below this key, if there is one.
    Goes(CellKey),
}

/// Whether a row counts: at most one read of the log, and none for a Plain row.
pub fn row_counts<W: World>(alloc: Global, world: &mut W, row: &LocalRow) -> Result<bool, StepFault>
    ensures found { IfOk result (λ is. IfContents (W.outside world.old).told (λ image. is ≡ counts (global image).log row.now)) }
    ensures reads { (W.outside world.new).global_reads ≤ (W.outside world.old).global_reads + log_reads row.now.mark }
    ensures told { (W.outside world.new).told ≡ (W.outside world.old).told }
    ensures later { IsLater (W.outside world.old) (W.outside world.new) }
    ensures cause { IsErrOf result StepFault.Store → Rose ((W.outside world.old).faults_at 0) ((W.outside world.new).faults_at 0) }
{
    match row.mark {
        Mark::Plain => Ok(true),
        Mark::Old(number) => {
            let logged = log_row(alloc, world, number)?;
            Ok(logged.is_some())
        }
        Mark::New => {
            let logged = log_row(alloc, world, row.number)?;
            Ok(logged.is_none())
        }
    }
}

/// On to the row just below this one, of the same map.
fn below_row(row: &LocalRow) -> Look
    ensures { GoesBelow row.now result }
{
    if row.number > 0 {
        return Look::Goes(CellKey::Local(row.map, *row.span.low(), row.number - 1));
    }
    match key_below(row.span.low()) {
        None => Look::Ends(None),
        Some(low) => Look::Goes(CellKey::Local(row.map, low, u64::MAX)),
    }
}

/// What a row says of a key: it is over it and counts; or it isn't over it and is Plain, and then none below is; or
/// the search goes on below it.
fn judge<W: World>(
    alloc: Global,
    world: &mut W,
    key: &NormKey,
    row: &LocalRow,
) -> Result<Look, StepFault>
    ensures judged { IfOk result (λ look. IfContents (W.outside world.old).told (λ image. Judges (global image).log key.now row.now look)) }
    ensures reads { (W.outside world.new).global_reads ≤ (W.outside world.old).global_reads + reads_over key.now row.now }
    ensures told { (W.outside world.new).told ≡ (W.outside world.old).told }
    ensures later { IsLater (W.outside world.old) (W.outside world.new) }
    ensures cause { IsErrOf result StepFault.Store → Rose ((W.outside world.old).faults_at 0) ((W.outside world.new).faults_at 0) }
{
    if row.span.contains(key) {
        if row_counts(alloc, world, row)? {
            return Ok(Look::Ends(Some(row.status)));
        }
    } else if row.mark == Mark::Plain {
        return Ok(Look::Ends(None));
    }
    Ok(below_row(row))
}

/// One step of the search: the greatest row at or below where it stands is judged.
pub fn step_down<W: World>(
    alloc: Global,
    world: &mut W,
    site: Site,
    map: &Name,
    key: &NormKey,
    from: &CellKey,
) -> Result<Look, StepFault>
    requires site { IsSite (W.outside world.old) site }
    requires shard { 0 < site.0 }
    ensures stays { IfOk result (λ look. IfContents (W.outside world.old).told (λ image. IsFrom map.now key.now from.now → StaysFrom map.now key.now look)) }
    ensures looked { IfOk result (λ look. IfContents (W.outside world.old).told (λ image. IsFrom map.now key.now from.now → CountApart (global image).log (store_at (W.outside world.old) site image).locals map.now → NoneAbove (global image).log (store_at (W.outside world.old) site image).locals map.now key.now from.now → Looks (global image).log (store_at (W.outside world.old) site image).locals map.now key.now look)) }
    ensures reads { IfContents (W.outside world.old).told (λ image. IsFrom map.now key.now from.now → (W.outside world.new).global_reads + left_after (store_at (W.outside world.old) site image).locals map.now key.now result ≤ (W.outside world.old).global_reads + marks_left (store_at (W.outside world.old) site image).locals map.now key.now from.now) }
    ensures told { (W.outside world.new).told ≡ (W.outside world.old).told }
    ensures later { IsLater (W.outside world.old) (W.outside world.new) }
    ensures cause { IsErrOf result StepFault.Store → Rose ((W.outside world.old).faults_at site.0) ((W.outside world.new).faults_at site.0) ⊎ Rose ((W.outside world.old).faults_at 0) ((W.outside world.new).faults_at 0) }
{
    let below: Option<LocalRow> = floor_row(alloc, world, site, from)?;
    match below {
        None => Ok(Look::Ends(None)),
        Some(row) => judge(alloc, world, key, &row),
    }
}
