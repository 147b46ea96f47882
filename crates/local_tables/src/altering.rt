//! Which local rows of a site the transactions of an operation alter.
ghost use Rattle.std.specs.Prelude.{◌≡◌, []};
ghost use Rattle.cell_world.specs.Sweep.{reaches};
ghost use Rattle.cell_world.specs.declared.cells.CellKey.{CellKey};
ghost use Rattle.local_tables.specs.Altering.{alters, begins_past, first_map, has_mark_of, is_new, is_old_of, is_past, is_past_hull};
ghost use Rattle.local_tables.specs.Resolving.{is_marked};

use cell_world::cells::{CellKey, LocalRow, Mark};
use cell_world::names::Name;
use cell_world::norm_keys::NormKey;
use cell_world::operations::Op;
use cell_world::spans::{High, Span};

/// A local transaction of an operation.
#[derive(Clone, Copy)]
pub enum Work {
    /// Its local step: the rows get their marks.
    ToMark,
    /// Its marks are taken back.
    ToUndo,
    /// Its marks go, once it is committed.
    ToSettle,
}

/// Whether the row is of the operation's map, and overlaps its hull.
fn reaches(op: &Op, row: &LocalRow) -> bool
    ensures { result ≡ reaches op.now row.now }
{
    row.map.cmp(&op.map).is_eq() && row.span.overlaps(&op.hull)
}

/// Whether a span with this low key begins past the end of the hull.
fn begins_past(hull: &Span, low: &NormKey) -> bool
    ensures { result ≡ begins_past hull.now low.now }
{
    match hull {
        Span::Range(_, High::At(high)) => !low.cmp(high).is_lt(),
        Span::Range(_, High::Max) => false,
        Span::Point(at) => at.cmp(low).is_lt(),
    }
}

/// Whether the row is of a later map than the operation's, or begins past the end of its hull.
fn is_past_hull(op: &Op, row: &LocalRow) -> bool
    ensures { result ≡ is_past_hull op.now row.now }
{
    op.map.cmp(&row.map).is_lt()
        || (row.map.cmp(&op.map).is_eq() && begins_past(&op.hull, row.span.low()))
}

fn is_old_of(number: u64, mark: Mark) -> bool
    ensures { result ≡ is_old_of number mark }
{
    match mark {
        Mark::Plain => false,
        Mark::Old(by) => by == number,
        Mark::New => false,
    }
}

fn is_marked(mark: Mark) -> bool
    ensures { result ≡ is_marked mark }
{
    match mark {
        Mark::Plain => false,
        Mark::Old(_) => true,
        Mark::New => true,
    }
}

/// Whether the mark is New.
pub fn is_new(mark: Mark) -> bool
    ensures { result ≡ is_new mark }
{
    match mark {
        Mark::Plain => false,
        Mark::Old(_) => false,
        Mark::New => true,
    }
}

/// Whether the row is Old of the operation of this number, or New and made by it.
pub fn has_mark_of(number: u64, row: &LocalRow) -> bool
    ensures { result ≡ has_mark_of number row.now }
{
    match row.mark {
        Mark::Plain => false,
        Mark::Old(by) => by == number,
        Mark::New => row.number == number,
    }
}

impl Work {
    /// Whether it alters the row.
    pub fn alters(self, op: &Op, row: &LocalRow) -> bool
        ensures { result ≡ alters self op.now row.now }
    {
        match self {
            Work::ToMark => reaches(op, row) && !is_old_of(op.number, row.mark),
            Work::ToUndo => reaches(op, row) && is_marked(row.mark),
            Work::ToSettle => has_mark_of(op.number, row),
        }
    }

    /// The least map of the rows that it alters.
    fn first_map(self, op: &Op) -> Name
        ensures { result ≡ first_map self op.now }
    {
        match self {
            Work::ToMark => op.map,
            Work::ToUndo => op.map,
            Work::ToSettle => Name::least(),
        }
    }

    /// The key from which on a scan finds all rows that it alters.
    pub fn first_key(self, op: &Op) -> CellKey
        ensures { result ≡ CellKey.Local (first_map self op.now) [] 0 }
    {
        CellKey::Local(self.first_map(op), NormKey::of_bytes(b"").unwrap(), 0)
    }

    /// Whether it alters neither this row nor one after it.
    pub fn is_past(self, op: &Op, row: &LocalRow) -> bool
        ensures { result ≡ is_past self op.now row.now }
    {
        match self {
            Work::ToMark => is_past_hull(op, row),
            Work::ToUndo => is_past_hull(op, row),
            Work::ToSettle => false,
        }
    }
}
