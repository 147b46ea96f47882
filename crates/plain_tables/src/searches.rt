//! Questions about a whole table.
ghost use Rattle.std.specs.Prelude.{◌≡◌, ◌&&◌, length, filter};
ghost use Rattle.std.specs.List.{list_any};
ghost use Rattle.std.specs.FinMap as map;
ghost use Rattle.cell_world.specs.Keys.{same, contains};
ghost use Rattle.cell_world.specs.Members.{members};
ghost use Rattle.plain_model.specs.Refusing.{overlaps_in};
ghost use Rattle.plain_tables.specs.State.{state_of};

use crate::state::PlainTables;
use cell_world::locations::Location;
use cell_world::names::Name;
use cell_world::operations::Piece;
use cell_world::spans::Span;

/// The mapping is of the map and shares a key with the span.
fn overlaps_in(name: &Name, span: &Span, piece: &Piece) -> bool
    ensures { result ≡ overlaps_in name.now span.now piece.now }
{
    name.cmp(&piece.map).is_eq() && piece.span.overlaps(span)
}

impl PlainTables {
    /// The map has a shard.
    pub fn has_shards(&self, name: &Name) -> bool
        ensures { result ≡ list_any (λ shard. same name.now shard.0) (members (state_of self.now).shards) }
    {
        self.all_shards().any(|shard| name.cmp(&shard.0).is_eq())
    }

    /// How many tables the map has.
    pub fn table_count(&self, name: &Name) -> usize
        ensures { result ≡ length (filter (λ table. same name.now table.0) (members (state_of self.now).tables)) }
    {
        self.all_tables()
            .filter(|table| name.cmp(&table.0).is_eq())
            .count()
    }

    /// A mapping of the map is at the location.
    pub fn has_mapping_at(&self, name: &Name, location: &Location) -> bool
        ensures { result ≡ list_any (λ p. same name.now p.map && same p.location location.now) (map.values (state_of self.now).mappings) }
    {
        self.pieces().any(|piece| {
            name.cmp(&piece.map).is_eq() && piece.location.cmp(location).is_eq()
        })
    }

    /// A job of the map has the location as target.
    pub fn is_target(&self, name: &Name, location: &Location) -> bool
        ensures { result ≡ list_any (λ j. same name.now j.map && same j.target location.now) (map.values (state_of self.now).jobs) }
    {
        self.all_jobs().any(|job| {
            name.cmp(&job.map).is_eq() && job.target.cmp(location).is_eq()
        })
    }

    /// A mapping of the map shares a key with the span.
    pub fn is_overlapped(&self, name: &Name, span: &Span) -> bool
        ensures { result ≡ list_any (overlaps_in name.now span.now) (map.values (state_of self.now).mappings) }
    {
        self.pieces().any(|piece| overlaps_in(name, span, piece))
    }

    /// A row stands under a key of the mapping.
    pub fn has_rows(&self, piece: &Piece) -> bool
        ensures { result ≡ list_any (λ row. same piece.now.map row.map && contains piece.now.span row.key) (map.keys (state_of self.now).rows) }
    {
        self.row_names().any(|row| {
            piece.map.cmp(&row.map).is_eq() && piece.span.contains(&row.key)
        })
    }
}
