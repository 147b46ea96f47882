//! The first location that a cell names and the world doesn't know, for each kind of cell that names some.
ghost use Rattle.std.specs.Prelude.{◌≡◌, List, [], ◌∷◌, option_to_list};
ghost use Rattle.cell_world.specs.Operations.{locations_of, sites_of_extra};
ghost use Rattle.cell_world.specs.Spelled.{listed};
ghost use Rattle.plain_model.specs.Headline.{named_locations, first_unknown};

use cell_world::locations::Location;
use cell_world::operations::{Extra, JobRow, Op, Piece, Pieces};
use cell_world::outside::World;
use global_tables::rows::{AwayRow, Row, ShardRow};

/// What a cell that names locations says.
pub trait Naming: Row {
    /// The first location, in the order of its fields, that its cell names and the world doesn't know. Takes no memory.
    fn unknown<W: World>(&self, world: &W) -> Option<Location>
        ensures { result ≡ first_unknown (W.outside world.now).locations (named_locations (Self.cell_of self.now)) };
}

impl Naming for ShardRow {
    fn unknown<W: World>(&self, world: &W) -> Option<Location> {
        unknown_of(world, &self.location)
    }
}

impl Naming for Piece {
    fn unknown<W: World>(&self, world: &W) -> Option<Location> {
        unknown_of(world, &self.location)
    }
}

impl Naming for Op {
    fn unknown<W: World>(&self, world: &W) -> Option<Location> {
        let old = unknown_of_pieces(world, &self.olds);
        let new = unknown_of_pieces(world, &self.news);
        old.or(new).or(unknown_of_extra(world, &self.extra))
    }
}

impl Naming for JobRow {
    fn unknown<W: World>(&self, world: &W) -> Option<Location> {
        unknown_of(world, &self.source).or(unknown_of(world, &self.target))
    }
}

impl Naming for AwayRow {
    fn unknown<W: World>(&self, world: &W) -> Option<Location> {
        unknown_of(world, &self.location)
    }
}

/// The location, if the world doesn't know it.
fn unknown_of<W: World>(world: &W, location: &Location) -> Option<Location>
    ensures { result ≡ first_unknown (W.outside world.now).locations (location.now ∷ []) }
{
    match world.locate(location) {
        Some(_) => None,
        None => Some(*location),
    }
}

/// That of a mapping, if there is one.
fn unknown_of_piece<W: World>(world: &W, piece: &Option<Piece>) -> Option<Location>
    ensures { result ≡ first_unknown (W.outside world.now).locations (locations_of (option_to_list piece.now)) }
{
    match piece {
        None => None,
        Some(piece) => unknown_of(world, &piece.location),
    }
}

/// The first of at most two mappings.
fn unknown_of_pieces<W: World>(world: &W, pieces: &Pieces) -> Option<Location>
    ensures { result ≡ first_unknown (W.outside world.now).locations (locations_of (listed pieces.now)) }
{
    unknown_of_piece(world, &pieces.one).or(unknown_of_piece(world, &pieces.two))
}

/// The first of a job that an operation puts.
fn unknown_of_extra<W: World>(world: &W, extra: &Extra) -> Option<Location>
    ensures { result ≡ first_unknown (W.outside world.now).locations (sites_of_extra extra.now) }
{
    match extra {
        Extra::None => None,
        Extra::JobPut(job) => job.unknown(world),
        Extra::JobDrop(_) => None,
    }
}
