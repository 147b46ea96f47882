//! The sites of an operation.
ghost use Rattle.std.specs.Prelude.{◌≡◌, ◌↔◌, option_to_list};
ghost use Rattle.cell_world.specs.Keys.{is_among};
ghost use Rattle.cell_world.specs.Lists.{IsOneOf};
ghost use Rattle.cell_world.specs.Operations as operation;
ghost use Rattle.cell_world.specs.Spelled.{listed};
ghost use Rattle.cell_world.specs.Texts.{Text};
ghost use Rattle.op_log.specs.Sites.{AreAtMostTwo, AreInOrder, locations_in, with_site, with_sites};

use cell_world::locations::Location;
use cell_world::operations::{Extra, Op, Piece, Pieces};

/// At most two locations, a second one only beside a first.
#[derive(Clone, Copy, PartialEq, Eq)]
pub struct Sites {
    pub one: Option<Location>,
    pub two: Option<Location>,
}

/// The sites of an operation: those of its mappings, and of the job that it puts, each once, where it has at most two, as each operation has that is lawful on a sound image. Takes no memory.
pub fn sites_of(op: &Op) -> Sites
    ensures all { AreAtMostTwo (operation.sites_of op.now) → (location : Text) → IsOneOf (locations_in result) location ↔ IsOneOf (operation.sites_of op.now) location }
    ensures once { AreAtMostTwo (operation.sites_of op.now) → AreInOrder result }
{
    let none = Sites {
        one: None,
        two: None,
    };
    let olds = with_pieces(none, &op.olds);
    let both = with_pieces(olds, &op.news);
    with_extra(both, &op.extra)
}

/// The sites, and this one where it isn't among them.
fn with_location(sites: Sites, location: &Location) -> Sites
    ensures { result ≡ with_site sites location.now }
{
    match (sites.one, sites.two) {
        (None, two) => Sites {
            one: Some(*location),
            two,
        },
        (Some(one), None) => {
            if one.cmp(location).is_eq() {
                sites
            } else {
                Sites {
                    one: Some(one),
                    two: Some(*location),
                }
            }
        }
        (Some(_), Some(_)) => sites,
    }
}

/// The sites, and that of the mapping.
fn with_piece(sites: Sites, piece: &Option<Piece>) -> Sites
    ensures { result ≡ with_sites sites (operation.locations_of (option_to_list piece.now)) }
{
    match piece {
        None => sites,
        Some(piece) => with_location(sites, &piece.location),
    }
}

/// The sites, and those of the mappings.
fn with_pieces(sites: Sites, pieces: &Pieces) -> Sites
    ensures { result ≡ with_sites sites (operation.locations_of (listed pieces.now)) }
{
    let first = with_piece(sites, &pieces.one);
    with_piece(first, &pieces.two)
}

/// The sites, and those of the job that is put.
fn with_extra(sites: Sites, extra: &Extra) -> Sites
    ensures { result ≡ with_sites sites (operation.sites_of_extra extra.now) }
{
    match extra {
        Extra::None => sites,
        Extra::JobPut(job) => {
            let source = with_location(sites, &job.source);
            with_location(source, &job.target)
        }
        Extra::JobDrop(_) => sites,
    }
}

/// Whether the location is among the sites of the mapping.
fn is_at(piece: &Option<Piece>, location: &Location) -> bool
    ensures { result ≡ is_among (operation.locations_of (option_to_list piece.now)) location.now }
{
    match piece {
        None => false,
        Some(piece) => location.cmp(&piece.location).is_eq(),
    }
}

/// Whether the location is among the sites of the mappings.
fn is_at_some(pieces: &Pieces, location: &Location) -> bool
    ensures { result ≡ is_among (operation.locations_of (listed pieces.now)) location.now }
{
    is_at(&pieces.one, location) || is_at(&pieces.two, location)
}

/// Whether the location is among those of the job that is put.
fn is_of_extra(extra: &Extra, location: &Location) -> bool
    ensures { result ≡ is_among (operation.sites_of_extra extra.now) location.now }
{
    match extra {
        Extra::None => false,
        Extra::JobPut(job) => location.cmp(&job.source).is_eq()
            || location.cmp(&job.target).is_eq(),
        Extra::JobDrop(_) => false,
    }
}

/// Whether the location is among the sites of the operation. Takes no memory.
pub fn is_site_of(op: &Op, location: &Location) -> bool
    ensures { result ≡ is_among (operation.sites_of op.now) location.now }
{
    is_at_some(&op.olds, location)
        || is_at_some(&op.news, location)
        || is_of_extra(&op.extra, location)
}
