//! Mappings that replace others.
ghost use Rattle.std.specs.Prelude.{◌≡◌, IfOk, OnOk, OnErr, [], ◌∷◌, option_to_list};
ghost use Rattle.std.specs.FinMap.{remove};
ghost use Rattle.cell_world.specs.Orders.{pair_cmp};
ghost use Rattle.cell_world.specs.Stores.{exchanged, without, with_all, piece_key};
ghost use Rattle.plain_model.specs.Steps.{no_exchange, becomes, with_status, with_location, with_token, added, cut_at, merged_with_next, exchanging, exchange_by};
ghost use Rattle.plain_tables.specs.Tables.{table};
ghost use Rattle.plain_tables.specs.Exchanging.{pieces_of};
ghost use Rattle.plain_tables.specs.State.{state_of};
ghost use Rattle.cell_world.specs.Keys.{low_of, end_of};
ghost use Rattle.cell_world.specs.Jobs.{part_of};
ghost use Rattle.cell_world.specs.Spelled.{listed};
ghost use Rattle.cell_world.specs.declared.spans.High.TheVariants.{At};

use crate::state::{Mappings, PlainTables};
use cell_world::cells::{Status, Token};
use cell_world::locations::Location;
use cell_world::memory::Memory;
use cell_world::names::Name;
use cell_world::norm_keys::NormKey;
use cell_world::operations::{Piece, Pieces};
use cell_world::spans::{High, Span};

/// Old mappings, and the new ones in their place.
#[derive(Clone, Copy)]
pub struct Exchange {
    pub olds: Pieces,
    pub news: Pieces,
}

/// At most one mapping.
fn at_most_one(piece: Option<Piece>) -> Pieces
    ensures { listed result ≡ option_to_list piece }
{
    Pieces {
        one: piece,
        two: None,
    }
}

/// Two mappings.
fn two(low: Piece, high: Piece) -> Pieces
    ensures { listed result ≡ low ∷ high ∷ [] }
{
    Pieces {
        one: Some(low),
        two: Some(high),
    }
}

/// Nothing is replaced.
fn no_exchange() -> Exchange
    ensures { pieces_of result ≡ no_exchange }
{
    Exchange {
        olds: at_most_one(None),
        news: at_most_one(None),
    }
}

/// One mapping in place of another.
fn instead(old: Piece, new: Piece) -> Exchange
    ensures { pieces_of result ≡ (old ∷ [], new ∷ []) }
{
    Exchange {
        olds: at_most_one(Some(old)),
        news: at_most_one(Some(new)),
    }
}

/// The mapping is gone.
pub fn removed(piece: &Option<Piece>) -> Exchange
    ensures { pieces_of result ≡ exchange_by (λ p. (p ∷ [], [])) piece.now }
{
    Exchange {
        olds: at_most_one(*piece),
        news: at_most_one(None),
    }
}

/// A new mapping is online and has no token.
pub fn added(name: &Name, location: &Location, span: &Option<Span>) -> Exchange
    ensures { pieces_of result ≡ added name.now location.now span.now }
{
    let Some(span) = span else {
        return no_exchange();
    };
    let new = Piece {
        map: *name,
        span: *span,
        location: *location,
        status: Status::Online,
        token: None,
    };
    Exchange {
        olds: at_most_one(None),
        news: at_most_one(Some(new)),
    }
}

/// The mapping has the status.
pub fn with_status(status: Status, piece: &Option<Piece>) -> Exchange
    ensures { pieces_of result ≡ becomes (with_status status) piece.now }
{
    match piece {
        Some(piece) => instead(*piece, Piece { status, ..*piece }),
        None => no_exchange(),
    }
}

/// The mapping is at the location.
pub fn with_location(location: &Location, piece: &Option<Piece>) -> Exchange
    ensures { pieces_of result ≡ becomes (with_location location.now) piece.now }
{
    let location = *location;
    match piece {
        Some(piece) => instead(*piece, Piece { location, ..*piece }),
        None => no_exchange(),
    }
}

/// The mapping has the token, or none.
pub fn with_token(token: Option<Token>, piece: &Option<Piece>) -> Exchange
    ensures { pieces_of result ≡ becomes (with_token token) piece.now }
{
    match piece {
        Some(piece) => instead(*piece, Piece { token, ..*piece }),
        None => no_exchange(),
    }
}

/// A part of a mapping.
fn part_of(piece: &Piece, low: NormKey, high: High) -> Piece
    ensures { result ≡ part_of piece.now low high }
{
    Piece {
        span: Span::Range(low, high),
        ..*piece
    }
}

/// Where a range ends; a point has no end.
fn end_of(span: &Span) -> Option<High>
    ensures { result ≡ end_of span.now }
{
    match span {
        Span::Range(_, end) => Some(*end),
        Span::Point(_) => None,
    }
}

/// A mapping cut at a key: both parts keep status, location and token.
fn cut(piece: &Piece, key: NormKey) -> Exchange
    ensures { pieces_of result ≡ exchange_by (λ end. (piece.now ∷ [], part_of piece.now (low_of piece.now.span) (At key) ∷ part_of piece.now key end ∷ [])) (end_of piece.now.span) }
{
    match end_of(&piece.span) {
        Some(end) => Exchange {
            olds: at_most_one(Some(*piece)),
            news: two(
                part_of(piece, *piece.span.low(), High::At(key)),
                part_of(piece, key, end),
            ),
        },
        None => no_exchange(),
    }
}

/// A mapping cut at a key, if both are there.
pub fn cut_at(key: &Option<NormKey>, piece: &Option<Piece>) -> Exchange
    ensures { pieces_of result ≡ cut_at key.now piece.now }
{
    match (piece, key) {
        (Some(piece), Some(key)) => cut(piece, *key),
        _ => no_exchange(),
    }
}

/// Two mappings as one.
fn merged(piece: &Piece, next: &Piece) -> Exchange
    ensures { pieces_of result ≡ exchange_by (λ end. (piece.now ∷ next.now ∷ [], part_of piece.now (low_of piece.now.span) end ∷ [])) (end_of next.now.span) }
{
    match end_of(&next.span) {
        Some(end) => Exchange {
            olds: two(*piece, *next),
            news: at_most_one(Some(part_of(piece, *piece.span.low(), end))),
        },
        None => no_exchange(),
    }
}

/// Takes out a mapping.
fn take_out(mappings: &mut Mappings, piece: &Piece)
    ensures { table pair_cmp mappings.new ≡ remove (table pair_cmp mappings.old) (piece_key piece.now) }
{
    mappings.remove(&(piece.map, *piece.span.low()));
}

/// Puts these mappings, in order. A slice, since a mapping alone isn't moved into a table.
fn put_each(mappings: Mappings, news: &[Piece]) -> Result<Mappings, Memory>
    ensures { IfOk result (λ after. table pair_cmp after ≡ with_all (table pair_cmp mappings) news.now) }
{
    let mut after = mappings;
    for new in news {
        if after.insert((new.map, *new.span.low()), *new).is_err() {
            return Err(Memory);
        }
    }
    Ok(after)
}

/// Takes out all of these mappings.
fn take_all(mappings: &mut Mappings, pieces: &Pieces)
    ensures { table pair_cmp mappings.new ≡ without (table pair_cmp mappings.old) (listed pieces.now) }
{
    if let Some(piece) = &pieces.one {
        take_out(mappings, piece);
    }
    if let Some(piece) = &pieces.two {
        take_out(mappings, piece);
    }
}

/// Puts all of these mappings.
fn put_all(mappings: Mappings, pieces: &Pieces) -> Result<Mappings, Memory>
    ensures { IfOk result (λ after. table pair_cmp after ≡ with_all (table pair_cmp mappings) (listed pieces.now)) }
{
    match (&pieces.one, &pieces.two) {
        (Some(one), Some(two)) => put_each(mappings, &[*one, *two]),
        (Some(one), None) => put_each(mappings, &[*one]),
        (None, Some(two)) => put_each(mappings, &[*two]),
        (None, None) => Ok(mappings),
    }
}

/// A copy of the mappings with the new ones in place of the old ones.
fn exchanged(mappings: &Mappings, exchange: &Exchange) -> Result<Mappings, Memory>
    ensures { IfOk result (λ after. table pair_cmp after ≡ exchanged (table pair_cmp mappings.now) (pieces_of exchange.now).0 (pieces_of exchange.now).1) }
{
    let Ok(mut after) = mappings.clone() else {
        return Err(Memory);
    };
    take_all(&mut after, &exchange.olds);
    put_all(after, &exchange.news)
}

impl PlainTables {
    /// A mapping and the one that begins at its high end, as one.
    pub fn merged_with_next(&self, piece: &Option<Piece>) -> Exchange
        ensures { pieces_of result ≡ merged_with_next (state_of self.now) piece.now }
    {
        let Some(piece) = piece else {
            return no_exchange();
        };
        match self.next_mapping(piece) {
            Some(next) => merged(piece, &next),
            None => no_exchange(),
        }
    }

    /// The new mappings are in place of the old ones. `Memory` changes nothing.
    pub fn exchange(&mut self, exchange: &Exchange) -> Result<(), Memory>
        ensures ok { OnOk result (state_of self.new ≡ exchanging (state_of self.old) (pieces_of exchange.now)) }
        ensures err { OnErr result (state_of self.new ≡ state_of self.old) }
    {
        self.mappings = exchanged(&self.mappings, exchange)?;
        Ok(())
    }
}
