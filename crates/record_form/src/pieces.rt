//! Mappings, and the operations that exchange them.
ghost use Rattle.record_form.specs.Reading.{Gives};
ghost use Rattle.record_form.specs.Kinds.{piece_at, pieces_at, exchange_at, op_at};

use crate::choices::{status, token};
use crate::jobs::extra;
use crate::locations::location;
use crate::names::name;
use crate::numbers::{byte, number_8};
use crate::spans::span;
use crate::stops::Stop;
use cell_world::names::Name;
use cell_world::operations::{Extra, Op, Piece, Pieces};

/// The mappings that an operation replaces, those that stand afterwards, and what it does to a job.
#[derive(Clone, Copy)]
pub(crate) struct Exchange {
    olds: Pieces,
    news: Pieces,
    extra: Extra,
}

/// A mapping of the map: its span, status, location and token.
#[tactic(auto, unfolding(crate::specs::Kinds::piece_at))]
pub(crate) fn piece(input: &mut &[u8], map: &Name) -> Result<Piece, Stop>
    ensures { Gives (piece_at map.now) input.old.now input.new.now result }
{
    let span = span(input)?;
    let status = status(input)?;
    let location = location(input)?;
    let token = token(input)?;
    Ok(Piece {
        map: *map,
        span,
        location,
        status,
        token,
    })
}

/// At most two mappings of the map: their number in one byte, and then they.
#[tactic(auto, unfolding(crate::specs::Kinds::pieces_at))]
pub(crate) fn pieces(input: &mut &[u8], map: &Name) -> Result<Pieces, Stop>
    ensures { Gives (pieces_at map.now) input.old.now input.new.now result }
{
    match byte(input, 0, 2)? {
        0 => Ok(Pieces {
            one: None,
            two: None,
        }),
        1 => {
            let one = piece(input, map)?;
            Ok(Pieces {
                one: Some(one),
                two: None,
            })
        }
        _ => {
            let one = piece(input, map)?;
            let two = piece(input, map)?;
            Ok(Pieces {
                one: Some(one),
                two: Some(two),
            })
        }
    }
}

/// What an operation exchanges.
#[tactic(auto, unfolding(crate::specs::Kinds::exchange_at))]
fn exchanged_pieces(input: &mut &[u8], map: &Name) -> Result<Exchange, Stop>
    ensures { Gives (exchange_at map.now) input.old.now input.new.now result }
{
    let olds = pieces(input, map)?;
    let news = pieces(input, map)?;
    let extra = extra(input)?;
    Ok(Exchange { olds, news, extra })
}

/// An operation: its number in 8 bytes, map, hull, olds, news and extra.
#[tactic(auto, unfolding(crate::specs::Kinds::op_at))]
pub(crate) fn op(input: &mut &[u8]) -> Result<Op, Stop>
    ensures { Gives op_at input.old.now input.new.now result }
{
    let number = number_8(input)?;
    let map = name(input)?;
    let hull = span(input)?;
    let Exchange { olds, news, extra } = exchanged_pieces(input, &map)?;
    Ok(Op {
        number,
        map,
        hull,
        olds,
        news,
        extra,
    })
}
