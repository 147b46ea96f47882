//! The operations that exchange one mapping or two, and their plans.
ghost use Rattle.std.specs.Prelude.{◌≡◌, true, IfOk, IfErr, IfSome, IsTrue};
ghost use Rattle.cell_world.specs.Jobs.{part_of};
ghost use Rattle.cell_world.specs.Outside.{IfContents};
ghost use Rattle.cell_world.specs.Spelled.{is_spelled};
ghost use Rattle.map_ops.specs.Planning.{IsLongPlan};
ghost use Rattle.op_log.specs.ShortChanges.{IsFreeToken};
ghost use Rattle.mapping_plans.specs.Exchanges.{PlansOp, PlansSome, exchange_op, no_piece, one_piece, two_pieces};

use cell_world::cells::{Cell, Token};
use cell_world::norm_keys::NormKey;
use cell_world::operations::{Extra, Op, Piece, Pieces};
use cell_world::outside::World;
use cell_world::spans::{High, Span};
use map_ops::refusals::is_location;
use plain_model::plans::{Plan, PlanStop};

/// The number of tokens that are jobs': those below.
const JOB_TOKENS: u128 = 18_446_744_073_709_551_616;

/// No mapping.
pub fn no_piece() -> Pieces
    ensures { result ≡ no_piece }
{
    Pieces {
        one: None,
        two: None,
    }
}

/// One mapping.
pub fn one_piece(piece: Piece) -> Pieces
    ensures { result ≡ one_piece piece }
{
    Pieces {
        one: Some(piece),
        two: None,
    }
}

/// Two mappings, the lower one first.
pub fn two_pieces(low: Piece, high: Piece) -> Pieces
    ensures { result ≡ two_pieces low high }
{
    Pieces {
        one: Some(low),
        two: Some(high),
    }
}

/// The mapping over a range instead of its own span.
pub fn part_of(piece: &Piece, low: NormKey, end: High) -> Piece
    ensures { result ≡ part_of piece.now low end }
{
    Piece {
        map: piece.map,
        span: Span::Range(low, end),
        location: piece.location,
        status: piece.status,
        token: piece.token,
    }
}

/// The operation by which mappings of the map of this one become others, without a number yet.
pub fn exchange_op(piece: &Piece, hull: Span, olds: Pieces, news: Pieces) -> Op
    ensures { result ≡ exchange_op piece.now.map hull olds news }
{
    Op {
        number: 0,
        map: piece.map,
        hull,
        olds,
        news,
        extra: Extra::None,
    }
}

/// Whether the token is no job's.
pub fn is_free(token: &Option<Token>) -> bool
    ensures free { result ≡ true → IsFreeToken token.now }
    ensures job { IsFreeToken token.now → result ≡ true }
{
    match token {
        None => true,
        Some(token) => token.0 >= JOB_TOKENS,
    }
}

/// The plan of an operation on a mapping that no refusal keeps from it. There is none where the world doesn't know the
/// mapping's location, or its token is a job's, which is answered as want of memory: a core begins over no store that
/// names an unknown location, and no script has a job's token.
pub fn plan_op<W: World>(world: &W, piece: &Piece, op: Op) -> Result<Plan, PlanStop>
    ensures plans { IfContents (W.outside world.now).told (PlansOp piece.now op result) }
    ensures plan { IfOk result (λ plan. plan ≡ Plan.Long op) }
    ensures memory { IfErr result (λ stop. stop ≡ PlanStop.Memory) }
{
    if is_location(world, &piece.location) && is_free(&piece.token) {
        Ok(Plan::Long(op))
    } else {
        Err(PlanStop::Memory)
    }
}

/// The plan of an operation on a mapping as in `plan_op`, where there is an operation. `Memory`: also where there is none,
/// since a span is no range; in a range map each is one.
pub fn plan_some<W: World>(world: &W, piece: &Piece, op: Option<Op>) -> Result<Plan, PlanStop>
    requires { IfSome op (λ op. IsTrue (is_spelled (Cell.Log op))) }
    ensures plans { IfContents (W.outside world.now).told (PlansSome piece.now op result) }
    ensures long { IsLongPlan result }
    ensures memory { IfErr result (λ stop. stop ≡ PlanStop.Memory) }
{
    match op {
        Some(op) => plan_op(world, piece, op),
        None => Err(PlanStop::Memory),
    }
}
