//! What a mapping's token, status and location allow.
ghost use Rattle.std.specs.Prelude.{◌≡◌, Some};
ghost use Rattle.plain_model.specs.Refusing.{has_token, locked, not_locked, not_offline, same_shard, same_status, same_token};

use cell_world::cells::{Status, Token};
use cell_world::locations::Location;
use cell_world::operations::Piece;

/// Whether the two are one token, or both none.
pub fn is_same_token(one: &Option<Token>, other: &Option<Token>) -> bool
    ensures { result ≡ same_token one.now other.now }
{
    match (one, other) {
        (None, None) => true,
        (Some(one), Some(other)) => one.0 == other.0,
        (Some(_), None) => false,
        (None, Some(_)) => false,
    }
}

/// Whether the two statuses are one.
pub fn is_same_status(one: Status, other: Status) -> bool
    ensures { result ≡ same_status one other }
{
    match (one, other) {
        (Status::Online, Status::Online) => true,
        (Status::Offline, Status::Offline) => true,
        (Status::Online, Status::Offline) => false,
        (Status::Offline, Status::Online) => false,
    }
}

/// Whether the mapping has a token, and the one that is given, if one is, doesn't open it.
pub fn is_locked(given: &Option<Token>, piece: &Piece) -> bool
    ensures { result ≡ (locked given.now (Some piece.now)).0 }
{
    piece.token.is_some() && !is_same_token(given, &piece.token)
}

/// Whether the mapping has a token.
pub fn has_token(piece: &Piece) -> bool
    ensures { result ≡ (has_token (Some piece.now)).0 }
{
    piece.token.is_some()
}

/// Whether the mapping has no token.
pub fn has_no_token(piece: &Piece) -> bool
    ensures { result ≡ (not_locked (Some piece.now)).0 }
{
    piece.token.is_none()
}

/// Whether the mapping is online.
pub fn is_online(piece: &Piece) -> bool
    ensures { result ≡ (not_offline (Some piece.now)).0 }
{
    is_same_status(Status::Online, piece.status)
}

/// Whether the mapping is at the location.
pub fn is_at(piece: &Piece, at: &Location) -> bool
    ensures { result ≡ (same_shard at.now (Some piece.now)).0 }
{
    piece.location.cmp(at).is_eq()
}
