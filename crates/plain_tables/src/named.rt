//! What a command's words name.
ghost use Rattle.std.specs.Prelude.{◌≡◌, ◌&&◌, find, option_map};
ghost use Rattle.std.specs.FinMap as map;
ghost use Rattle.cell_world.specs.Keys.{same, end_of};
ghost use Rattle.cell_world.specs.KeyForms.{normal_of, is_normal};
ghost use Rattle.cell_world.specs.Plain.{covers, owner};
ghost use Rattle.plain_model.specs.Refusing.{kind_of_map, type_of_map, key_in, high_in, range_between, range_in, mapping_of, location_of_mapping, begins_at, next_mapping, same_status, same_token, row_of};
ghost use Rattle.plain_tables.specs.State.{state_of, connection};

use crate::state::{Link, PlainTables};
use cell_world::cells::{KeyType, MapKind, RowName, Status, Token};
use cell_world::key_texts::KeyText;
use cell_world::locations::Location;
use cell_world::names::Name;
use cell_world::norm_keys::NormKey;
use cell_world::operations::Piece;
use cell_world::spans::{High, Span};
use key_space::keys::key_of;
use key_space::reading::read_key;
use plain_model::commands::HighText;

/// The key of the type that the word is, if it is one.
pub fn normal_of(kind: KeyType, text: &KeyText) -> Option<NormKey>
    ensures { result ≡ normal_of kind text.now }
{
    text.known();
    match read_key(kind, text.as_slice()) {
        Ok(key) => Some(key.normal()),
        Err(_) => None,
    }
}

/// Whether the bytes are the normal form of a key of this type.
pub fn is_normal(kind: KeyType, key: &NormKey) -> bool
    ensures { result ≡ is_normal kind key.now }
{
    key_of(kind, key).is_some()
}

/// The range from a key up to an end.
fn range_between(low: Option<NormKey>, high: Option<High>) -> Option<Span>
    ensures { result ≡ range_between low high }
{
    Some(Span::Range(low?, high?))
}

/// The span of a key.
pub fn point_at(key: Option<NormKey>) -> Option<Span>
    ensures { result ≡ option_map Span.Point key }
{
    Some(Span::Point(key?))
}

/// Where a mapping is.
pub fn location_of_mapping(piece: &Option<Piece>) -> Option<Location>
    ensures { result ≡ location_of_mapping piece.now }
{
    match piece {
        Some(piece) => Some(piece.location),
        None => None,
    }
}

/// The row that a connection, a table and a number name.
pub fn row_of(link: &Link, table: &Name, number: u64) -> RowName
    ensures { result ≡ row_of (connection link.now) table.now number }
{
    RowName {
        map: link.map,
        key: link.key,
        table: *table,
        number,
    }
}

/// The mapping is of the map, and contains the key.
fn covers(name: &Name, key: &NormKey, piece: &Piece) -> bool
    ensures { result ≡ covers name.now key.now piece.now }
{
    name.cmp(&piece.map).is_eq() && piece.span.contains(key)
}

pub fn same_status(a: Status, b: Status) -> bool
    ensures { result ≡ same_status a b }
{
    match (a, b) {
        (Status::Online, Status::Online) | (Status::Offline, Status::Offline) => true,
        _ => false,
    }
}

pub fn same_token(a: &Option<Token>, b: &Option<Token>) -> bool
    ensures { result ≡ same_token a.now b.now }
{
    match (a, b) {
        (None, None) => true,
        (Some(a), Some(b)) => a.0 == b.0,
        _ => false,
    }
}

/// The mapping begins where the span ends; a point has no end.
fn begins_at_end(span: &Span, piece: &Piece) -> bool
    ensures { result ≡ begins_at (end_of span.now) piece.now }
{
    match span {
        Span::Range(_, High::At(end)) => end.cmp(piece.span.low()).is_eq(),
        _ => false,
    }
}

/// The second mapping begins at the high end of the first and agrees with it in location, status and token.
fn is_next(piece: &Piece, next: &Piece) -> bool
    ensures { result ≡ (same piece.now.map next.now.map && (begins_at (end_of piece.now.span) next.now && (same piece.now.location next.now.location && (same_status piece.now.status next.now.status && same_token piece.now.token next.now.token)))) }
{
    piece.map.cmp(&next.map).is_eq()
        && begins_at_end(&piece.span, next)
        && piece.location.cmp(&next.location).is_eq()
        && same_status(piece.status, next.status)
        && same_token(&piece.token, &next.token)
}

impl PlainTables {
    pub fn kind_of_map(&self, name: &Name) -> Option<MapKind>
        ensures { result ≡ kind_of_map (state_of self.now) name.now }
    {
        match self.map_at(name) {
            Some((kind, _)) => Some(kind),
            None => None,
        }
    }

    pub fn type_of_map(&self, name: &Name) -> Option<KeyType>
        ensures { result ≡ type_of_map (state_of self.now) name.now }
    {
        match self.map_at(name) {
            Some((_, kind)) => Some(kind),
            None => None,
        }
    }

    /// The key of the map's type that a word is.
    pub fn key_in(&self, name: &Name, text: &KeyText) -> Option<NormKey>
        ensures { result ≡ key_in (state_of self.now) name.now text.now }
    {
        match self.type_of_map(name) {
            Some(kind) => normal_of(kind, text),
            None => None,
        }
    }

    /// The end that a word is.
    pub fn high_in(&self, name: &Name, high: &HighText) -> Option<High>
        ensures { result ≡ high_in (state_of self.now) name.now high.now }
    {
        match high {
            HighText::At(text) => match self.key_in(name, text) {
                Some(key) => Some(High::At(key)),
                None => None,
            },
            HighText::Max => Some(High::Max),
        }
    }

    /// The range from one word up to another.
    pub fn range_in(&self, name: &Name, low: &KeyText, high: &HighText) -> Option<Span>
        ensures { result ≡ range_in (state_of self.now) name.now low.now high.now }
    {
        range_between(self.key_in(name, low), self.high_in(name, high))
    }

    /// The first mapping of a map that contains the key.
    fn covering(&self, name: &Name, key: &NormKey) -> Option<Piece>
        ensures { result ≡ find (covers name.now key.now) (map.values (state_of self.now).mappings) }
    {
        self.pieces()
            .find(|piece| covers(name, key, piece))
            .copied()
    }

    /// The mapping that contains the key, if the key is one of the map's type.
    pub fn owner(&self, name: &Name, key: &NormKey) -> Option<Piece>
        ensures { result ≡ owner (state_of self.now) name.now key.now }
    {
        match self.map_at(name) {
            Some((_, kind)) if is_normal(kind, key) => self.covering(name, key),
            _ => None,
        }
    }

    /// The mapping that contains the key that the word is.
    pub fn mapping_of(&self, name: &Name, text: &KeyText) -> Option<Piece>
        ensures { result ≡ mapping_of (state_of self.now) name.now text.now }
    {
        match self.key_in(name, text) {
            Some(key) => self.owner(name, &key),
            None => None,
        }
    }

    /// The mapping that begins at the high end of this one and agrees with it in location, status and token.
    pub fn next_mapping(&self, piece: &Piece) -> Option<Piece>
        ensures { result ≡ next_mapping (state_of self.now) piece.now }
    {
        self.pieces().find(|next| is_next(piece, next)).copied()
    }
}
