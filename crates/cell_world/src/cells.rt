//! What the stores hold: ten kinds of cells, and the keys under which they stand.

use crate::items::RowBytes;
use crate::locations::Location;
use crate::names::Name;
use crate::norm_keys::NormKey;
use crate::operations::{JobRow, Op, Piece};
use crate::spans::Span;

/// The type of a map's keys.
#[derive(Clone, Copy, PartialEq, Eq)]
pub enum KeyType {
    /// 32 bits, signed.
    Int,
    /// 64 bits, signed.
    Long,
    /// 16 bytes.
    Guid,
    /// At most 128 bytes, without zero bytes at the end.
    Bytes,
    /// Ticks of 100 nanoseconds, from 0 to 3155378975999999999.
    Datetime,
    /// Ticks of 100 nanoseconds, 64 bits, signed.
    Timespan,
}

/// A range map binds ranges of keys to shards, a list map single keys.
#[derive(Clone, Copy, PartialEq, Eq)]
pub enum MapKind {
    Range,
    List,
}

/// An offline mapping refuses connections.
#[derive(Clone, Copy, PartialEq, Eq)]
pub enum Status {
    Offline,
    Online,
}

/// The lock of a mapping. Below 2^64 it is the number of the job that has it.
#[derive(Clone, Copy, PartialEq, Eq)]
pub struct Token(pub u128);

/// A store: 0 is the global one, and the n-th location, counted from 1, has store n.
#[derive(Clone, Copy, PartialEq, Eq)]
pub struct Site(pub u16);

impl Site {
    /// The global store.
    pub const GLOBAL: Site = Site(0);
}

/// Whether a shard takes part: a detached one isn't read or written, a suspect one is compared first.
#[derive(Clone, Copy, PartialEq, Eq)]
pub enum SiteState {
    Attached,
    Detached,
    Suspect,
}

/// A site state that has a cell. A site without one is attached.
#[derive(Clone, Copy, PartialEq, Eq)]
pub enum Away {
    Detached,
    Suspect,
}

/// How far an operation has come at a local row.
#[derive(Clone, Copy, PartialEq, Eq)]
pub enum Mark {
    /// No operation is under way here.
    Plain,
    /// To be deleted by the operation of this number.
    Old(u64),
    /// Made by the operation whose number is in the row's name.
    New,
}

/// The next numbers that are given.
#[derive(Clone, Copy, PartialEq, Eq)]
pub struct Counters {
    /// To an operation, from 1 to 2^63.
    pub operation: u64,
    /// To a job, from 1.
    pub job: u32,
}

/// A shard's own copy of a mapping at it.
#[derive(Clone, Copy, PartialEq, Eq)]
pub struct LocalRow {
    pub map: Name,
    /// The keys that it copies.
    pub span: Span,
    /// The operation that made it, or 0.
    pub number: u64,
    pub status: Status,
    /// Whether an operation is under way here.
    pub mark: Mark,
}

/// What names a row of a sharded table. Rows are ordered by these fields, in their order.
#[derive(Clone, Copy, PartialEq, Eq, PartialOrd, Ord)]
pub struct RowName {
    pub map: Name,
    pub key: NormKey,
    /// One of the map's tables.
    pub table: Name,
    /// Which of the rows of this key in this table.
    pub number: u64,
}

/// What a cell stands under. Keys are ordered by the kind, as listed here, and then by the fields in their order.
#[derive(Clone, Copy, PartialEq, Eq, PartialOrd, Ord)]
pub enum CellKey {
    Map(Name),
    /// A map, and the location of one of its shards.
    Shard(Name, Location),
    /// A map, and one of its tables.
    Table(Name, Name),
    /// A map, and the low key of a mapping.
    Piece(Name, NormKey),
    /// The number of an operation.
    Log(u64),
    /// The number of a job.
    Job(u32),
    Counter,
    SiteState(Location),
    /// A map, the low key, and the number of the operation that made the row.
    Local(Name, NormKey, u64),
    Row(RowName),
}

/// What a store holds under a key. All kinds but the last two stand in the global store, those two at shards.
#[derive(Drop)]
pub enum Cell {
    Map(Name, MapKind, KeyType),
    /// The location is a shard of the map.
    Shard(Name, Location),
    /// The map has the table.
    Table(Name, Name),
    /// A mapping.
    Piece(Piece),
    /// An operation that isn't committed.
    Log(Op),
    Job(JobRow),
    Counter(Counters),
    /// A site that isn't attached.
    SiteState(Location, Away),
    Local(LocalRow),
    Row(RowName, RowBytes),
}
