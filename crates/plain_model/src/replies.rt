//! What a session is told.
ghost use Rattle.std.specs.Prelude.{◌≡◌};
ghost use Rattle.plain_model.specs.Summary.{sort_of};

use cell_world::cells::{KeyType, Status};
use cell_world::items::{Items, RowBytes};
use cell_world::locations::Location;
use cell_world::norm_keys::NormKey;
use cell_world::operations::Piece;
use cell_world::spans::Span;

/// Why a command is refused. A refused command changes nothing.
#[derive(Clone, Copy, Debug, PartialEq, Eq)]
pub enum Refusal {
    /// No map has this name.
    NoMap,
    /// A map has this name.
    MapExists,
    /// The map has a shard.
    MapInUse,
    /// The world knows no such location.
    NoLocation,
    /// The location is no shard of the map.
    NotAShard,
    /// The location is a shard of the map.
    ShardExists,
    /// A mapping of the map is on it, or a standing job of the map has it as target.
    ShardInUse,
    /// The command isn't for this kind of map.
    WrongKind,
    /// The low key isn't less than the high end.
    BadRange,
    /// A mapping shares a key with the new span. In `resolve`: one at another site.
    Overlap,
    /// The key has no owner. In `job`: no one mapping holds the whole range.
    NoMapping,
    /// The mapping is online.
    NotOffline,
    /// The mapping has that status. In `unlock`: it has no token.
    SameStatus,
    /// The mapping has a token and the command gives none or another. In `lock`, `job` and `resolve`: it has a token.
    Locked,
    /// The key is the low key of its mapping.
    BadSplit,
    /// No mapping begins at the high end, or it has another location, status or token.
    NotMergeable,
    /// A row stands under a key of the mapping.
    RowsPresent,
    /// The owner is offline.
    Offline,
    /// The connection was ended.
    Ended,
    /// The map has no such table.
    NoTable,
    /// The map has this table.
    TableExists,
    /// The site is Detached.
    Detached,
    /// The site is Suspect.
    Unresolved,
    /// The site isn't in the state that the command needs.
    Attached,
    /// So many differences over all maps, at least 1.
    DifferencesLeft(u64),
    /// So many stray rows, at least 1.
    StrayRows(u64),
    /// No job has this number.
    NoJob,
    /// The row isn't there. In `resolve`: no difference has this number.
    Absent,
    /// Source and target are one location.
    SameShard,
    /// The session has a connection of this number, live or ended.
    NumberInUse,
    /// A limit is reached.
    Full,
    /// The session has no connection of this number.
    NoConnection,
    /// The site is source or target of a job that has a batch under way.
    JobInProgress,
    /// Another session's `step` or `run` of this job hasn't ended.
    JobRunning,
    /// A key word isn't a key of the map's type.
    BadKey,
}

/// Which side has a mapping of a part of the key space.
#[derive(Clone, Copy, Debug, PartialEq, Eq)]
pub enum Label {
    GlobalOnly,
    ShardOnly,
    /// Both have one, and their statuses differ.
    Both,
}

/// A part of the key space of which a site and the global store do not say the same.
#[derive(Clone, Copy, PartialEq, Eq)]
pub struct Difference {
    pub span: Span,
    pub label: Label,
    /// By the global store; none where it has no mapping of the part at this site.
    pub global: Option<Status>,
    /// By the site's local rows.
    pub shard: Option<Status>,
}

/// The reply to a command, one variant for each form. A reply that shows keys holds their type.
#[derive(Drop)]
pub enum Reply {
    Ok,
    /// To `find`.
    Mapping(KeyType, Piece),
    /// To `list`, in key order.
    Mappings(KeyType, Items<Piece>),
    /// To `shards`, in byte order.
    Shards(Items<Location>),
    /// To `open`: where the rows of the key are.
    At(Location),
    /// To `get`.
    Row(RowBytes),
    /// To `peek`: a span that the cache knows, and the place in the history at which it was learnt.
    Known(KeyType, Span, Location, u64),
    /// To `peek`.
    Unknown,
    /// To `differences`, in key order.
    Differences(KeyType, Items<Difference>),
    /// To `discard`: the number of rows.
    Discarded(u32),
    /// To `job`: its number.
    Job(u32),
    /// To `step`: where the next batch begins.
    Cursor(KeyType, NormKey),
    /// To `step` and `run`: the job of this number is finished.
    Done(u32),
    Refused(Refusal),
    /// The command would conflict with the operation of this number, which another session has going. Nothing changed.
    Pending(u64),
    /// A store call failed. The command was done as a whole or not at all.
    Fault,
    /// Want of memory. The command wasn't done, and the run ends.
    Memory,
}

/// The four sorts of replies, by which the status of a run goes.
#[derive(Clone, Copy, Debug, PartialEq, Eq)]
pub enum Sort {
    /// `ok` or an answer.
    Good,
    /// A refusal or `pending`.
    Refused,
    /// `fault`.
    Fault,
    /// `memory`.
    Memory,
}

impl Reply {
    /// Its sort.
    pub fn sort(&self) -> Sort
        ensures { result ≡ sort_of self.now }
    {
        match self {
            Reply::Refused(_) | Reply::Pending(_) => Sort::Refused,
            Reply::Fault => Sort::Fault,
            Reply::Memory => Sort::Memory,
            _ => Sort::Good,
        }
    }
}
