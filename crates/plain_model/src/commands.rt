//! What a session may ask.
use cell_world::cells::{KeyType, MapKind, Token};
use cell_world::items::RowBytes;
use cell_world::key_texts::KeyText;
use cell_world::locations::Location;
use cell_world::names::Name;

/// The end of a range as it is written.
#[derive(Clone, Copy, PartialEq, Eq)]
pub enum HighText {
    At(KeyText),
    /// The word `max`: unbounded.
    Max,
}

/// Whose word holds where a shard and the global store differ.
#[derive(Clone, Copy, Debug, PartialEq, Eq)]
pub enum Side {
    Shard,
    Global,
}

/// A command, with its words in order.
#[derive(Drop)]
pub enum Command {
    /// A new empty map, its kind and the type of its keys.
    Map(Name, MapKind, KeyType),
    /// The map is gone, and its tables.
    Unmap(Name),
    /// The location is a shard of the map.
    Shard(Name, Location),
    /// The location is no shard of the map any more.
    Unshard(Name, Location),
    /// A new table of a map.
    Table(Name, Name),
    /// A new online mapping of a range, from a low key up to an end.
    Add(Name, KeyText, HighText, Location),
    /// A new online mapping of one key of a list map.
    Addpoint(Name, KeyText, Location),
    /// The mapping of a key is gone. From here to `Merge` the last word is the token of a locked mapping.
    Delete(Name, KeyText, Option<Token>),
    Offline(Name, KeyText, Option<Token>),
    Online(Name, KeyText, Option<Token>),
    /// The mapping of a key is at the location from then on.
    Move(Name, KeyText, Location, Option<Token>),
    /// The mapping of a key is cut at the key.
    Split(Name, KeyText, Option<Token>),
    /// The mapping of a key and the next one are one.
    Merge(Name, KeyText, Option<Token>),
    /// The mapping of a key gets the token.
    Lock(Name, KeyText, Token),
    Unlock(Name, KeyText, Token),
    /// Asks for the mapping of a key.
    Find(Name, KeyText),
    /// Asks for all mappings of a map.
    List(Name),
    /// Asks for the shards of a map.
    Shards(Name),
    /// Connection of this number, from 1 to 64, to the rows under a key.
    Open(u32, Name, KeyText),
    Close(u32),
    /// Under a connection: the row of this table and number has these bytes.
    Put(u32, Name, u64, RowBytes),
    Get(u32, Name, u64),
    Del(u32, Name, u64),
    /// Asks the cache alone for the span of a key.
    Peek(Name, KeyText),
    /// The site is neither read nor written any more.
    Detach(Location),
    /// The site is Suspect: it is compared with the global store.
    Attach(Location),
    /// Asks for the differences of a site and a map.
    Differences(Location, Name),
    /// Resolves the difference of this number, from 1, by the word of one side.
    Resolve(Location, Name, u32, Side),
    /// Removes stray rows of a site.
    Discard(Location),
    /// The site takes part again.
    Clear(Location),
    /// A new job that moves a range to a location, in batches of this many rows, from 1 to 100,000.
    Job(Name, KeyText, HighText, Location, u32),
    /// Moves one batch of a job.
    Step(u32),
    /// Moves all batches of a job.
    Run(u32),
}

/// A line of a script: a command of a session.
#[derive(Drop)]
pub struct Asked {
    /// From 1.
    pub session: u32,
    pub command: Command,
}
