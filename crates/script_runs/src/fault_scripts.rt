//! Scripts with their replies, for runs in which calls fail.
//!
//! A proof about a function that names a table carries all of it, so each table is handed out by a function of its own.
use command_scripts::Line;

const RANGES: &[Line] = &[
    ("map m range int", "ok"),
    ("table m t", "ok"),
    ("shard m s/a", "ok"),
    ("shard m s/b", "ok"),
    ("add m 0 10 s/a", "ok"),
    ("add m 10 20 s/b", "ok"),
    ("split m 4", "ok"),
    ("offline m 4", "ok"),
    ("lock m 4 00000000-0000-0001-0000-000000000000", "ok"),
    ("move m 5 s/b 00000000-0000-0001-0000-000000000000", "ok"),
    ("unlock m 9 00000000-0000-0001-0000-000000000000", "ok"),
    ("online m 4", "ok"),
    ("find m 6", "4 10 s/b online"),
    ("merge m 4", "ok"),
    ("list m", "mappings 2\n0 4 s/a online\n4 20 s/b online"),
    ("offline m 0", "ok"),
    ("delete m 0", "ok"),
    ("unshard m s/a", "ok"),
    ("shards m", "shards 1\ns/b"),
    ("add m 0 2 s/b", "ok"),
];

/// Every command on range maps, across two sites.
pub fn ranges() -> &'static [Line] {
    RANGES
}

const POINTS: &[Line] = &[
    ("map m list int", "ok"),
    ("shard m s/a", "ok"),
    ("shard m s/b", "ok"),
    ("addpoint m 5 s/a", "ok"),
    ("addpoint m 6 s/b", "ok"),
    ("offline m 5", "ok"),
    ("move m 5 s/b", "ok"),
    ("lock m 5 00000000-0000-0001-0000-000000000000", "ok"),
    ("online m 5 00000000-0000-0001-0000-000000000000", "ok"),
    ("unlock m 5 00000000-0000-0001-0000-000000000000", "ok"),
    ("offline m 6", "ok"),
    ("delete m 6", "ok"),
    ("list m", "mappings 1\n5 s/b online"),
    ("offline m 5", "ok"),
    ("delete m 5", "ok"),
    ("unshard m s/b", "ok"),
    ("unshard m s/a", "ok"),
    ("unmap m", "ok"),
];

/// Every command on list maps, up to the end of the map.
pub fn points() -> &'static [Line] {
    POINTS
}

const SHORT: &[Line] = &[
    ("map m range int", "ok"),
    ("shard m s/a", "ok"),
    ("add m 0 10 s/a", "ok"),
    ("add m 5 20 s/a", "overlap"),
    ("offline m 5", "ok"),
    ("add m 10 20 s/a", "ok"),
];

/// Two that are in the way of each other, and a third beside them.
pub fn short() -> &'static [Line] {
    SHORT
}

const LEFT: &[Line] = &[
    ("map m range int", "ok"),
    ("shard m s/a", "ok"),
    ("shard m s/b", "ok"),
    ("add m 0 10 s/a", "ok"),
    ("offline m 0", "ok"),
    ("move m 0 s/b", "ok"),
    ("split m 4", "ok"),
    ("delete m 0", "ok"),
];

/// A mapping that is added, goes to another site, and goes.
pub fn left() -> &'static [Line] {
    LEFT
}
