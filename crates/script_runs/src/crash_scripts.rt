//! Scripts with their replies, for runs that crash.
//!
//! A proof about a function that names a table carries all of it, so each table is handed out by a function of its own.
use command_scripts::Line;

const OFFLINE: &[Line] = &[
    ("map m range int", "ok"),
    ("shard m s/a", "ok"),
    ("shard m s/b", "ok"),
    ("add m 0 10 s/a", "ok"),
    ("offline m 0", "ok"),
];

/// A mapping that is taken offline.
pub fn offline() -> &'static [Line] {
    OFFLINE
}

const RANGES: &[Line] = &[
    ("map m range int", "ok"),
    ("shard m s/a", "ok"),
    ("shard m s/b", "ok"),
    ("add m 0 10 s/a", "ok"),
    ("split m 4", "ok"),
    ("offline m 4", "ok"),
    ("move m 4 s/b", "ok"),
    ("online m 4", "ok"),
    ("list m", "mappings 2\n0 4 s/a online\n4 10 s/b online"),
    ("merge m 0", "not-mergeable"),
    ("lock m 0 6f9619ff-8b86-d011-b42d-00cf4fc964ff", "ok"),
    ("split m 2", "locked"),
    ("split m 2 6f9619ff-8b86-d011-b42d-00cf4fc964ff", "ok"),
    ("offline m 0 6f9619ff-8b86-d011-b42d-00cf4fc964ff", "ok"),
    (
        "merge m 0 6f9619ff-8b86-d011-b42d-00cf4fc964ff",
        "not-mergeable",
    ),
    ("offline m 2 6f9619ff-8b86-d011-b42d-00cf4fc964ff", "ok"),
    ("merge m 0 6f9619ff-8b86-d011-b42d-00cf4fc964ff", "ok"),
    ("move m 3 s/b 6f9619ff-8b86-d011-b42d-00cf4fc964ff", "ok"),
    (
        "list m",
        "mappings 2\n0 4 s/b offline 6f9619ff-8b86-d011-b42d-00cf4fc964ff\n4 10 s/b online",
    ),
    ("unlock m 3 6f9619ff-8b86-d011-b42d-00cf4fc964ff", "ok"),
    ("online m 0", "ok"),
    ("merge m 0", "ok"),
    ("list m", "mappings 1\n0 10 s/b online"),
    ("delete m 5", "not-offline"),
    ("offline m 5", "ok"),
    ("delete m 5", "ok"),
    ("list m", "mappings 0"),
];

/// Ranges that are cut, locked, moved and joined, and go.
pub fn ranges() -> &'static [Line] {
    RANGES
}

const ROUNDS: &[Line] = &[
    ("map m range int", "ok"),
    ("shard m s/a", "ok"),
    ("shard m s/b", "ok"),
    ("shard m s/c", "ok"),
    ("add m 0 max s/a", "ok"),
    ("offline m 7", "ok"),
    ("move m 7 s/b", "ok"),
    ("move m 7 s/c", "ok"),
    ("move m 7 s/a", "ok"),
    ("split m 7", "ok"),
    ("move m 7 s/c", "ok"),
    ("online m 7", "ok"),
    ("online m 0", "ok"),
    ("list m", "mappings 2\n0 7 s/a online\n7 max s/c online"),
    ("offline m 7", "ok"),
    ("delete m 7", "ok"),
    ("add m 7 max s/a", "ok"),
    ("merge m 0", "ok"),
    ("list m", "mappings 1\n0 max s/a online"),
];

/// A mapping without an end that goes to each of three sites and back, and is added anew where it was.
pub fn rounds() -> &'static [Line] {
    ROUNDS
}

const POINTS: &[Line] = &[
    ("map m list int", "ok"),
    ("shard m s/a", "ok"),
    ("shard m s/b", "ok"),
    ("addpoint m 5 s/a", "ok"),
    ("addpoint m 6 s/a", "ok"),
    ("offline m 5", "ok"),
    ("lock m 5 00000000-0000-0001-0000-000000000000", "ok"),
    ("move m 5 s/b", "locked"),
    ("move m 5 s/b 00000000-0000-0001-0000-000000000000", "ok"),
    ("online m 5 00000000-0000-0001-0000-000000000000", "ok"),
    ("split m 5", "wrong-kind"),
    ("merge m 5", "wrong-kind"),
    (
        "list m",
        "mappings 2\n5 s/b online 00000000-0000-0001-0000-000000000000\n6 s/a online",
    ),
    ("unlock m 5 00000000-0000-0001-0000-000000000000", "ok"),
    ("offline m 5", "ok"),
    ("delete m 5", "ok"),
    ("addpoint m 5 s/a", "ok"),
    ("list m", "mappings 2\n5 s/a online\n6 s/a online"),
];

/// Keys of a list map that are locked, moved and deleted, beside one that stays.
pub fn points() -> &'static [Line] {
    POINTS
}
