//! Small scripts, each on one thing.
use crate::Script;

pub static SCRIPTS: [Script; 11] = [
    Script {
        about: "a name is taken",
        lines: &[("map m range int", "ok"), ("map m range int", "map-exists")],
    },
    Script {
        about: "all keys",
        lines: &[
            ("map m range int", "ok"),
            ("shard m s/a", "ok"),
            ("add m -2147483648 max s/a", "ok"),
            ("find m -2147483648", "-2147483648 max s/a online"),
            ("find m 2147483647", "-2147483648 max s/a online"),
        ],
    },
    Script {
        about: "mappings are disjoint",
        lines: &[
            ("map m range int", "ok"),
            ("shard m s/a", "ok"),
            ("add m 0 100 s/a", "ok"),
            ("add m 100 200 s/a", "ok"),
            ("add m 99 101 s/a", "overlap"),
        ],
    },
    Script {
        about: "a range has a key",
        lines: &[
            ("map m range int", "ok"),
            ("shard m s/a", "ok"),
            ("add m 5 5 s/a", "bad-range"),
            ("add m 6 5 s/a", "bad-range"),
        ],
    },
    Script {
        about: "a mapping goes when it is offline and has no row",
        lines: &[
            ("map m range int", "ok"),
            ("shard m s/a", "ok"),
            ("table m t", "ok"),
            ("add m 0 10 s/a", "ok"),
            ("delete m 3", "not-offline"),
            ("open 1 m 3", "at s/a"),
            ("put 1 t 1 0xff", "ok"),
            ("offline m 3", "ok"),
            ("delete m 3", "rows-present"),
            ("online m 3", "ok"),
            ("open 2 m 3", "at s/a"),
            ("del 2 t 1", "ok"),
            ("offline m 0", "ok"),
            ("delete m 0", "ok"),
            ("find m 0", "no-mapping"),
        ],
    },
    Script {
        about: "cut and merged",
        lines: &[
            ("map m range int", "ok"),
            ("shard m s/a", "ok"),
            ("add m 0 10 s/a", "ok"),
            ("split m 0", "bad-split"),
            ("split m 4", "ok"),
            ("list m", "mappings 2\n0 4 s/a online\n4 10 s/a online"),
            ("merge m 0", "ok"),
            ("list m", "mappings 1\n0 10 s/a online"),
            ("merge m 0", "not-mergeable"),
        ],
    },
    Script {
        about: "a lock",
        lines: &[
            ("map m range int", "ok"),
            ("shard m s/a", "ok"),
            ("add m 0 10 s/a", "ok"),
            ("lock m 3 6f9619ff-8b86-d011-b42d-00cf4fc964ff", "ok"),
            ("offline m 3", "locked"),
            ("offline m 3 6f9619ff-8b86-d011-b42d-00cf4fc964ff", "ok"),
            (
                "find m 3",
                "0 10 s/a offline 6f9619ff-8b86-d011-b42d-00cf4fc964ff",
            ),
            ("lock m 3 6f9619ff-8b86-d011-b42d-00cf4fc964ff", "locked"),
            ("unlock m 3 6f9619ff-8b86-d011-b42d-00cf4fc964ff", "ok"),
            (
                "unlock m 3 6f9619ff-8b86-d011-b42d-00cf4fc964ff",
                "same-status",
            ),
        ],
    },
    Script {
        about: "the order of guids is that of their keys, not of their texts",
        lines: &[
            ("map g range guid", "ok"),
            ("shard g s/a", "ok"),
            (
                "add g 00000000-0000-0000-0000-000000000002 10000000-0000-0000-0000-000000000001 s/a",
                "bad-range",
            ),
            (
                "add g 10000000-0000-0000-0000-000000000001 00000000-0000-0000-0000-000000000002 s/a",
                "ok",
            ),
        ],
    },
    Script {
        about: "bytes without the zeros at their end",
        lines: &[
            ("map b list bytes", "ok"),
            ("shard b s/a", "ok"),
            ("addpoint b 0x0100 s/a", "ok"),
            ("find b 0x01", "0x01 s/a online"),
            ("addpoint b 0x01 s/a", "overlap"),
            ("addpoint b 0x s/a", "ok"),
            ("addpoint b 0x00 s/a", "overlap"),
        ],
    },
    Script {
        about: "an ended connection",
        lines: &[
            ("map m range int", "ok"),
            ("shard m s/a", "ok"),
            ("table m t", "ok"),
            ("add m 0 10 s/a", "ok"),
            ("open 1 m 5", "at s/a"),
            ("put 1 t 1 0x", "ok"),
            ("offline m 5", "ok"),
            ("put 1 t 1 0x", "ended"),
            ("online m 5", "ok"),
            ("put 1 t 1 0x", "ended"),
            ("close 1", "ok"),
            ("put 1 t 1 0x", "no-connection"),
        ],
    },
    Script {
        about: "shards of a map",
        lines: &[
            ("map m range int", "ok"),
            ("shard m s/a", "ok"),
            ("shard m s/b", "ok"),
            ("shards m", "shards 2\ns/a\ns/b"),
            ("unshard m s/b", "ok"),
            ("unshard m s/a", "ok"),
            ("unmap m", "ok"),
            ("list m", "no-map"),
        ],
    },
];
