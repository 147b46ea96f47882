//! Scripts on maps, their shards and their tables.
use crate::Script;

pub static SCRIPTS: [Script; 6] = [
    Script {
        about: "map: a name is taken once, whatever the kind and the type",
        lines: &[
            ("map m range int", "ok"),
            ("map m range int", "map-exists"),
            ("map m list guid", "map-exists"),
            ("map M list guid", "ok"),
            ("map n list bytes", "ok"),
        ],
    },
    Script {
        about: "unmap",
        lines: &[
            ("unmap m", "no-map"),
            ("map m range int", "ok"),
            ("map n range int", "ok"),
            ("shard n s/a", "ok"),
            ("shard m s/a", "ok"),
            ("unmap m", "map-in-use"),
            ("unshard m s/a", "ok"),
            ("table m t", "ok"),
            // a shard of another map isn't in the way
            ("unmap m", "ok"),
            ("unmap m", "no-map"),
            ("list m", "no-map"),
            // the name is free, and its tables are gone with the map
            ("map m list long", "ok"),
            ("shards m", "shards 0"),
            ("table m t", "ok"),
            ("table m t", "table-exists"),
        ],
    },
    Script {
        about: "shard",
        lines: &[
            // no-map and no-location
            ("shard x s/z", "no-map"),
            ("shard x s/a", "no-map"),
            ("map m range int", "ok"),
            ("map n list long", "ok"),
            ("shard m s/z", "no-location"),
            ("shard m s/a", "ok"),
            ("shard m s/a", "shard-exists"),
            ("shard m s/b", "ok"),
            ("shard n s/a", "ok"),
            ("shard n s/a", "shard-exists"),
        ],
    },
    Script {
        about: "unshard",
        lines: &[
            // no-map and no-location
            ("unshard x s/z", "no-map"),
            ("unshard x s/a", "no-map"),
            ("map m range int", "ok"),
            ("map n range int", "ok"),
            ("shard n s/a", "ok"),
            // no-location and not-a-shard
            ("unshard m s/z", "no-location"),
            // it is a shard of another map
            ("unshard m s/a", "not-a-shard"),
            ("shard m s/a", "ok"),
            ("add m 0 10 s/a", "ok"),
            ("unshard m s/a", "shard-in-use"),
            ("offline m 0", "ok"),
            ("unshard m s/a", "shard-in-use"),
            // a mapping of another map isn't in the way
            ("unshard n s/a", "ok"),
            ("unshard n s/a", "not-a-shard"),
            // nor is one at another location
            ("shard m s/b", "ok"),
            ("unshard m s/b", "ok"),
            ("delete m 0", "ok"),
            ("unshard m s/a", "ok"),
            ("unshard m s/a", "not-a-shard"),
            ("shards m", "shards 0"),
        ],
    },
    Script {
        about: "table",
        lines: &[
            ("table x t", "no-map"),
            ("map m range int", "ok"),
            ("map n list guid", "ok"),
            ("table m t", "ok"),
            ("table m t", "table-exists"),
            ("table m T", "ok"),
            ("table m m", "ok"),
            ("table n t", "ok"),
            ("table n t", "table-exists"),
        ],
    },
    Script {
        about: "shards, in byte order",
        lines: &[
            ("shards x", "no-map"),
            ("map m range int", "ok"),
            ("map n range int", "ok"),
            ("shards m", "shards 0"),
            ("shard m s/c", "ok"),
            ("shard m s/a", "ok"),
            ("shard n s/b", "ok"),
            ("shards m", "shards 2\ns/a\ns/c"),
            ("shards n", "shards 1\ns/b"),
            ("shard m s/b", "ok"),
            ("shards m", "shards 3\ns/a\ns/b\ns/c"),
            ("unshard m s/a", "ok"),
            ("shards m", "shards 2\ns/b\ns/c"),
        ],
    },
];
