//! Scripts on mappings that move.
use crate::Script;

pub static SCRIPTS: [Script; 1] = [Script {
    about: "move",
    lines: &[
        ("map m range int", "ok"),
        ("shard m s/a", "ok"),
        ("shard m s/b", "ok"),
        ("table m t", "ok"),
        // no-map and bad-key
        ("move x y s/z", "no-map"),
        ("move x 5 s/b", "no-map"),
        // bad-key and no-mapping
        ("move m y s/z", "bad-key"),
        ("move m 5 s/z", "no-mapping"),
        ("add m 0 10 s/a", "ok"),
        ("add m 10 20 s/a", "ok"),
        ("lock m 5 00000000-0000-0001-0000-000000000000", "ok"),
        // locked and no-location, without a token and with another
        ("move m 5 s/z", "locked"),
        (
            "move m 5 s/z 6f9619ff-8b86-d011-b42d-00cf4fc964ff",
            "locked",
        ),
        // no-location and not-a-shard
        (
            "move m 5 s/z 00000000-0000-0001-0000-000000000000",
            "no-location",
        ),
        (
            "move m 5 s/c 00000000-0000-0001-0000-000000000000",
            "not-a-shard",
        ),
        // same-shard and not-offline
        (
            "move m 5 s/a 00000000-0000-0001-0000-000000000000",
            "same-shard",
        ),
        ("open 1 m 5", "at s/a"),
        ("put 1 t 1 0x01", "ok"),
        // not-offline and rows-present
        (
            "move m 5 s/b 00000000-0000-0001-0000-000000000000",
            "not-offline",
        ),
        ("offline m 5 00000000-0000-0001-0000-000000000000", "ok"),
        (
            "move m 5 s/a 00000000-0000-0001-0000-000000000000",
            "same-shard",
        ),
        (
            "move m 5 s/b 00000000-0000-0001-0000-000000000000",
            "rows-present",
        ),
        ("online m 5 00000000-0000-0001-0000-000000000000", "ok"),
        ("open 2 m 5", "at s/a"),
        ("del 2 t 1", "ok"),
        (
            "move m 5 s/b 00000000-0000-0001-0000-000000000000",
            "not-offline",
        ),
        ("offline m 5 00000000-0000-0001-0000-000000000000", "ok"),
        ("move m 5 s/b", "locked"),
        ("move m 9 s/b 00000000-0000-0001-0000-000000000000", "ok"),
        (
            "list m",
            "mappings 2\n0 10 s/b offline 00000000-0000-0001-0000-000000000000\n10 20 s/a online",
        ),
        ("online m 0 00000000-0000-0001-0000-000000000000", "ok"),
        ("open 3 m 0", "at s/b"),
        ("open 4 m 10", "at s/a"),
    ],
}];
