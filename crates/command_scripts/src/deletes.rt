//! Scripts on mappings that go.
use crate::Script;

pub static SCRIPTS: [Script; 3] = [
    Script {
        about: "delete",
        lines: &[
            ("map m range int", "ok"),
            ("shard m s/a", "ok"),
            ("table m t", "ok"),
            // no-map and bad-key
            ("delete x y", "no-map"),
            ("delete x 5", "no-map"),
            // bad-key and no-mapping
            ("delete m y", "bad-key"),
            ("delete m 5", "no-mapping"),
            ("add m 0 10 s/a", "ok"),
            ("lock m 5 00000000-0000-0001-0000-000000000000", "ok"),
            // locked and not-offline, without a token and with another
            ("delete m 5", "locked"),
            ("delete m 5 6f9619ff-8b86-d011-b42d-00cf4fc964ff", "locked"),
            ("open 1 m 5", "at s/a"),
            ("put 1 t 1 0x01", "ok"),
            // not-offline and rows-present
            (
                "delete m 5 00000000-0000-0001-0000-000000000000",
                "not-offline",
            ),
            ("offline m 5 00000000-0000-0001-0000-000000000000", "ok"),
            ("delete m 5", "locked"),
            (
                "delete m 5 00000000-0000-0001-0000-000000000000",
                "rows-present",
            ),
            ("online m 5 00000000-0000-0001-0000-000000000000", "ok"),
            ("open 2 m 5", "at s/a"),
            ("del 2 t 1", "ok"),
            (
                "delete m 5 00000000-0000-0001-0000-000000000000",
                "not-offline",
            ),
            ("offline m 5 00000000-0000-0001-0000-000000000000", "ok"),
            ("delete m 9 00000000-0000-0001-0000-000000000000", "ok"),
            (
                "delete m 9 00000000-0000-0001-0000-000000000000",
                "no-mapping",
            ),
            ("list m", "mappings 0"),
        ],
    },
    Script {
        about: "delete: rows of another map and rows beside the mapping aren't in the way",
        lines: &[
            ("map m range int", "ok"),
            ("map n range int", "ok"),
            ("shard m s/a", "ok"),
            ("shard n s/a", "ok"),
            ("table m t", "ok"),
            ("table n t", "ok"),
            ("add m 0 10 s/a", "ok"),
            ("add m 10 20 s/a", "ok"),
            ("add n 0 10 s/a", "ok"),
            ("open 1 n 5", "at s/a"),
            ("put 1 t 1 0x01", "ok"),
            ("open 2 m 10", "at s/a"),
            ("put 2 t 1 0x02", "ok"),
            ("offline m 0", "ok"),
            ("delete m 0", "ok"),
            ("list m", "mappings 1\n10 20 s/a online"),
            ("list n", "mappings 1\n0 10 s/a online"),
            ("get 1 t 1", "row 0x01"),
            ("get 2 t 1", "row 0x02"),
        ],
    },
    Script {
        about: "delete and move of a point",
        lines: &[
            ("map l list int", "ok"),
            ("shard l s/a", "ok"),
            ("shard l s/b", "ok"),
            ("table l t", "ok"),
            ("addpoint l 5 s/a", "ok"),
            ("addpoint l 6 s/a", "ok"),
            ("open 1 l 5", "at s/a"),
            ("put 1 t 1 0x01", "ok"),
            ("offline l 5", "ok"),
            ("offline l 6", "ok"),
            ("move l 5 s/b", "rows-present"),
            ("delete l 5", "rows-present"),
            ("move l 6 s/b", "ok"),
            ("find l 6", "6 s/b offline"),
            ("delete l 6", "ok"),
            ("list l", "mappings 1\n5 s/a offline"),
        ],
    },
];
