//! Scripts on mappings that are merged.
use crate::Script;

pub static SCRIPTS: [Script; 2] = [
    Script {
        about: "merge",
        lines: &[
            ("map m range int", "ok"),
            ("map l list int", "ok"),
            ("shard m s/a", "ok"),
            ("shard m s/b", "ok"),
            ("shard l s/a", "ok"),
            ("addpoint l 1 s/a", "ok"),
            ("addpoint l 2 s/a", "ok"),
            // no-map and bad-key
            ("merge x y", "no-map"),
            ("merge x 5", "no-map"),
            // wrong-kind and bad-key
            ("merge l y", "wrong-kind"),
            ("merge l 1", "wrong-kind"),
            // bad-key and no-mapping
            ("merge m y", "bad-key"),
            ("merge m 5", "no-mapping"),
            ("add m 0 10 s/a", "ok"),
            ("merge m 5", "not-mergeable"),
            ("lock m 5 00000000-0000-0001-0000-000000000000", "ok"),
            // locked and not-mergeable
            ("merge m 5", "locked"),
            ("merge m 5 6f9619ff-8b86-d011-b42d-00cf4fc964ff", "locked"),
            (
                "merge m 5 00000000-0000-0001-0000-000000000000",
                "not-mergeable",
            ),
            ("unlock m 5 00000000-0000-0001-0000-000000000000", "ok"),
            // a gap
            ("add m 11 20 s/a", "ok"),
            ("merge m 5", "not-mergeable"),
            // another location
            ("add m 10 11 s/b", "ok"),
            ("merge m 5", "not-mergeable"),
            // another status
            ("offline m 10", "ok"),
            ("move m 10 s/a", "ok"),
            ("merge m 5", "not-mergeable"),
            ("offline m 5", "ok"),
            ("online m 10", "ok"),
            ("merge m 5", "not-mergeable"),
            ("online m 5", "ok"),
            // a token on one of them, on the other, and two tokens
            ("lock m 10 00000000-0000-0001-0000-000000000000", "ok"),
            ("merge m 5", "not-mergeable"),
            ("lock m 5 6f9619ff-8b86-d011-b42d-00cf4fc964ff", "ok"),
            (
                "merge m 5 6f9619ff-8b86-d011-b42d-00cf4fc964ff",
                "not-mergeable",
            ),
            ("unlock m 10 00000000-0000-0001-0000-000000000000", "ok"),
            (
                "merge m 5 6f9619ff-8b86-d011-b42d-00cf4fc964ff",
                "not-mergeable",
            ),
            ("unlock m 5 6f9619ff-8b86-d011-b42d-00cf4fc964ff", "ok"),
            ("lock m 5 00000000-0000-0001-0000-000000000000", "ok"),
            ("lock m 10 00000000-0000-0001-0000-000000000000", "ok"),
            ("merge m 5", "locked"),
            ("merge m 5 00000000-0000-0001-0000-000000000000", "ok"),
            (
                "list m",
                "mappings 2\n0 11 s/a online 00000000-0000-0001-0000-000000000000\n11 20 s/a online",
            ),
            ("unlock m 10 00000000-0000-0001-0000-000000000000", "ok"),
            ("merge m 10", "ok"),
            ("list m", "mappings 1\n0 20 s/a online"),
            ("merge m 0", "not-mergeable"),
            // with one without an end
            ("add m 20 max s/a", "ok"),
            ("merge m 19", "ok"),
            ("list m", "mappings 1\n0 max s/a online"),
            ("merge m 19", "not-mergeable"),
            // a mapping of another map that begins there is none
            ("map n range int", "ok"),
            ("shard n s/a", "ok"),
            ("add n 0 10 s/a", "ok"),
            ("add m -10 0 s/b", "ok"),
            ("offline n 0", "ok"),
            ("merge n 0", "not-mergeable"),
        ],
    },
    Script {
        about: "merge of offline mappings",
        lines: &[
            ("map m range int", "ok"),
            ("shard m s/a", "ok"),
            ("add m 0 10 s/a", "ok"),
            ("add m 10 20 s/a", "ok"),
            ("offline m 0", "ok"),
            ("offline m 10", "ok"),
            ("merge m 0", "ok"),
            ("list m", "mappings 1\n0 20 s/a offline"),
        ],
    },
];
