//! Scripts on mappings that are cut.
use crate::Script;

pub static SCRIPTS: [Script; 1] = [Script {
    about: "split",
    lines: &[
        ("map m range int", "ok"),
        ("map l list int", "ok"),
        ("shard m s/a", "ok"),
        ("shard l s/a", "ok"),
        ("addpoint l 1 s/a", "ok"),
        // no-map and bad-key
        ("split x y", "no-map"),
        ("split x 5", "no-map"),
        // wrong-kind and bad-key
        ("split l y", "wrong-kind"),
        ("split l 1", "wrong-kind"),
        // bad-key and no-mapping
        ("split m y", "bad-key"),
        ("split m 5", "no-mapping"),
        ("add m 0 10 s/a", "ok"),
        ("split m 10", "no-mapping"),
        ("lock m 5 00000000-0000-0001-0000-000000000000", "ok"),
        // locked and bad-split
        ("split m 0", "locked"),
        ("split m 0 6f9619ff-8b86-d011-b42d-00cf4fc964ff", "locked"),
        (
            "split m 0 00000000-0000-0001-0000-000000000000",
            "bad-split",
        ),
        ("split m 4", "locked"),
        ("offline m 5 00000000-0000-0001-0000-000000000000", "ok"),
        // both parts have status, location and token
        ("split m 4 00000000-0000-0001-0000-000000000000", "ok"),
        (
            "list m",
            "mappings 2\n0 4 s/a offline 00000000-0000-0001-0000-000000000000\n4 10 s/a offline 00000000-0000-0001-0000-000000000000",
        ),
        (
            "split m 4 00000000-0000-0001-0000-000000000000",
            "bad-split",
        ),
        ("unlock m 0 00000000-0000-0001-0000-000000000000", "ok"),
        ("online m 0", "ok"),
        ("split m 1", "ok"),
        (
            "list m",
            "mappings 3\n0 1 s/a online\n1 4 s/a online\n4 10 s/a offline 00000000-0000-0001-0000-000000000000",
        ),
        ("split m 0", "bad-split"),
        // of a mapping without an end
        ("add m 20 max s/a", "ok"),
        ("split m 2147483647", "ok"),
        ("find m 20", "20 2147483647 s/a online"),
        ("find m 2147483647", "2147483647 max s/a online"),
    ],
}];
