//! Scripts on tokens of mappings.
use crate::Script;

pub static SCRIPTS: [Script; 1] = [Script {
    about: "lock and unlock",
    lines: &[
        ("map m range int", "ok"),
        ("shard m s/a", "ok"),
        // no-map and bad-key
        ("lock x y 00000000-0000-0001-0000-000000000000", "no-map"),
        ("unlock x y 00000000-0000-0001-0000-000000000000", "no-map"),
        ("lock x 5 00000000-0000-0001-0000-000000000000", "no-map"),
        ("unlock x 5 00000000-0000-0001-0000-000000000000", "no-map"),
        // bad-key and no-mapping
        ("lock m y 00000000-0000-0001-0000-000000000000", "bad-key"),
        ("unlock m y 00000000-0000-0001-0000-000000000000", "bad-key"),
        (
            "lock m 5 00000000-0000-0001-0000-000000000000",
            "no-mapping",
        ),
        (
            "unlock m 5 00000000-0000-0001-0000-000000000000",
            "no-mapping",
        ),
        ("add m 0 10 s/a", "ok"),
        (
            "unlock m 5 00000000-0000-0001-0000-000000000000",
            "same-status",
        ),
        ("lock m 5 00000000-0000-0001-0000-000000000000", "ok"),
        (
            "find m 5",
            "0 10 s/a online 00000000-0000-0001-0000-000000000000",
        ),
        ("lock m 5 00000000-0000-0001-0000-000000000000", "locked"),
        ("lock m 5 6f9619ff-8b86-d011-b42d-00cf4fc964ff", "locked"),
        ("unlock m 5 6f9619ff-8b86-d011-b42d-00cf4fc964ff", "locked"),
        ("unlock m 9 00000000-0000-0001-0000-000000000000", "ok"),
        ("find m 5", "0 10 s/a online"),
        (
            "unlock m 5 00000000-0000-0001-0000-000000000000",
            "same-status",
        ),
        // read in either case, and told in lower case
        ("lock m 5 6F9619FF-8B86-D011-B42D-00CF4FC964FF", "ok"),
        (
            "find m 5",
            "0 10 s/a online 6f9619ff-8b86-d011-b42d-00cf4fc964ff",
        ),
        ("unlock m 5 6f9619ff-8b86-d011-b42d-00cf4fc964ff", "ok"),
        // offline, and a point
        ("offline m 5", "ok"),
        ("lock m 5 00000000-0000-0001-0000-000000000000", "ok"),
        (
            "find m 5",
            "0 10 s/a offline 00000000-0000-0001-0000-000000000000",
        ),
        ("map l list int", "ok"),
        ("shard l s/a", "ok"),
        ("addpoint l 5 s/a", "ok"),
        ("lock l 5 00000000-0000-0001-0000-000000000000", "ok"),
        (
            "find l 5",
            "5 s/a online 00000000-0000-0001-0000-000000000000",
        ),
    ],
}];
