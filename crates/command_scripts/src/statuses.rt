//! Scripts on mappings that go offline and online.
use crate::Script;

pub static SCRIPTS: [Script; 1] = [Script {
    about: "offline and online",
    lines: &[
        ("map m range int", "ok"),
        ("shard m s/a", "ok"),
        // no-map and bad-key
        ("offline x y", "no-map"),
        ("online x y", "no-map"),
        ("offline x 5", "no-map"),
        ("online x 5", "no-map"),
        // bad-key and no-mapping
        ("offline m y", "bad-key"),
        ("online m y", "bad-key"),
        ("offline m 5", "no-mapping"),
        ("online m 5", "no-mapping"),
        ("add m 0 10 s/a", "ok"),
        ("add m 10 20 s/a", "ok"),
        ("online m 5", "same-status"),
        ("offline m 5", "ok"),
        ("offline m 0", "same-status"),
        ("list m", "mappings 2\n0 10 s/a offline\n10 20 s/a online"),
        ("lock m 5 00000000-0000-0001-0000-000000000000", "ok"),
        // locked and same-status
        ("offline m 5", "locked"),
        ("offline m 5 6f9619ff-8b86-d011-b42d-00cf4fc964ff", "locked"),
        (
            "offline m 5 00000000-0000-0001-0000-000000000000",
            "same-status",
        ),
        ("online m 5", "locked"),
        ("online m 5 6f9619ff-8b86-d011-b42d-00cf4fc964ff", "locked"),
        ("online m 5 00000000-0000-0001-0000-000000000000", "ok"),
        // locked and same-status
        ("online m 5", "locked"),
        ("online m 5 6f9619ff-8b86-d011-b42d-00cf4fc964ff", "locked"),
        (
            "online m 5 00000000-0000-0001-0000-000000000000",
            "same-status",
        ),
        ("offline m 5", "locked"),
        (
            "find m 5",
            "0 10 s/a online 00000000-0000-0001-0000-000000000000",
        ),
        ("unlock m 5 00000000-0000-0001-0000-000000000000", "ok"),
        // a token that is given where none is held is no refusal
        ("offline m 5 00000000-0000-0001-0000-000000000000", "ok"),
        ("online m 5 6f9619ff-8b86-d011-b42d-00cf4fc964ff", "ok"),
    ],
}];
