//! The refusals of `merge`, two by two.
use command_scripts::Script;

/// In order: `no-map`, `wrong-kind`, `bad-key`, `no-mapping`, `detached`, `unresolved`, `locked`, `not-mergeable`.
pub(crate) static MERGE: [Script; 4] = [
    // no-map and wrong-kind never both: a map that doesn't stand has no kind
    Script {
        about: "merge: no-map, wrong-kind and bad-key",
        lines: &[
            ("merge q x", "no-map"),
            ("map q list int", "ok"),
            ("merge q x", "wrong-kind"),
            ("unmap q", "ok"),
            ("map q range int", "ok"),
            ("merge q x", "bad-key"),
        ],
    },
    // 2147483648 is a key of longs, and none of ints
    Script {
        about: "merge: bad-key and no-mapping",
        lines: &[
            ("map q range int", "ok"),
            ("merge q 2147483648", "bad-key"),
            ("unmap q", "ok"),
            ("map q range long", "ok"),
            ("merge q 2147483648", "no-mapping"),
        ],
    },
    // no-mapping and the site never both: where no mapping is, no site is asked for
    // detached and unresolved never both: a site has one state
    Script {
        about: "merge: detached, unresolved and locked",
        lines: &[
            ("detached s/a", ""),
            ("merge m 35", "no-mapping"),
            ("merge m 5", "detached"),
            ("suspect s/a", ""),
            ("merge m 35", "no-mapping"),
            ("merge m 5", "unresolved"),
            ("attached s/a", ""),
            ("merge m 5", "locked"),
        ],
    },
    Script {
        about: "merge: locked and not-mergeable",
        lines: &[
            ("offline m 15", "ok"),
            ("merge m 5", "locked"),
            ("merge m 5 6f9619ff-8b86-d011-b42d-00cf4fc964ff", "locked"),
            ("unlock m 5 00000000-0000-0001-0000-000000000000", "ok"),
            ("merge m 5", "not-mergeable"),
        ],
    },
];

/// Each cause of `not-mergeable`, and the same without it.
pub(crate) static CAUSES: [Script; 5] = [
    Script {
        about: "merge: none begins at the high end",
        lines: &[
            ("merge m 25", "not-mergeable"),
            ("add m 31 40 s/a", "ok"),
            ("offline m 31", "ok"),
            ("merge m 25", "not-mergeable"),
            ("add m 30 31 s/a", "ok"),
            ("offline m 30", "ok"),
            ("merge m 25", "ok"),
        ],
    },
    Script {
        about: "merge: without an end",
        lines: &[("add m 40 max s/a", "ok"), ("merge m 41", "not-mergeable")],
    },
    Script {
        about: "merge: another status",
        lines: &[
            ("merge m 15", "not-mergeable"),
            ("online m 25", "ok"),
            ("merge m 15", "ok"),
        ],
    },
    Script {
        about: "merge: another location",
        lines: &[
            ("offline m 15", "ok"),
            ("move m 15 s/b", "ok"),
            ("merge m 15", "not-mergeable"),
            ("move m 25 s/b", "ok"),
            ("merge m 15", "ok"),
        ],
    },
    Script {
        about: "merge: a token on one of them, and another",
        lines: &[
            (
                "merge m 5 00000000-0000-0001-0000-000000000000",
                "not-mergeable",
            ),
            ("lock m 15 6f9619ff-8b86-d011-b42d-00cf4fc964ff", "ok"),
            (
                "merge m 5 00000000-0000-0001-0000-000000000000",
                "not-mergeable",
            ),
            ("unlock m 15 6f9619ff-8b86-d011-b42d-00cf4fc964ff", "ok"),
            ("lock m 15 00000000-0000-0001-0000-000000000000", "ok"),
            ("merge m 5 00000000-0000-0001-0000-000000000000", "ok"),
        ],
    },
];
