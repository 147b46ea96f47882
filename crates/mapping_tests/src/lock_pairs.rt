//! The refusals of `lock` and of `unlock`, two by two.
use command_scripts::Script;

/// In order: `no-map`, `bad-key`, `no-mapping`, `detached`, `unresolved`, `locked`.
pub(crate) static LOCK: [Script; 3] = [
    Script {
        about: "lock: no-map and bad-key",
        lines: &[
            ("lock q x 00000000-0000-0001-0000-000000000000", "no-map"),
            ("map q range int", "ok"),
            ("lock q x 00000000-0000-0001-0000-000000000000", "bad-key"),
        ],
    },
    // 2147483648 is a key of longs, and none of ints
    Script {
        about: "lock: bad-key and no-mapping",
        lines: &[
            ("map q range int", "ok"),
            (
                "lock q 2147483648 00000000-0000-0001-0000-000000000000",
                "bad-key",
            ),
            ("unmap q", "ok"),
            ("map q range long", "ok"),
            (
                "lock q 2147483648 00000000-0000-0001-0000-000000000000",
                "no-mapping",
            ),
        ],
    },
    // no-mapping and the site never both: where no mapping is, no site is asked for
    // detached and unresolved never both: a site has one state
    Script {
        about: "lock: detached, unresolved and locked",
        lines: &[
            ("detached s/a", ""),
            (
                "lock m 35 00000000-0000-0001-0000-000000000000",
                "no-mapping",
            ),
            ("lock m 5 00000000-0000-0001-0000-000000000000", "detached"),
            ("suspect s/a", ""),
            (
                "lock m 35 00000000-0000-0001-0000-000000000000",
                "no-mapping",
            ),
            (
                "lock m 5 00000000-0000-0001-0000-000000000000",
                "unresolved",
            ),
            ("attached s/a", ""),
            ("lock m 5 00000000-0000-0001-0000-000000000000", "locked"),
        ],
    },
];

/// In order: `no-map`, `bad-key`, `no-mapping`, `detached`, `unresolved`, `same-status`, `locked`.
pub(crate) static UNLOCK: [Script; 5] = [
    Script {
        about: "unlock: no-map and bad-key",
        lines: &[
            ("unlock q x 00000000-0000-0001-0000-000000000000", "no-map"),
            ("map q range int", "ok"),
            ("unlock q x 00000000-0000-0001-0000-000000000000", "bad-key"),
        ],
    },
    // 2147483648 is a key of longs, and none of ints
    Script {
        about: "unlock: bad-key and no-mapping",
        lines: &[
            ("map q range int", "ok"),
            (
                "unlock q 2147483648 00000000-0000-0001-0000-000000000000",
                "bad-key",
            ),
            ("unmap q", "ok"),
            ("map q range long", "ok"),
            (
                "unlock q 2147483648 00000000-0000-0001-0000-000000000000",
                "no-mapping",
            ),
        ],
    },
    // no-mapping and the site never both: where no mapping is, no site is asked for
    // detached and unresolved never both: a site has one state
    Script {
        about: "unlock: detached, unresolved and same-status",
        lines: &[
            ("detached s/a", ""),
            (
                "unlock m 35 00000000-0000-0001-0000-000000000000",
                "no-mapping",
            ),
            (
                "unlock m 15 00000000-0000-0001-0000-000000000000",
                "detached",
            ),
            ("suspect s/a", ""),
            (
                "unlock m 35 00000000-0000-0001-0000-000000000000",
                "no-mapping",
            ),
            (
                "unlock m 15 00000000-0000-0001-0000-000000000000",
                "unresolved",
            ),
            ("attached s/a", ""),
            (
                "unlock m 15 00000000-0000-0001-0000-000000000000",
                "same-status",
            ),
        ],
    },
    Script {
        about: "unlock: detached, unresolved and locked",
        lines: &[
            ("detached s/a", ""),
            (
                "unlock m 5 6f9619ff-8b86-d011-b42d-00cf4fc964ff",
                "detached",
            ),
            ("suspect s/a", ""),
            (
                "unlock m 5 6f9619ff-8b86-d011-b42d-00cf4fc964ff",
                "unresolved",
            ),
            ("attached s/a", ""),
            ("unlock m 5 6f9619ff-8b86-d011-b42d-00cf4fc964ff", "locked"),
        ],
    },
    // same-status and locked never both: the one is where there is no token, the other where there is one
    Script {
        about: "unlock: same-status and locked",
        lines: &[
            (
                "unlock m 15 6f9619ff-8b86-d011-b42d-00cf4fc964ff",
                "same-status",
            ),
            ("lock m 15 00000000-0000-0001-0000-000000000000", "ok"),
            ("unlock m 15 6f9619ff-8b86-d011-b42d-00cf4fc964ff", "locked"),
        ],
    },
];
