//! The refusals of `delete`, two by two.
use command_scripts::Script;

/// In order: `no-map`, `bad-key`, `no-mapping`, `detached`, `unresolved`, `locked`, `not-offline`, `rows-present`.
pub(crate) static DELETE: [Script; 5] = [
    Script {
        about: "delete: no-map and bad-key",
        lines: &[
            ("delete q x", "no-map"),
            ("map q range int", "ok"),
            ("delete q x", "bad-key"),
        ],
    },
    // 2147483648 is a key of longs, and none of ints
    Script {
        about: "delete: bad-key and no-mapping",
        lines: &[
            ("map q range int", "ok"),
            ("delete q 2147483648", "bad-key"),
            ("unmap q", "ok"),
            ("map q range long", "ok"),
            ("delete q 2147483648", "no-mapping"),
        ],
    },
    // no-mapping and the site never both: where no mapping is, no site is asked for
    // detached and unresolved never both: a site has one state
    Script {
        about: "delete: detached, unresolved and locked",
        lines: &[
            ("detached s/a", ""),
            ("delete m 35", "no-mapping"),
            ("delete m 5", "detached"),
            ("suspect s/a", ""),
            ("delete m 35", "no-mapping"),
            ("delete m 5", "unresolved"),
            ("attached s/a", ""),
            ("delete m 5", "locked"),
        ],
    },
    Script {
        about: "delete: locked and not-offline",
        lines: &[
            ("delete m 5", "locked"),
            ("delete m 5 6f9619ff-8b86-d011-b42d-00cf4fc964ff", "locked"),
            ("unlock m 5 00000000-0000-0001-0000-000000000000", "ok"),
            ("delete m 5", "not-offline"),
        ],
    },
    Script {
        about: "delete: not-offline and rows-present",
        lines: &[
            ("open 1 m 15", "at s/a"),
            ("put 1 t 1 0x01", "ok"),
            ("delete m 15", "not-offline"),
            ("offline m 15", "ok"),
            ("delete m 15", "rows-present"),
        ],
    },
];

/// Where a row keeps a mapping from `delete` and `move`, and where it doesn't.
pub(crate) static ROWS: [Script; 3] = [
    Script {
        about: "delete: a row under the low key",
        lines: &[
            ("open 1 m 10", "at s/a"),
            ("put 1 t 1 0x01", "ok"),
            ("offline m 15", "ok"),
            ("delete m 15", "rows-present"),
            ("move m 15 s/b", "rows-present"),
        ],
    },
    Script {
        about: "delete: a row under the last key",
        lines: &[
            ("open 1 m 19", "at s/a"),
            ("put 1 t 1 0x01", "ok"),
            ("offline m 15", "ok"),
            ("delete m 15", "rows-present"),
            ("move m 15 s/b", "rows-present"),
        ],
    },
    Script {
        about: "delete: rows beside the mapping",
        lines: &[
            ("add m 30 40 s/a", "ok"),
            ("open 1 m 30", "at s/a"),
            ("put 1 t 1 0x01", "ok"),
            ("open 2 m 19", "at s/a"),
            ("put 2 t 1 0x01", "ok"),
            ("move m 25 s/b", "ok"),
            ("move m 25 s/a", "ok"),
            ("delete m 25", "ok"),
        ],
    },
];
