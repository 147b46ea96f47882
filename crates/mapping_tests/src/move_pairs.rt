//! The refusals of `move`, two by two.
use command_scripts::Script;

/// In order: `no-map`, `bad-key`, `no-mapping`, `detached` and `unresolved` of the owner, `locked`, `no-location`, `not-a-shard`,
/// `detached` and `unresolved` of the location, `same-shard`, `not-offline`, `rows-present`.
pub(crate) static MOVE: [Script; 7] = [
    Script {
        about: "move: no-map and bad-key",
        lines: &[
            ("move q x s/b", "no-map"),
            ("map q range int", "ok"),
            ("move q x s/b", "bad-key"),
        ],
    },
    // 2147483648 is a key of longs, and none of ints
    Script {
        about: "move: bad-key and no-mapping",
        lines: &[
            ("map q range int", "ok"),
            ("move q 2147483648 s/b", "bad-key"),
            ("unmap q", "ok"),
            ("map q range long", "ok"),
            ("move q 2147483648 s/b", "no-mapping"),
        ],
    },
    // no-mapping and the site never both: where no mapping is, no site is asked for
    // detached and unresolved never both: a site has one state
    Script {
        about: "move: detached, unresolved and locked",
        lines: &[
            ("detached s/a", ""),
            ("move m 35 s/b", "no-mapping"),
            ("move m 5 s/b", "detached"),
            ("suspect s/a", ""),
            ("move m 35 s/b", "no-mapping"),
            ("move m 5 s/b", "unresolved"),
            ("attached s/a", ""),
            ("move m 5 s/b", "locked"),
        ],
    },
    Script {
        about: "move: locked and no-location",
        lines: &[
            ("move m 5 s/z", "locked"),
            (
                "move m 5 s/z 6f9619ff-8b86-d011-b42d-00cf4fc964ff",
                "locked",
            ),
            ("unlock m 5 00000000-0000-0001-0000-000000000000", "ok"),
            ("move m 5 s/z", "no-location"),
        ],
    },
    // an unknown location is no shard; none becomes known, so a known one is named
    Script {
        about: "move: no-location and not-a-shard",
        lines: &[
            ("move m 15 s/z", "no-location"),
            ("move m 15 s/c", "not-a-shard"),
        ],
    },
    Script {
        about: "move: same-shard and not-offline",
        lines: &[
            ("move m 15 s/a", "same-shard"),
            ("offline m 15", "ok"),
            ("move m 15 s/b", "ok"),
            ("online m 15", "ok"),
            ("move m 15 s/a", "not-offline"),
        ],
    },
    Script {
        about: "move: not-offline and rows-present",
        lines: &[
            ("open 1 m 15", "at s/a"),
            ("put 1 t 1 0x01", "ok"),
            ("move m 15 s/b", "not-offline"),
            ("offline m 15", "ok"),
            ("move m 15 s/b", "rows-present"),
        ],
    },
];

/// Those of the two sites.
pub(crate) static SITES: [Script; 4] = [
    Script {
        about: "move: the owner's site and the location's",
        lines: &[
            ("detached s/a", ""),
            ("suspect s/b", ""),
            ("move m 15 s/b", "detached"),
            ("attached s/a", ""),
            ("move m 15 s/b", "unresolved"),
            ("suspect s/a", ""),
            ("detached s/b", ""),
            ("move m 15 s/b", "unresolved"),
            ("attached s/a", ""),
            ("move m 15 s/b", "detached"),
        ],
    },
    // detached and unresolved never both: a site has one state
    Script {
        about: "move: not-a-shard, and detached and unresolved of the location",
        lines: &[
            ("detached s/c", ""),
            ("move m 15 s/c", "not-a-shard"),
            ("suspect s/c", ""),
            ("move m 15 s/c", "not-a-shard"),
            ("attached s/c", ""),
            ("shard m s/c", "ok"),
            ("detached s/c", ""),
            ("move m 15 s/c", "detached"),
            ("suspect s/c", ""),
            ("move m 15 s/c", "unresolved"),
        ],
    },
    // same-shard, which stands between, is with a site that is away only where that is the owner's, too
    Script {
        about: "move: detached and unresolved of the location, and not-offline",
        lines: &[
            ("detached s/b", ""),
            ("move m 15 s/b", "detached"),
            ("suspect s/b", ""),
            ("move m 15 s/b", "unresolved"),
            ("attached s/b", ""),
            ("move m 15 s/b", "not-offline"),
        ],
    },
    // both only where the location is the owner's, and then the owner's state was asked for before
    Script {
        about: "move: detached and unresolved of both sites, and same-shard",
        lines: &[
            ("detached s/a", ""),
            ("move m 15 s/a", "detached"),
            ("suspect s/a", ""),
            ("move m 15 s/a", "unresolved"),
            ("attached s/a", ""),
            ("move m 15 s/a", "same-shard"),
        ],
    },
];
