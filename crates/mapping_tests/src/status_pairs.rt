//! The refusals of `offline` and of `online`, two by two.
use command_scripts::Script;

/// In order: `no-map`, `bad-key`, `no-mapping`, `detached`, `unresolved`, `locked`, `same-status`.
pub(crate) static OFFLINE: [Script; 4] = [
    Script {
        about: "offline: no-map and bad-key",
        lines: &[
            ("offline q x", "no-map"),
            ("map q range int", "ok"),
            ("offline q x", "bad-key"),
        ],
    },
    // 2147483648 is a key of longs, and none of ints
    Script {
        about: "offline: bad-key and no-mapping",
        lines: &[
            ("map q range int", "ok"),
            ("offline q 2147483648", "bad-key"),
            ("unmap q", "ok"),
            ("map q range long", "ok"),
            ("offline q 2147483648", "no-mapping"),
        ],
    },
    // no-mapping and the site never both: where no mapping is, no site is asked for
    // detached and unresolved never both: a site has one state
    Script {
        about: "offline: detached, unresolved and locked",
        lines: &[
            ("detached s/a", ""),
            ("offline m 35", "no-mapping"),
            ("offline m 5", "detached"),
            ("suspect s/a", ""),
            ("offline m 35", "no-mapping"),
            ("offline m 5", "unresolved"),
            ("attached s/a", ""),
            ("offline m 5", "locked"),
        ],
    },
    Script {
        about: "offline: locked and same-status",
        lines: &[
            ("offline m 5 00000000-0000-0001-0000-000000000000", "ok"),
            ("offline m 5", "locked"),
            ("offline m 5 6f9619ff-8b86-d011-b42d-00cf4fc964ff", "locked"),
            ("unlock m 5 00000000-0000-0001-0000-000000000000", "ok"),
            ("offline m 5", "same-status"),
        ],
    },
];

/// In order: `no-map`, `bad-key`, `no-mapping`, `detached`, `unresolved`, `locked`, `same-status`.
pub(crate) static ONLINE: [Script; 4] = [
    Script {
        about: "online: no-map and bad-key",
        lines: &[
            ("online q x", "no-map"),
            ("map q range int", "ok"),
            ("online q x", "bad-key"),
        ],
    },
    // 2147483648 is a key of longs, and none of ints
    Script {
        about: "online: bad-key and no-mapping",
        lines: &[
            ("map q range int", "ok"),
            ("online q 2147483648", "bad-key"),
            ("unmap q", "ok"),
            ("map q range long", "ok"),
            ("online q 2147483648", "no-mapping"),
        ],
    },
    // no-mapping and the site never both: where no mapping is, no site is asked for
    // detached and unresolved never both: a site has one state
    Script {
        about: "online: detached, unresolved and locked",
        lines: &[
            ("detached s/a", ""),
            ("online m 35", "no-mapping"),
            ("online m 5", "detached"),
            ("suspect s/a", ""),
            ("online m 35", "no-mapping"),
            ("online m 5", "unresolved"),
            ("attached s/a", ""),
            ("online m 5", "locked"),
        ],
    },
    Script {
        about: "online: locked and same-status",
        lines: &[
            ("online m 5", "locked"),
            ("online m 5 6f9619ff-8b86-d011-b42d-00cf4fc964ff", "locked"),
            ("unlock m 5 00000000-0000-0001-0000-000000000000", "ok"),
            ("online m 5", "same-status"),
        ],
    },
];
