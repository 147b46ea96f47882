//! The refusals of `split`, two by two.
use command_scripts::Script;

/// In order: `no-map`, `wrong-kind`, `bad-key`, `no-mapping`, `detached`, `unresolved`, `locked`, `bad-split`.
pub(crate) static SPLIT: [Script; 4] = [
    // no-map and wrong-kind never both: a map that doesn't stand has no kind
    Script {
        about: "split: no-map, wrong-kind and bad-key",
        lines: &[
            ("split q x", "no-map"),
            ("map q list int", "ok"),
            ("split q x", "wrong-kind"),
            ("unmap q", "ok"),
            ("map q range int", "ok"),
            ("split q x", "bad-key"),
        ],
    },
    // 2147483648 is a key of longs, and none of ints
    Script {
        about: "split: bad-key and no-mapping",
        lines: &[
            ("map q range int", "ok"),
            ("split q 2147483648", "bad-key"),
            ("unmap q", "ok"),
            ("map q range long", "ok"),
            ("split q 2147483648", "no-mapping"),
        ],
    },
    // no-mapping and the site never both: where no mapping is, no site is asked for
    // detached and unresolved never both: a site has one state
    Script {
        about: "split: detached, unresolved and locked",
        lines: &[
            ("detached s/a", ""),
            ("split m 35", "no-mapping"),
            ("split m 5", "detached"),
            ("suspect s/a", ""),
            ("split m 35", "no-mapping"),
            ("split m 5", "unresolved"),
            ("attached s/a", ""),
            ("split m 5", "locked"),
        ],
    },
    Script {
        about: "split: locked and bad-split",
        lines: &[
            ("split m 0", "locked"),
            ("split m 0 6f9619ff-8b86-d011-b42d-00cf4fc964ff", "locked"),
            ("unlock m 0 00000000-0000-0001-0000-000000000000", "ok"),
            ("split m 0", "bad-split"),
        ],
    },
];
