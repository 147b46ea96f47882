//! Scripts on keys of the types int and long, in maps of both kinds.
use crate::Script;

pub static SCRIPTS: [Script; 4] = [
    Script {
        about: "int, ranges",
        lines: &[
            ("map m range int", "ok"),
            ("shard m s/a", "ok"),
            ("add m -2147483649 0 s/a", "bad-key"),
            ("add m 0 2147483648 s/a", "bad-key"),
            ("add m 2147483647 max s/a", "ok"),
            ("add m -1 2147483647 s/a", "ok"),
            ("add m -2147483648 -1 s/a", "ok"),
            (
                "list m",
                "mappings 3\n-2147483648 -1 s/a online\n-1 2147483647 s/a online\n2147483647 max s/a online",
            ),
            ("find m -2147483648", "-2147483648 -1 s/a online"),
            ("find m -2", "-2147483648 -1 s/a online"),
            ("find m -1", "-1 2147483647 s/a online"),
            ("find m 0", "-1 2147483647 s/a online"),
            ("find m 2147483647", "2147483647 max s/a online"),
            ("find m 2147483648", "bad-key"),
            ("find m -2147483649", "bad-key"),
            ("find m -0", "bad-key"),
            ("find m 00", "bad-key"),
            ("find m 01", "bad-key"),
            ("find m +1", "bad-key"),
            ("find m 1x", "bad-key"),
            ("find m -", "bad-key"),
        ],
    },
    Script {
        about: "int, points",
        lines: &[
            ("map l list int", "ok"),
            ("shard l s/a", "ok"),
            ("addpoint l 2147483648 s/a", "bad-key"),
            ("addpoint l 2147483647 s/a", "ok"),
            ("addpoint l 0 s/a", "ok"),
            ("addpoint l -1 s/a", "ok"),
            ("addpoint l -2147483648 s/a", "ok"),
            ("addpoint l -2147483648 s/a", "overlap"),
            (
                "list l",
                "mappings 4\n-2147483648 s/a online\n-1 s/a online\n0 s/a online\n2147483647 s/a online",
            ),
        ],
    },
    Script {
        about: "long, ranges",
        lines: &[
            ("map m range long", "ok"),
            ("shard m s/a", "ok"),
            ("add m -9223372036854775809 0 s/a", "bad-key"),
            ("add m 0 9223372036854775808 s/a", "bad-key"),
            ("add m 9223372036854775807 max s/a", "ok"),
            ("add m -1 9223372036854775807 s/a", "ok"),
            ("add m -9223372036854775808 -1 s/a", "ok"),
            (
                "list m",
                "mappings 3\n-9223372036854775808 -1 s/a online\n-1 9223372036854775807 s/a online\n9223372036854775807 max s/a online",
            ),
            ("find m 2147483648", "-1 9223372036854775807 s/a online"),
            ("find m -0", "bad-key"),
        ],
    },
    Script {
        about: "long, points",
        lines: &[
            ("map l list long", "ok"),
            ("shard l s/a", "ok"),
            ("addpoint l 9223372036854775808 s/a", "bad-key"),
            ("addpoint l 9223372036854775807 s/a", "ok"),
            ("addpoint l 4294967296 s/a", "ok"),
            ("addpoint l -9223372036854775808 s/a", "ok"),
            (
                "list l",
                "mappings 3\n-9223372036854775808 s/a online\n4294967296 s/a online\n9223372036854775807 s/a online",
            ),
        ],
    },
];
