//! Scripts on keys of the types datetime and timespan, in maps of both kinds.
use crate::Script;

pub static SCRIPTS: [Script; 4] = [
    Script {
        about: "datetime, ranges",
        lines: &[
            ("map m range datetime", "ok"),
            ("shard m s/a", "ok"),
            ("add m 0 3155378976000000000 s/a", "bad-key"),
            ("add m -1 0 s/a", "bad-key"),
            ("add m 3155378975999999999 max s/a", "ok"),
            ("add m 0 3155378975999999999 s/a", "ok"),
            (
                "list m",
                "mappings 2\n0 3155378975999999999 s/a online\n3155378975999999999 max s/a online",
            ),
            ("find m 0", "0 3155378975999999999 s/a online"),
            (
                "find m 3155378975999999999",
                "3155378975999999999 max s/a online",
            ),
            ("find m 3155378976000000000", "bad-key"),
            ("find m -1", "bad-key"),
            ("find m -0", "bad-key"),
            ("find m 01", "bad-key"),
        ],
    },
    Script {
        about: "datetime, points",
        lines: &[
            ("map l list datetime", "ok"),
            ("shard l s/a", "ok"),
            ("addpoint l 3155378976000000000 s/a", "bad-key"),
            ("addpoint l 3155378975999999999 s/a", "ok"),
            ("addpoint l 0 s/a", "ok"),
            ("addpoint l -1 s/a", "bad-key"),
            (
                "list l",
                "mappings 2\n0 s/a online\n3155378975999999999 s/a online",
            ),
        ],
    },
    Script {
        about: "timespan, ranges",
        lines: &[
            ("map m range timespan", "ok"),
            ("shard m s/a", "ok"),
            ("add m -9223372036854775809 0 s/a", "bad-key"),
            ("add m 0 9223372036854775808 s/a", "bad-key"),
            ("add m 0 max s/a", "ok"),
            ("add m -9223372036854775808 0 s/a", "ok"),
            (
                "list m",
                "mappings 2\n-9223372036854775808 0 s/a online\n0 max s/a online",
            ),
            ("find m 9223372036854775807", "0 max s/a online"),
            ("find m -0", "bad-key"),
        ],
    },
    Script {
        about: "timespan, points",
        lines: &[
            ("map l list timespan", "ok"),
            ("shard l s/a", "ok"),
            ("addpoint l 9223372036854775808 s/a", "bad-key"),
            ("addpoint l 1 s/a", "ok"),
            ("addpoint l -1 s/a", "ok"),
            ("list l", "mappings 2\n-1 s/a online\n1 s/a online"),
        ],
    },
];
