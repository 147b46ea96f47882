//! Scripts on keys of the type bytes, in maps of both kinds.
use crate::Script;

pub static SCRIPTS: [Script; 2] = [
    Script {
        about: "bytes, ranges: zero bytes at the end don't count, and a proper prefix comes first",
        lines: &[
            ("map m range bytes", "ok"),
            ("shard m s/a", "ok"),
            ("add m 0x01 0x0100 s/a", "bad-range"),
            ("add m 0x 0x0100 s/a", "ok"),
            ("add m 0x01 0x0101 s/a", "ok"),
            ("add m 0x0101 max s/a", "ok"),
            (
                "list m",
                "mappings 3\n0x 0x01 s/a online\n0x01 0x0101 s/a online\n0x0101 max s/a online",
            ),
            ("find m 0x", "0x 0x01 s/a online"),
            ("find m 0x0000", "0x 0x01 s/a online"),
            ("find m 0x00FF", "0x 0x01 s/a online"),
            ("find m 0x01", "0x01 0x0101 s/a online"),
            ("find m 0x0100ff", "0x01 0x0101 s/a online"),
            ("find m 0xFF", "0x0101 max s/a online"),
            ("find m 0x0", "bad-key"),
            ("find m 0X00", "bad-key"),
            ("find m 00", "bad-key"),
            ("find m 0x0g", "bad-key"),
        ],
    },
    Script {
        about: "bytes, points: at most 128 bytes as written",
        lines: &[
            ("map l list bytes", "ok"),
            ("shard l s/a", "ok"),
            (
                "addpoint l 0xffffffffffffffffffffffffffffffffffffffffffffffffffffffffffffffffffffffffffffffffffffffffffffffffffffffffffffffffffffffffffffffffffffffffffffffffffffffffffffffffffffffffffffffffffffffffffffffffffffffffffffffffffffffffffffffffffffffffffffffffffffffffffffffffff s/a",
                "bad-key",
            ),
            (
                "addpoint l 0xffffffffffffffffffffffffffffffffffffffffffffffffffffffffffffffffffffffffffffffffffffffffffffffffffffffffffffffffffffffffffffffffffffffffffffffffffffffffffffffffffffffffffffffffffffffffffffffffffffffffffffffffffffffffffffffffffffffffffffffffffffffffffffffff s/a",
                "ok",
            ),
            ("addpoint l 0x0100 s/a", "ok"),
            ("addpoint l 0x01 s/a", "overlap"),
            ("addpoint l 0xABcd s/a", "ok"),
            ("addpoint l 0x s/a", "ok"),
            ("addpoint l 0x00 s/a", "overlap"),
            (
                "list l",
                "mappings 4\n0x s/a online\n0x01 s/a online\n0xabcd s/a online\n0xffffffffffffffffffffffffffffffffffffffffffffffffffffffffffffffffffffffffffffffffffffffffffffffffffffffffffffffffffffffffffffffffffffffffffffffffffffffffffffffffffffffffffffffffffffffffffffffffffffffffffffffffffffffffffffffffffffffffffffffffffffffffffffffff s/a online",
            ),
        ],
    },
];
