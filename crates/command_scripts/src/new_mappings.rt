//! Scripts on new mappings, and on questions for mappings.
use crate::Script;

pub static SCRIPTS: [Script; 3] = [
    Script {
        about: "add",
        lines: &[
            ("map m range int", "ok"),
            ("map l list int", "ok"),
            ("shard m s/a", "ok"),
            ("shard l s/a", "ok"),
            // no-map and bad-key
            ("add x y 10 s/z", "no-map"),
            ("add x 0 10 s/a", "no-map"),
            // wrong-kind and bad-key
            ("add l y 10 s/z", "wrong-kind"),
            ("add l 0 10 s/a", "wrong-kind"),
            // bad-key and no-location, at either end
            ("add m y 10 s/z", "bad-key"),
            ("add m 0 y s/z", "bad-key"),
            ("add m y 10 s/a", "bad-key"),
            ("add m 10 y s/a", "bad-key"),
            ("add m y max s/a", "bad-key"),
            ("add m max max s/a", "bad-key"),
            // bad-range and no-location
            ("add m 5 5 s/z", "bad-range"),
            ("add m 5 5 s/a", "bad-range"),
            ("add m 6 5 s/a", "bad-range"),
            // no-location and not-a-shard
            ("add m 0 10 s/z", "no-location"),
            ("add m 0 10 s/b", "not-a-shard"),
            ("add m 10 20 s/a", "ok"),
            // not-a-shard and overlap
            ("add m 10 20 s/b", "not-a-shard"),
            ("add m 10 20 s/a", "overlap"),
            ("add m 0 11 s/a", "overlap"),
            ("add m 19 30 s/a", "overlap"),
            ("add m 12 13 s/a", "overlap"),
            ("add m 0 30 s/a", "overlap"),
            ("add m 19 max s/a", "overlap"),
            // at another location too
            ("shard m s/b", "ok"),
            ("add m 19 30 s/b", "overlap"),
            // ranges that touch share no key
            ("add m 0 10 s/b", "ok"),
            ("add m 20 max s/a", "ok"),
            ("add m 2147483647 max s/a", "overlap"),
            (
                "list m",
                "mappings 3\n0 10 s/b online\n10 20 s/a online\n20 max s/a online",
            ),
            // a mapping of another map isn't in the way
            ("map n range int", "ok"),
            ("shard n s/a", "ok"),
            ("add n 0 max s/a", "ok"),
            ("list n", "mappings 1\n0 max s/a online"),
        ],
    },
    Script {
        about: "addpoint",
        lines: &[
            ("map m range int", "ok"),
            ("map l list int", "ok"),
            ("shard m s/a", "ok"),
            ("shard l s/a", "ok"),
            // no-map and bad-key
            ("addpoint x y s/z", "no-map"),
            ("addpoint x 1 s/a", "no-map"),
            // wrong-kind and bad-key
            ("addpoint m y s/z", "wrong-kind"),
            ("addpoint m 1 s/a", "wrong-kind"),
            // bad-key and no-location
            ("addpoint l y s/z", "bad-key"),
            ("addpoint l y s/a", "bad-key"),
            ("addpoint l max s/a", "bad-key"),
            // no-location and not-a-shard
            ("addpoint l 1 s/z", "no-location"),
            ("addpoint l 1 s/b", "not-a-shard"),
            ("addpoint l 1 s/a", "ok"),
            // not-a-shard and overlap
            ("addpoint l 1 s/b", "not-a-shard"),
            ("addpoint l 1 s/a", "overlap"),
            ("shard l s/b", "ok"),
            ("addpoint l 1 s/b", "overlap"),
            ("addpoint l 2 s/b", "ok"),
            ("addpoint l -1 s/a", "ok"),
            (
                "list l",
                "mappings 3\n-1 s/a online\n1 s/a online\n2 s/b online",
            ),
            // a point of another map isn't in the way
            ("map k list int", "ok"),
            ("shard k s/a", "ok"),
            ("addpoint k 1 s/a", "ok"),
        ],
    },
    Script {
        about: "find and list",
        lines: &[
            // no-map and bad-key
            ("find x y", "no-map"),
            ("find x 1", "no-map"),
            ("list x", "no-map"),
            ("map m range int", "ok"),
            ("map l list int", "ok"),
            ("shard m s/a", "ok"),
            ("shard m s/b", "ok"),
            ("shard l s/a", "ok"),
            // bad-key and no-mapping
            ("find m y", "bad-key"),
            ("find m max", "bad-key"),
            ("find m 5", "no-mapping"),
            ("list m", "mappings 0"),
            ("add m 20 max s/b", "ok"),
            ("add m 0 10 s/a", "ok"),
            ("find m -1", "no-mapping"),
            ("find m 0", "0 10 s/a online"),
            ("find m 9", "0 10 s/a online"),
            ("find m 10", "no-mapping"),
            ("find m 19", "no-mapping"),
            ("find m 20", "20 max s/b online"),
            ("find m 2147483647", "20 max s/b online"),
            ("list m", "mappings 2\n0 10 s/a online\n20 max s/b online"),
            ("find l 5", "no-mapping"),
            ("list l", "mappings 0"),
            ("addpoint l 5 s/a", "ok"),
            ("find l 4", "no-mapping"),
            ("find l 5", "5 s/a online"),
            ("find l 6", "no-mapping"),
            ("list l", "mappings 1\n5 s/a online"),
        ],
    },
];
