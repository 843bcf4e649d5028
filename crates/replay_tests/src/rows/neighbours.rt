//! Neighbours of events, and cuts that move.

use super::{Row, StoredFile};

/// The runs.
pub fn neighbours() -> &'static [Row] {
    &NEIGHBOURS
}

const NEIGHBOURS: [Row; 4] = [
    // Two messages in a chain. A client's cut is its own.
    Row {
        words: &["replay", "--levels", "2", "three.toml", "e:a", "c:c", "c:d"],
        files: &[
            StoredFile {
                name: "a",
                text: "0.1 s - 0\n\
                    1.1 r 0.1 0\n\
                    1.2 s - 0\n\
                    2.1 r 1.2 0\n\
                    2.2 u - 0\n",
                fail_reads: &[],
            },
            StoredFile {
                name: "c",
                text: "gp 2.2 0\n\
                    gp 2.2 2\n\
                    gp 0.1 2\n\
                    ls 0.1 2\n\
                    ls 2.2 0\n\
                    gp 2.3 0\n\
                    cut all\n\
                    cut back 2.1\n\
                    cut has 1.2\n\
                    cut back 0.1\n\
                    cut to 2.2\n\
                    cut back 2.3\n\
                    cut has 2.2\n\
                    cut none\n\
                    cut has 0.1\n",
                fail_reads: &[],
            },
            StoredFile {
                name: "d",
                text: "cut has 0.1\n\
                    cut to 1.1\n",
                fail_reads: &[],
            },
        ],
        status: 0,
        text: "traces 3\n\
            levels 2\n\
            journal 11\n\
            came 0 0.1 s - 0\n\
            gone 0.1\n\
            came 0 1.1 r 0.1 0\n\
            gone 1.1\n\
            came 0 1.2 s - 0\n\
            gone 1.2\n\
            came 0 2.1 r 1.2 0\n\
            gone 2.1\n\
            came 0 2.2 u - 0\n\
            gone 2.2\n\
            ended 0\n\
            client 0 15\n\
            at 11 gp 2.2 0 = 0.1\n\
            at 11 gp 2.2 2 = 2.1\n\
            at 11 gp 0.1 2 = none\n\
            at 11 ls 0.1 2 = 2.1\n\
            at 11 ls 2.2 0 = none\n\
            at 11 gp 2.3 0 = notyet 2.3\n\
            at 11 cut all = cut 1 2 2\n\
            at 11 cut back 2.1 = cut 1 2 0\n\
            at 11 cut has 1.2 = yes\n\
            at 11 cut back 0.1 = cut 0 0 0\n\
            at 11 cut to 2.2 = cut 1 2 2\n\
            at 11 cut back 2.3 = notyet 2.3\n\
            at 11 cut has 2.2 = yes\n\
            at 11 cut none = cut 0 0 0\n\
            at 11 cut has 0.1 = no\n\
            client 1 2\n\
            at 11 cut has 0.1 = no\n\
            at 11 cut to 1.1 = cut 1 1 0\n\
            closing 0\n\
            collector 0 accepted 5 repeats 0 clashes 0 end\n\
            held 0\n\
            status 0\n",
    },
    // Partners go together, and neither is before the other.
    Row {
        words: &["replay", "three.toml", "e:a", "z:z"],
        files: &[
            StoredFile {
                name: "a",
                text: "0.1 u - 1\n\
                    0.2 y 2.1 2\n\
                    2.1 y 0.2 3\n",
                fail_reads: &[],
            },
            StoredFile {
                name: "z",
                text: "gp 2.1 0\n\
                    ls 0.1 2\n\
                    ls 0.2 2\n\
                    cut to 0.2\n\
                    cut back 2.1\n",
                fail_reads: &[],
            },
        ],
        status: 0,
        text: "traces 3\n\
            levels 8 32\n\
            journal 6\n\
            came 0 0.1 u - 1\n\
            gone 0.1\n\
            came 0 0.2 y 2.1 2\n\
            came 0 2.1 y 0.2 3\n\
            pair 0.2 2.1\n\
            ended 0\n\
            closing 5\n\
            at 6 gp 2.1 0 = 0.1\n\
            at 6 ls 0.1 2 = 2.1\n\
            at 6 ls 0.2 2 = none\n\
            at 6 cut to 0.2 = cut 2 0 1\n\
            at 6 cut back 2.1 = cut 1 0 0\n\
            collector 0 accepted 3 repeats 0 clashes 0 end\n\
            held 0\n\
            status 0\n",
    },
    // No such trace.
    Row {
        words: &["replay", "three.toml", "e:a", "c:c"],
        files: &[
            StoredFile {
                name: "a",
                text: "",
                fail_reads: &[],
            },
            StoredFile {
                name: "c",
                text: "cut none\n\
                    gp 0.1 3\n",
                fail_reads: &[],
            },
        ],
        status: 5,
        text: "poet: client 0 2 NoTrace\n",
    },
    // No such move.
    Row {
        words: &["replay", "three.toml", "e:a", "z:z"],
        files: &[
            StoredFile {
                name: "a",
                text: "",
                fail_reads: &[],
            },
            StoredFile {
                name: "z",
                text: "cut up 0.1\n",
                fail_reads: &[],
            },
        ],
        status: 5,
        text: "poet: closing 1 Shape\n",
    },
];
