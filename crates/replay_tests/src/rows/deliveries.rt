//! Deliveries, and what is asked of them.

use super::{Row, StoredFile};

/// The runs.
pub fn deliveries() -> &'static [Row] {
    &DELIVERIES
}

const DELIVERIES: [Row; 12] = [
    // An empty file.
    Row {
        words: &["replay", "three.toml", "e:a"],
        files: &[StoredFile {
            name: "a",
            text: "",
            fail_reads: &[],
        }],
        status: 0,
        text: "traces 3\n\
            levels 8 32\n\
            journal 1\n\
            ended 0\n\
            closing 0\n\
            collector 0 accepted 0 repeats 0 clashes 0 end\n\
            held 0\n\
            status 0\n",
    },
    // A receive before its send.
    Row {
        words: &["replay", "three.toml", "e:a"],
        files: &[StoredFile {
            name: "a",
            text: "1.1 r 0.1 6\n\
                    .\n\
                    0.1 s - 5\n",
            fail_reads: &[],
        }],
        status: 0,
        text: "traces 3\n\
            levels 8 32\n\
            journal 5\n\
            came 0 1.1 r 0.1 6\n\
            came 0 0.1 s - 5\n\
            gone 0.1\n\
            gone 1.1\n\
            ended 0\n\
            closing 0\n\
            collector 0 accepted 2 repeats 0 clashes 0 end\n\
            held 0\n\
            status 0\n",
    },
    // Events of one trace in another order.
    Row {
        words: &["replay", "three.toml", "e:a"],
        files: &[StoredFile {
            name: "a",
            text: "0.3 u - 3\n\
                    .\n\
                    0.1 u - 1\n\
                    .\n\
                    0.2 u - 2\n",
            fail_reads: &[],
        }],
        status: 0,
        text: "traces 3\n\
            levels 8 32\n\
            journal 7\n\
            came 0 0.3 u - 3\n\
            came 0 0.1 u - 1\n\
            gone 0.1\n\
            came 0 0.2 u - 2\n\
            gone 0.2\n\
            gone 0.3\n\
            ended 0\n\
            closing 0\n\
            collector 0 accepted 3 repeats 0 clashes 0 end\n\
            held 0\n\
            status 0\n",
    },
    // An event that is held.
    Row {
        words: &["replay", "three.toml", "e:a", "z:z"],
        files: &[
            StoredFile {
                name: "a",
                text: "0.2 u - 0\n",
                fail_reads: &[],
            },
            StoredFile {
                name: "z",
                text: "before 0.2 0.2\n\
                    await 0.2\n",
                fail_reads: &[],
            },
        ],
        status: 10,
        text: "traces 3\n\
            levels 8 32\n\
            journal 2\n\
            came 0 0.2 u - 0\n\
            ended 0\n\
            closing 2\n\
            at 2 before 0.2 0.2 = notyet 0.2\n\
            at 2 await 0.2 = closed\n\
            collector 0 accepted 1 repeats 0 clashes 0 end\n\
            held 1\n\
            status 10\n",
    },
    // Partners.
    Row {
        words: &["replay", "three.toml", "e:a", "z:z"],
        files: &[
            StoredFile {
                name: "a",
                text: "0.1 u - 1\n\
                    0.2 y 2.1 2\n\
                    2.1 y 0.2 3\n",
                fail_reads: &[],
            },
            StoredFile {
                name: "z",
                text: "relation 0.2 2.1\n\
                    before 0.2 2.1\n\
                    before 2.1 0.2\n\
                    before 0.1 2.1\n\
                    event 2.1\n",
                fail_reads: &[],
            },
        ],
        status: 0,
        text: "traces 3\n\
            levels 8 32\n\
            journal 6\n\
            came 0 0.1 u - 1\n\
            gone 0.1\n\
            came 0 0.2 y 2.1 2\n\
            came 0 2.1 y 0.2 3\n\
            pair 0.2 2.1\n\
            ended 0\n\
            closing 5\n\
            at 6 relation 0.2 2.1 = partners\n\
            at 6 before 0.2 2.1 = no\n\
            at 6 before 2.1 0.2 = no\n\
            at 6 before 0.1 2.1 = yes\n\
            at 6 event 2.1 = 2.1 y 0.2 3\n\
            collector 0 accepted 3 repeats 0 clashes 0 end\n\
            held 0\n\
            status 0\n",
    },
    // Halves that don't name each other.
    Row {
        words: &["replay", "three.toml", "e:a"],
        files: &[StoredFile {
            name: "a",
            text: "0.1 y 2.1 1\n\
                    2.1 y 1.1 2\n",
            fail_reads: &[],
        }],
        status: 10,
        text: "traces 3\n\
            levels 8 32\n\
            journal 3\n\
            came 0 0.1 y 2.1 1\n\
            came 0 2.1 y 1.1 2\n\
            ended 0\n\
            closing 0\n\
            collector 0 accepted 2 repeats 0 clashes 0 end\n\
            held 2\n\
            status 10\n",
    },
    // How two events lie to each other.
    Row {
        words: &["replay", "three.toml", "e:a", "z:z"],
        files: &[
            StoredFile {
                name: "a",
                text: "0.1 s - 0\n\
                    1.1 r 0.1 0\n\
                    2.1 r 0.1 0\n",
                fail_reads: &[],
            },
            StoredFile {
                name: "z",
                text: "relation 1.1 2.1\n\
                    relation 0.1 2.1\n\
                    relation 1.1 0.1\n\
                    relation 1.1 1.1\n",
                fail_reads: &[],
            },
        ],
        status: 0,
        text: "traces 3\n\
            levels 8 32\n\
            journal 7\n\
            came 0 0.1 s - 0\n\
            gone 0.1\n\
            came 0 1.1 r 0.1 0\n\
            gone 1.1\n\
            came 0 2.1 r 0.1 0\n\
            gone 2.1\n\
            ended 0\n\
            closing 4\n\
            at 7 relation 1.1 2.1 = concurrent\n\
            at 7 relation 0.1 2.1 = before\n\
            at 7 relation 1.1 0.1 = after\n\
            at 7 relation 1.1 1.1 = same\n\
            collector 0 accepted 3 repeats 0 clashes 0 end\n\
            held 0\n\
            status 0\n",
    },
    // Stamps with one size.
    Row {
        words: &["replay", "--levels", "2", "three.toml", "e:a", "c:c"],
        files: &[
            StoredFile {
                name: "a",
                text: "0.1 s - 0\n\
                    1.1 r 0.1 0\n\
                    1.2 s - 0\n\
                    2.1 r 1.2 0\n\
                    2.2 u - 0\n",
                fail_reads: &[],
            },
            StoredFile {
                name: "c",
                text: "stamp 0.1\n\
                    stamp 1.1\n\
                    stamp 2.1\n\
                    stamp 2.2\n\
                    before 0.1 2.2\n",
                fail_reads: &[],
            },
        ],
        status: 0,
        text: "traces 3\n\
            levels 2\n\
            journal 11\n\
            came 0 0.1 s - 0\n\
            gone 0.1\n\
            came 0 1.1 r 0.1 0\n\
            gone 1.1\n\
            came 0 1.2 s - 0\n\
            gone 1.2\n\
            came 0 2.1 r 1.2 0\n\
            gone 2.1\n\
            came 0 2.2 u - 0\n\
            gone 2.2\n\
            ended 0\n\
            client 0 5\n\
            at 11 stamp 0.1 = level 1 0=1\n\
            at 11 stamp 1.1 = level 1 0=1 1=1\n\
            at 11 stamp 2.1 = level 2 0=1 1=2 2=1\n\
            at 11 stamp 2.2 = level 1 2=2\n\
            at 11 before 0.1 2.2 = yes\n\
            closing 0\n\
            collector 0 accepted 5 repeats 0 clashes 0 end\n\
            held 0\n\
            status 0\n",
    },
    // Stamps with two sizes.
    Row {
        words: &[
            "replay",
            "--levels",
            "2,4",
            "five.toml",
            "e:a",
            "c:c",
            "z:z",
        ],
        files: &[
            StoredFile {
                name: "a",
                text: "0.1 s - 0\n\
                    1.1 r 0.1 0\n\
                    2.1 s - 0\n\
                    3.1 r 2.1 0\n\
                    1.2 s - 0\n\
                    2.2 r 1.2 0\n\
                    2.3 u - 0\n\
                    2.4 s - 0\n\
                    4.1 r 2.4 0\n\
                    4.2 u - 0\n\
                    4.3 s - 0\n\
                    0.2 r 4.3 0\n\
                    0.3 s - 0\n\
                    2.5 r 0.3 0\n\
                    2.6 u - 0\n",
                fail_reads: &[],
            },
            StoredFile {
                name: "c",
                text: "stamp 2.2\n\
                    stamp 4.1\n\
                    stamp 0.2\n\
                    stamp 2.5\n\
                    stamp 2.6\n",
                fail_reads: &[],
            },
            StoredFile {
                name: "z",
                text: "before 4.3 2.6\n",
                fail_reads: &[],
            },
        ],
        status: 0,
        text: "traces 5\n\
            levels 2 4\n\
            journal 31\n\
            came 0 0.1 s - 0\n\
            gone 0.1\n\
            came 0 1.1 r 0.1 0\n\
            gone 1.1\n\
            came 0 2.1 s - 0\n\
            gone 2.1\n\
            came 0 3.1 r 2.1 0\n\
            gone 3.1\n\
            came 0 1.2 s - 0\n\
            gone 1.2\n\
            came 0 2.2 r 1.2 0\n\
            gone 2.2\n\
            came 0 2.3 u - 0\n\
            gone 2.3\n\
            came 0 2.4 s - 0\n\
            gone 2.4\n\
            came 0 4.1 r 2.4 0\n\
            gone 4.1\n\
            came 0 4.2 u - 0\n\
            gone 4.2\n\
            came 0 4.3 s - 0\n\
            gone 4.3\n\
            came 0 0.2 r 4.3 0\n\
            gone 0.2\n\
            came 0 0.3 s - 0\n\
            gone 0.3\n\
            came 0 2.5 r 0.3 0\n\
            gone 2.5\n\
            came 0 2.6 u - 0\n\
            gone 2.6\n\
            ended 0\n\
            client 0 5\n\
            at 31 stamp 2.2 = level 2 0=1 1=2 2=2 3=0\n\
            at 31 stamp 4.1 = level 3 0=1 1=2 2=4 3=0 4=1\n\
            at 31 stamp 0.2 = level 3 0=2 1=2 2=4 3=0 4=3\n\
            at 31 stamp 2.5 = level 2 0=3 1=2 2=5 3=0\n\
            at 31 stamp 2.6 = level 1 2=6 3=0\n\
            closing 1\n\
            at 31 before 4.3 2.6 = yes\n\
            collector 0 accepted 15 repeats 0 clashes 0 end\n\
            held 0\n\
            status 0\n",
    },
    // Clusters of one trace.
    Row {
        words: &["replay", "--levels", "1", "three.toml", "e:a", "c:c"],
        files: &[
            StoredFile {
                name: "a",
                text: "0.1 s - 0\n\
                    1.1 r 0.1 0\n\
                    1.2 s - 0\n\
                    1.3 r 1.2 0\n",
                fail_reads: &[],
            },
            StoredFile {
                name: "c",
                text: "stamp 1.1\n\
                    stamp 1.3\n",
                fail_reads: &[],
            },
        ],
        status: 0,
        text: "traces 3\n\
            levels 1\n\
            journal 9\n\
            came 0 0.1 s - 0\n\
            gone 0.1\n\
            came 0 1.1 r 0.1 0\n\
            gone 1.1\n\
            came 0 1.2 s - 0\n\
            gone 1.2\n\
            came 0 1.3 r 1.2 0\n\
            gone 1.3\n\
            ended 0\n\
            client 0 2\n\
            at 9 stamp 1.1 = level 2 0=1 1=1 2=0\n\
            at 9 stamp 1.3 = level 1 1=3\n\
            closing 0\n\
            collector 0 accepted 4 repeats 0 clashes 0 end\n\
            held 0\n\
            status 0\n",
    },
    // Clusters that merge at the second communication.
    Row {
        words: &[
            "replay",
            "--levels",
            "2",
            "--after",
            "2",
            "three.toml",
            "e:a",
            "c:c",
        ],
        files: &[
            StoredFile {
                name: "a",
                text: "0.1 s - 0\n\
                    1.1 r 0.1 0\n\
                    1.2 r 0.1 0\n\
                    1.3 u - 0\n",
                fail_reads: &[],
            },
            StoredFile {
                name: "c",
                text: "stamp 1.1\n\
                    stamp 1.2\n\
                    stamp 1.3\n\
                    before 0.1 1.3\n",
                fail_reads: &[],
            },
        ],
        status: 0,
        text: "traces 3\n\
            levels 2 after 2\n\
            journal 9\n\
            came 0 0.1 s - 0\n\
            gone 0.1\n\
            came 0 1.1 r 0.1 0\n\
            gone 1.1\n\
            came 0 1.2 r 0.1 0\n\
            gone 1.2\n\
            came 0 1.3 u - 0\n\
            gone 1.3\n\
            ended 0\n\
            client 0 4\n\
            at 9 stamp 1.1 = level 2 0=1 1=1 2=0\n\
            at 9 stamp 1.2 = level 1 0=1 1=2\n\
            at 9 stamp 1.3 = level 1 0=1 1=3\n\
            at 9 before 0.1 1.3 = yes\n\
            closing 0\n\
            collector 0 accepted 4 repeats 0 clashes 0 end\n\
            held 0\n\
            status 0\n",
    },
    // A repeat and a clash.
    Row {
        words: &["replay", "three.toml", "e:a", "e:b"],
        files: &[
            StoredFile {
                name: "a",
                text: "0.1 u - 1\n",
                fail_reads: &[],
            },
            StoredFile {
                name: "b",
                text: "0.1 u - 1\n\
                    0.1 u - 1 x\n",
                fail_reads: &[],
            },
        ],
        status: 9,
        text: "traces 3\n\
            levels 8 32\n\
            journal 4\n\
            came 0 0.1 u - 1\n\
            gone 0.1\n\
            ended 0\n\
            ended 1\n\
            closing 0\n\
            collector 0 accepted 1 repeats 0 clashes 0 end\n\
            collector 1 accepted 0 repeats 1 clashes 1 end\n\
            clash 0.1\n\
            held 0\n\
            status 9\n",
    },
];
