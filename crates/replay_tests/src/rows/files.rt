//! Files that keep a run from beginning.

use super::{Row, StoredFile};

/// The runs.
pub fn files() -> &'static [Row] {
    &FILES
}

const FILES: [Row; 12] = [
    // Files that aren't there, don't open, or can't be read.
    Row {
        words: &["replay", "absent.toml", "e:a"],
        files: &[StoredFile {
            name: "a",
            text: "",
            fail_reads: &[],
        }],
        status: 2,
        text: "poet: open absent.toml\n",
    },
    Row {
        words: &["replay", "closed", "e:a"],
        files: &[StoredFile {
            name: "a",
            text: "",
            fail_reads: &[],
        }],
        status: 2,
        text: "poet: open closed\n",
    },
    Row {
        words: &["replay", "three.toml", "e:a", "e:absent"],
        files: &[StoredFile {
            name: "a",
            text: "",
            fail_reads: &[],
        }],
        status: 2,
        text: "poet: open absent\n",
    },
    Row {
        words: &["replay", "three.toml", "e:a", "e:closed"],
        files: &[StoredFile {
            name: "a",
            text: "",
            fail_reads: &[],
        }],
        status: 2,
        text: "poet: open closed\n",
    },
    Row {
        words: &["replay", "three.toml", "e:a", "c:absent", "z:closed"],
        files: &[StoredFile {
            name: "a",
            text: "",
            fail_reads: &[],
        }],
        status: 2,
        text: "poet: open absent\n",
    },
    Row {
        words: &["replay", "three.toml", "e:a", "c:q"],
        files: &[
            StoredFile {
                name: "a",
                text: "",
                fail_reads: &[],
            },
            StoredFile {
                name: "q",
                text: "count\n",
                fail_reads: &[1],
            },
        ],
        status: 2,
        text: "poet: read q\n",
    },
    Row {
        words: &["replay", "three.toml", "e:a", "z:q"],
        files: &[
            StoredFile {
                name: "a",
                text: "",
                fail_reads: &[],
            },
            StoredFile {
                name: "q",
                text: "count\n",
                fail_reads: &[2],
            },
        ],
        status: 2,
        text: "poet: read q\n",
    },
    // The first that fails is told.
    Row {
        words: &["replay", "bad.toml", "e:absent", "c:q"],
        files: &[
            StoredFile {
                name: "bad.toml",
                text: "traces = 1\n",
                fail_reads: &[],
            },
            StoredFile {
                name: "q",
                text: "x\n",
                fail_reads: &[],
            },
        ],
        status: 4,
        text: "poet: target NoTraces\n",
    },
    Row {
        words: &["replay", "twice.toml", "e:a"],
        files: &[
            StoredFile {
                name: "a",
                text: "",
                fail_reads: &[],
            },
            StoredFile {
                name: "twice.toml",
                text: "traces = [\"p\"]\n\
                    [[event]]\n\
                    name = \"u\"\n\
                    kind = \"unary\"\n\
                    [[event]]\n\
                    name = \"u\"\n\
                    kind = \"unary\"\n",
                fail_reads: &[],
            },
        ],
        status: 4,
        text: "poet: target TwiceType 1\n",
    },
    Row {
        words: &["replay", "three.toml", "e:a", "c:q", "c:r", "z:z"],
        files: &[
            StoredFile {
                name: "a",
                text: "",
                fail_reads: &[],
            },
            StoredFile {
                name: "q",
                text: "count\n",
                fail_reads: &[],
            },
            StoredFile {
                name: "r",
                text: "count\n\
                    count 0.1\n",
                fail_reads: &[],
            },
            StoredFile {
                name: "z",
                text: "stamp 0.1\n",
                fail_reads: &[],
            },
        ],
        status: 5,
        text: "poet: client 1 2 Shape\n",
    },
    Row {
        words: &["replay", "three.toml", "e:a", "z:z"],
        files: &[
            StoredFile {
                name: "a",
                text: "",
                fail_reads: &[],
            },
            StoredFile {
                name: "z",
                text: "stamp 0.1\n",
                fail_reads: &[],
            },
        ],
        status: 5,
        text: "poet: closing 1 NotInClosing\n",
    },
    Row {
        words: &["replay", "three.toml", "e:a", "c:q"],
        files: &[
            StoredFile {
                name: "a",
                text: "",
                fail_reads: &[],
            },
            StoredFile {
                name: "q",
                text: "find x\n",
                fail_reads: &[],
            },
        ],
        status: 5,
        text: "poet: client 0 1 NoCommand\n",
    },
];
