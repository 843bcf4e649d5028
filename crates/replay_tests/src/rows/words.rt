//! Words that ask for nothing.

use super::{Row, StoredFile};

/// The runs.
pub fn words() -> &'static [Row] {
    &WORDS
}

const WORDS: [Row; 11] = [
    Row {
        words: &["load", "400001"],
        files: &[],
        status: 1,
        text: "poet: words\n",
    },
    // Words that ask for nothing.
    Row {
        words: &["replay", "--levels", "8,8", "three.toml", "e:a"],
        files: &[StoredFile {
            name: "a",
            text: "",
            fail_reads: &[],
        }],
        status: 1,
        text: "poet: words\n",
    },
    Row {
        words: &["replay", "three.toml"],
        files: &[StoredFile {
            name: "a",
            text: "",
            fail_reads: &[],
        }],
        status: 1,
        text: "poet: words\n",
    },
    Row {
        words: &["replay", "three.toml", "c:a"],
        files: &[StoredFile {
            name: "a",
            text: "",
            fail_reads: &[],
        }],
        status: 1,
        text: "poet: words\n",
    },
    Row {
        words: &["replay", "three.toml", "e:"],
        files: &[StoredFile {
            name: "a",
            text: "",
            fail_reads: &[],
        }],
        status: 1,
        text: "poet: words\n",
    },
    Row {
        words: &["replay", "--after", "0", "three.toml", "e:a"],
        files: &[StoredFile {
            name: "a",
            text: "",
            fail_reads: &[],
        }],
        status: 1,
        text: "poet: words\n",
    },
    Row {
        words: &["replay", "--after", "1001", "three.toml", "e:a"],
        files: &[StoredFile {
            name: "a",
            text: "",
            fail_reads: &[],
        }],
        status: 1,
        text: "poet: words\n",
    },
    Row {
        words: &[
            "replay",
            "--after",
            "2",
            "--levels",
            "2",
            "three.toml",
            "e:a",
        ],
        files: &[StoredFile {
            name: "a",
            text: "",
            fail_reads: &[],
        }],
        status: 1,
        text: "poet: words\n",
    },
    Row {
        words: &["replay", "three.toml", "e:a", "z:a", "z:a"],
        files: &[StoredFile {
            name: "a",
            text: "",
            fail_reads: &[],
        }],
        status: 1,
        text: "poet: words\n",
    },
    Row {
        words: &["replay", "three.toml", "e:a", "p:a"],
        files: &[StoredFile {
            name: "a",
            text: "",
            fail_reads: &[],
        }],
        status: 1,
        text: "poet: words\n",
    },
    Row {
        words: &["run", "three.toml", "e:a"],
        files: &[StoredFile {
            name: "a",
            text: "",
            fail_reads: &[],
        }],
        status: 1,
        text: "poet: words\n",
    },
];
