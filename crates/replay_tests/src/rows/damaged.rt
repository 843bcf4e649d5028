//! Files with faults, and reads that fail.

use super::{Row, StoredFile};

/// The runs.
pub fn damaged() -> &'static [Row] {
    &DAMAGED
}

const DAMAGED: [Row; 6] = [
    // A file that ends within a line.
    Row {
        words: &["replay", "three.toml", "e:a"],
        files: &[StoredFile {
            name: "a",
            text: "0.1 u - 1\n\
                    .\n\
                    0.2 u - 2",
            fail_reads: &[],
        }],
        status: 6,
        text: "traces 3\n\
            levels 8 32\n\
            journal 3\n\
            came 0 0.1 u - 1\n\
            gone 0.1\n\
            ended 0\n\
            closing 0\n\
            collector 0 accepted 1 repeats 0 clashes 0 line 3 Unended\n\
            held 0\n\
            status 6\n",
    },
    // Reads that fail: the second, the first, and one that isn't made.
    Row {
        words: &["replay", "three.toml", "e:a"],
        files: &[StoredFile {
            name: "a",
            text: "0.1 u - 1\n\
                    .\n\
                    0.2 u - 2\n",
            fail_reads: &[2],
        }],
        status: 2,
        text: "traces 3\n\
            levels 8 32\n\
            journal 3\n\
            came 0 0.1 u - 1\n\
            gone 0.1\n\
            ended 0\n\
            closing 0\n\
            collector 0 accepted 1 repeats 0 clashes 0 read\n\
            held 0\n\
            status 2\n",
    },
    Row {
        words: &["replay", "three.toml", "e:a"],
        files: &[StoredFile {
            name: "a",
            text: "0.1 u - 1\n\
                    .\n\
                    0.2 u - 2\n",
            fail_reads: &[1],
        }],
        status: 2,
        text: "traces 3\n\
            levels 8 32\n\
            journal 1\n\
            ended 0\n\
            closing 0\n\
            collector 0 accepted 0 repeats 0 clashes 0 read\n\
            held 0\n\
            status 2\n",
    },
    Row {
        words: &["replay", "three.toml", "e:a"],
        files: &[StoredFile {
            name: "a",
            text: "0.1 u - 1\n\
                    .\n\
                    0.2 u - 2\n",
            fail_reads: &[3],
        }],
        status: 0,
        text: "traces 3\n\
            levels 8 32\n\
            journal 5\n\
            came 0 0.1 u - 1\n\
            gone 0.1\n\
            came 0 0.2 u - 2\n\
            gone 0.2\n\
            ended 0\n\
            closing 0\n\
            collector 0 accepted 2 repeats 0 clashes 0 end\n\
            held 0\n\
            status 0\n",
    },
    // A fault of a line, and a read that fails in another file.
    Row {
        words: &["replay", "three.toml", "e:a", "e:b"],
        files: &[
            StoredFile {
                name: "a",
                text: "0.1 u - 1 \n",
                fail_reads: &[],
            },
            StoredFile {
                name: "b",
                text: "0.1 u - 1\n",
                fail_reads: &[1],
            },
        ],
        status: 2,
        text: "traces 3\n\
            levels 8 32\n\
            journal 2\n\
            ended 0\n\
            ended 1\n\
            closing 0\n\
            collector 0 accepted 0 repeats 0 clashes 0 line 1 Shape\n\
            collector 1 accepted 0 repeats 0 clashes 0 read\n\
            held 0\n\
            status 2\n",
    },
    Row {
        words: &["replay", "three.toml", "e:a", "e:b"],
        files: &[
            StoredFile {
                name: "a",
                text: "",
                fail_reads: &[],
            },
            StoredFile {
                name: "b",
                text: "0.1 u - 1\n",
                fail_reads: &[1],
            },
        ],
        status: 2,
        text: "traces 3\n\
            levels 8 32\n\
            journal 2\n\
            ended 0\n\
            ended 1\n\
            closing 0\n\
            collector 0 accepted 0 repeats 0 clashes 0 end\n\
            collector 1 accepted 0 repeats 0 clashes 0 read\n\
            held 0\n\
            status 2\n",
    },
];
