//! Lines with a fault.

use super::{Row, StoredFile};

/// The runs.
pub fn lines() -> &'static [Row] {
    &LINES
}

const LINES: [Row; 10] = [
    // Lines with a fault.
    Row {
        words: &["replay", "three.toml", "e:a"],
        files: &[StoredFile {
            name: "a",
            text: "0.1 u - 1 \n",
            fail_reads: &[],
        }],
        status: 6,
        text: "traces 3\n\
            levels 8 32\n\
            journal 1\n\
            ended 0\n\
            closing 0\n\
            collector 0 accepted 0 repeats 0 clashes 0 line 1 Shape\n\
            held 0\n\
            status 6\n",
    },
    Row {
        words: &["replay", "three.toml", "e:a"],
        files: &[StoredFile {
            name: "a",
            text: "0.01 u - 1\n",
            fail_reads: &[],
        }],
        status: 6,
        text: "traces 3\n\
            levels 8 32\n\
            journal 1\n\
            ended 0\n\
            closing 0\n\
            collector 0 accepted 0 repeats 0 clashes 0 line 1 BadId\n\
            held 0\n\
            status 6\n",
    },
    Row {
        words: &["replay", "three.toml", "e:a"],
        files: &[StoredFile {
            name: "a",
            text: "7.1 u - 1\n",
            fail_reads: &[],
        }],
        status: 6,
        text: "traces 3\n\
            levels 8 32\n\
            journal 1\n\
            ended 0\n\
            closing 0\n\
            collector 0 accepted 0 repeats 0 clashes 0 line 1 NoTrace\n\
            held 0\n\
            status 6\n",
    },
    Row {
        words: &["replay", "three.toml", "e:a"],
        files: &[StoredFile {
            name: "a",
            text: "0.0 u - 1\n",
            fail_reads: &[],
        }],
        status: 6,
        text: "traces 3\n\
            levels 8 32\n\
            journal 1\n\
            ended 0\n\
            closing 0\n\
            collector 0 accepted 0 repeats 0 clashes 0 line 1 BadNumber\n\
            held 0\n\
            status 6\n",
    },
    Row {
        words: &["replay", "three.toml", "e:a"],
        files: &[StoredFile {
            name: "a",
            text: "0.1 x - 1\n",
            fail_reads: &[],
        }],
        status: 6,
        text: "traces 3\n\
            levels 8 32\n\
            journal 1\n\
            ended 0\n\
            closing 0\n\
            collector 0 accepted 0 repeats 0 clashes 0 line 1 NoType\n\
            held 0\n\
            status 6\n",
    },
    Row {
        words: &["replay", "three.toml", "e:a"],
        files: &[StoredFile {
            name: "a",
            text: "0.1 u 1.1 1\n",
            fail_reads: &[],
        }],
        status: 6,
        text: "traces 3\n\
            levels 8 32\n\
            journal 1\n\
            ended 0\n\
            closing 0\n\
            collector 0 accepted 0 repeats 0 clashes 0 line 1 MateGiven\n\
            held 0\n\
            status 6\n",
    },
    Row {
        words: &["replay", "three.toml", "e:a"],
        files: &[StoredFile {
            name: "a",
            text: "0.1 r - 1\n",
            fail_reads: &[],
        }],
        status: 6,
        text: "traces 3\n\
            levels 8 32\n\
            journal 1\n\
            ended 0\n\
            closing 0\n\
            collector 0 accepted 0 repeats 0 clashes 0 line 1 MateMissing\n\
            held 0\n\
            status 6\n",
    },
    Row {
        words: &["replay", "three.toml", "e:a"],
        files: &[StoredFile {
            name: "a",
            text: "0.1 u - 1x\n",
            fail_reads: &[],
        }],
        status: 6,
        text: "traces 3\n\
            levels 8 32\n\
            journal 1\n\
            ended 0\n\
            closing 0\n\
            collector 0 accepted 0 repeats 0 clashes 0 line 1 BadTime\n\
            held 0\n\
            status 6\n",
    },
    Row {
        words: &["replay", "three.toml", "e:a"],
        files: &[StoredFile {
            name: "a",
            text: "0.1 u - 1 xxxxxxxxxxxxxxxxxxxxxxxxxxxxxxxxxxxxxxxxxxxxxxxxxxxxxxxxxxxxxxxxxxxxxxxxxxxxxxxxxxxxxxxxxxxxxxxxxxxxxxxxxxxxxxxxxxxxxxxxxxxxxxxxxxxxxxxxxxxxxxxxxxxxxxxxxxxxxxxxxxxxxxxxxxxxxxxxxxxxxxxxxxxxxxxxxxxxxxxxx\n",
            fail_reads: &[],
        }],
        status: 6,
        text: "traces 3\n\
            levels 8 32\n\
            journal 1\n\
            ended 0\n\
            closing 0\n\
            collector 0 accepted 0 repeats 0 clashes 0 line 1 LongText\n\
            held 0\n\
            status 6\n",
    },
    Row {
        words: &["replay", "three.toml", "e:a"],
        files: &[StoredFile {
            name: "a",
            text: "xxxxxxxxxxxxxxxxxxxxxxxxxxxxxxxxxxxxxxxxxxxxxxxxxxxxxxxxxxxxxxxxxxxxxxxxxxxxxxxxxxxxxxxxxxxxxxxxxxxxxxxxxxxxxxxxxxxxxxxxxxxxxxxxxxxxxxxxxxxxxxxxxxxxxxxxxxxxxxxxxxxxxxxxxxxxxxxxxxxxxxxxxxxxxxxxxxxxxxxxxxxxxxxxxxxxxxxxxxxxxxxxxxxxxxxxxxxxxxxxxxxxxxxxxxxxxxxxxxxxxxxxxxxxxxxxxxxxxxxxxxxxxxxxxxxxxxxxxxxxxxxxxxxxxxxxxxxxxxxxxxxxxxxxxxxxxxxxxxxxxxxxxxxxxxxxxxxxxxxxxxxxxxxxxxxxxxxxxxxxxxxxxxxxxxxxxxxxxxxxx",
            fail_reads: &[],
        }],
        status: 6,
        text: "traces 3\n\
            levels 8 32\n\
            journal 1\n\
            ended 0\n\
            closing 0\n\
            collector 0 accepted 0 repeats 0 clashes 0 line 1 LongLine\n\
            held 0\n\
            status 6\n",
    },
];
