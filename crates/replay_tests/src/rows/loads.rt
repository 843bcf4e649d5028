//! Loads.

use super::Row;

/// The runs.
pub fn loads() -> &'static [Row] {
    &LOADS
}

const LOADS: [Row; 4] = [
    Row {
        words: &["load", "0"],
        files: &[],
        status: 0,
        text: "load 0\n\
            journal 3\n\
            parts 0\n\
            full 0\n\
            past 0\n\
            status 0\n",
    },
    Row {
        words: &["load", "1"],
        files: &[],
        status: 0,
        text: "load 1\n\
            journal 5\n\
            parts 1\n\
            full 0\n\
            past 0\n\
            status 0\n",
    },
    Row {
        words: &["load", "2"],
        files: &[],
        status: 0,
        text: "load 2\n\
            journal 7\n\
            parts 2\n\
            full 0\n\
            past 0\n\
            status 0\n",
    },
    Row {
        words: &["load", "4"],
        files: &[],
        status: 0,
        text: "load 4\n\
            journal 10\n\
            parts 6\n\
            full 0\n\
            past 0\n\
            status 0\n",
    },
];
