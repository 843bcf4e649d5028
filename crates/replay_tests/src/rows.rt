//! Runs that were worked out by hand, in a table for each kind.

pub mod damaged;
pub mod deliveries;
pub mod files;
pub mod lines;
pub mod loads;
pub mod neighbours;
pub mod words;

/// A file: its name, its text, and the numbers of the reads that fail.
pub struct StoredFile {
    pub name: &'static str,
    pub text: &'static str,
    pub fail_reads: &'static [u64],
}

/// A run: its words and its files, and the status and the text that come. The files `three.toml` and
/// `five.toml` are always there, and `closed` doesn't open.
pub struct Row {
    pub words: &'static [&'static str],
    pub files: &'static [StoredFile],
    pub status: u8,
    pub text: &'static str,
}

/// Unary events `u`, sends `s` with receives `r`, and syncs `y`, behind the traces.
pub const TYPES: &str = "[[event]]\nname = \"u\"\nkind = \"unary\"\n\
    [[event]]\nname = \"s\"\nkind = \"send\"\nmate = \"r\"\n\
    [[event]]\nname = \"r\"\nkind = \"receive\"\nmate = \"s\"\n\
    [[event]]\nname = \"y\"\nkind = \"sync\"\nmate = \"y\"\n";
