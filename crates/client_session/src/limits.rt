/// The most bytes of a script file.
pub const MOST_SCRIPT: usize = 1_048_576;

/// The most bytes of a line of a script, without its end.
pub const MOST_LINE: usize = 400;

/// The most commands of a script.
pub const MOST_COMMANDS: u32 = 10_000;
