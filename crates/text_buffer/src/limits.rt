/// How many bytes are gathered before they are handed on.
pub const FULL_BUFFER: usize = 8_192;

/// How many bytes fit into a buffer. A line of usual length still fits behind bytes that are about
/// to be handed on, so it never has to be written anew.
pub const ROOM: usize = FULL_BUFFER + 512;
