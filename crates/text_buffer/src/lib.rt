//! Text on its way to a sink, which leaves in large pieces: it is gathered in a buffer of fixed
//! size on the stack. Nothing here takes memory.
#![tactic(auto)]

pub use buffer::{Buffer, put_whole};
pub use limits::FULL_BUFFER;
pub use printed::Printed;

mod buffer;
mod limits;
mod printed;
mod room;
