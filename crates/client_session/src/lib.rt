//! Clients: a client is a script of questions, one a line, and each question has one reply.
//!
//! [`Script::read`] takes the bytes of a script file, and refuses the first fault by its line and
//! its cause. A [`Session`] asks the commands of a script, of anything that is a
//! [`Book`](causal_base::Book): of the server's state itself, or of a view of it. What a command
//! says is told in `specs/Replies.antt` over a journal alone, so a reply is the same whoever keeps
//! the journal, and in which form.
#![tactic(auto)]

pub use command::Command;
pub use command_text::put_command;
pub use limits::{MOST_COMMANDS, MOST_LINE, MOST_SCRIPT};
pub use script::Script;
pub use script_error::{ScriptCause, ScriptError};
pub use session::Session;

mod arguments;
mod command;
mod command_text;
mod cuts;
mod limits;
mod line;
mod lines;
mod neighbours;
mod own_words;
mod replies;
mod script;
mod script_error;
mod session;
mod words;
