//! One turn, shared by threads. Whoever has it has the value, sees the value's whole journal, and
//! may append to it.
//!
//! A [`Turnstile`] has a value that stands for a journal ([`StandsFor`]), and a number of seats.
//! Each thread comes with a [`Pass`]. It has a range of the seats, of which the first is its own
//! number, and it has seen a prefix of the journal.
//!
//! 1. A pass draws: it has the turn where nobody has it, and else it is told so and goes on.
//! 2. With the turn it looks: it has then seen the whole journal, and takes the value out.
//! 3. The value's journal goes on, by entries of the pass's own number.
//! 4. To give the turn back, these entries are appended to the one journal, the value is put back,
//!    and the turn is served.
//!
//! A pass may look without a turn, be split within its range, and be joined to another. Who has the
//! weight of all seats closes the turnstile and has the value again.
//!
//! `specs/Rule.antt` says what holds between any two steps of all threads: there is one journal, of
//! which each pass has seen a prefix; one pass at most has the turn; no two ranges meet; and the
//! weights add up to the seats. Nothing says that anybody gets the turn.
#![tactic(auto)]

pub use pass::Pass;
pub use stands_for::StandsFor;
pub use turn::{Turn, Turned};
pub use turnstile::Turnstile;
pub use view::View;

mod pass;
mod plays;
mod rule;
mod stands_for;
mod turn;
mod turnstile;
mod view;
