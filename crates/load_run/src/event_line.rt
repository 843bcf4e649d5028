use answer_text::put_event;
use causal_base::{Event, Types};
use poet_io::{Failed, Sink, put};
use text_buffer::Printed;

/// The line of an event, with its end.
#[derive(Clone, Copy)]
pub struct EventLine<'a> {
    /// The types of the event.
    pub types: &'a Types,
    /// The event.
    pub event: &'a Event,
}

impl Printed for EventLine<'_> {
    ghost use Rattle.causal_base.specs.Event.{IsFit};
    ghost use Rattle.load_run.specs.LoadTexts.{line_of};

    ghost text = { λ line. line_of line.types.now line.event.now };

    ghost printable = { λ line. IsFit line.types.now line.event.now };

    fn put<K: Sink>(&self, out: &mut K) -> Result<(), Failed> {
        put_event(out, self.types, self.event)?;
        put(out, b"\n")
    }
}
