ghost use Rattle.std.specs.Prelude.{◌≡◌, IfOk};

use crate::event_id::EventId;
use crate::text::Text;
use std::alloc::{AllocError, Global};

/// An event as a collector brings it: its id, the number of its type, the event that it names, a
/// time that is only carried, and a text.
#[derive(Debug, PartialEq, Eq, Drop)]
pub struct Event {
    pub id: EventId,
    pub type_no: u8,
    pub mate: Option<EventId>,
    pub time: u64,
    pub text: Text,
}

impl Event {
    /// An equal event.
    pub fn copy(&self, alloc: Global) -> Result<Event, AllocError>
        ensures { IfOk result (λ event. event ≡ self.now) }
    {
        Ok(Event {
            id: self.id,
            type_no: self.type_no,
            mate: self.mate,
            time: self.time,
            text: Text::new(alloc, self.text.bytes())?,
        })
    }
}
