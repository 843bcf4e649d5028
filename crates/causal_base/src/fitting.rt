//! Which events of two traces belong together.

ghost use Rattle.std.specs.Prelude.{◌<◌, ◌↔◌, length, IsTrue};
ghost use Rattle.causal_base.specs.Event.{Fits, Pairs};

use crate::event::Event;
use crate::kind::Kind;
use crate::types::Types;

/// Whether the later event is a receive of the earlier one, or watches it. Both are of types in the
/// table.
pub fn fits(types: &Types, later: &Event, earlier: &Event) -> bool
    requires later { later.now.type_no < length types.now.rows }
    requires earlier { earlier.now.type_no < length types.now.rows }
    ensures { IsTrue result ↔ Fits types.now later.now earlier.now }
{
    later.mate == Some(earlier.id)
        && match types.kind(later.type_no) {
            Kind::Receive => {
                types.kind(earlier.type_no) == Kind::Send
                    && types.mate(later.type_no) == Some(earlier.type_no)
                    && types.mate(earlier.type_no) == Some(later.type_no)
            }
            Kind::Watch => true,
            _ => false,
        }
}

/// Whether two events are partners: they are sync events of two traces that name each other, of
/// types that are mates.
pub fn pairs(types: &Types, a: &Event, b: &Event) -> bool
    requires first { a.now.type_no < length types.now.rows }
    requires second { b.now.type_no < length types.now.rows }
    ensures { IsTrue result ↔ Pairs types.now a.now b.now }
{
    a.id.trace != b.id.trace
        && a.mate == Some(b.id)
        && b.mate == Some(a.id)
        && types.kind(a.type_no) == Kind::Sync
        && types.kind(b.type_no) == Kind::Sync
        && types.mate(a.type_no) == Some(b.type_no)
        && types.mate(b.type_no) == Some(a.type_no)
}
