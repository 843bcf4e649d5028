//! Which traces lead, told by a look at one trace, or at those that wait.

ghost use Rattle.std.specs.Prelude.{◌≡◌, ◌≢◌, ◌<◌, ◌⊎◌, ℕ, reverse, Contains, IfSome, IfNone};
ghost use Rattle.causal_base.specs.declared.block.Block.{Block};
ghost use Rattle.causal_base.specs.declared.event_id.EventId.{EventId};
ghost use Rattle.causal_base.specs.declared.limits.TheConstants.{MOST_TRACES};
ghost use Rattle.causal_base.specs.Past.{came, deliveries, HasTrace, IsEnabled, IsHistoryOf};
ghost use Rattle.partner_match.specs.Waiting.{waiting_for};
ghost use Rattle.delivery.specs.Leading.{first_trace, Leads};
ghost use Rattle.delivery.specs.TraceSets.{IsIn};

use crate::trace_set::TraceSet;
use causal_base::{Accepted, Block, EventId, Types, enabled_on};
use causal_laws::next_is_one;
use journal::Journal;
use partner_match::Matcher;

/// The enabled block that has an event of a trace, if there is one. Most events name none and go by
/// their trace alone, so that they needn't be read for that.
pub(crate) fn enabled_of(types: &Types, journal: &Journal, trace: u32) -> Option<Block>
    requires history { IsHistoryOf types.now (came (reverse journal.now))
        (deliveries (reverse journal.now)) }
    requires trace { trace < types.now.traces }
    ensures some { IfSome result (λ block. HasTrace block trace
        × IsEnabled types.now (reverse journal.now) block) }
    ensures none { IfNone result ((block : Block) → IsEnabled types.now (reverse journal.now) block
        → HasTrace block trace → ⊥) }
{
    // Reading the number of traces shows that the types are a table.
    let _traces = types.traces();
    let id = EventId {
        trace,
        number: journal.delivered_on(trace) + 1,
    };
    match journal.names_another(id) {
        Some(true) => enabled_on(types, journal, trace),
        Some(false) => Some(Block::One(id)),
        None => None,
    }
}

/// Adds to the set the trace that leads the enabled block with an event of this trace, if there is
/// one.
pub(crate) fn look(types: &Types, journal: &Journal, ready: &mut TraceSet, trace: u32)
    requires { IsHistoryOf types.now (came (reverse journal.now))
        (deliveries (reverse journal.now)) }
    ensures kept { (other : ℕ) → other < MOST_TRACES → IsIn ready.old other → IsIn ready.new other }
    ensures sound { (other : ℕ) → other < MOST_TRACES → IsIn ready.new other
        → IsIn ready.old other
        ⊎ Leads types.now (came (reverse journal.now)) (deliveries (reverse journal.now)) other }
    ensures found { (block : Block) → IsEnabled types.now (reverse journal.now) block
        → HasTrace block trace → IsIn ready.new (first_trace block) }
{
    next_is_one();
    if trace >= types.traces() {
        return;
    }
    if let Some(block) = enabled_of(types, journal, trace) {
        ready.insert(trace_of(block));
    }
}

/// Looks at each of these traces.
pub(crate) fn look_at_each(types: &Types, journal: &Journal, ready: &mut TraceSet, traces: &[u32])
    requires { IsHistoryOf types.now (came (reverse journal.now))
        (deliveries (reverse journal.now)) }
    ensures kept { (other : ℕ) → other < MOST_TRACES → IsIn ready.old other → IsIn ready.new other }
    ensures sound { (other : ℕ) → other < MOST_TRACES → IsIn ready.new other
        → IsIn ready.old other
        ⊎ Leads types.now (came (reverse journal.now)) (deliveries (reverse journal.now)) other }
    ensures found { (block : Block) (trace : ℕ) → IsEnabled types.now (reverse journal.now) block
        → HasTrace block trace → Contains traces.now trace → IsIn ready.new (first_trace block) }
{
    // Reading the number of traces shows that the types are a table.
    let _traces = types.traces();
    for trace in traces {
        look(types, journal, ready, *trace);
    }
}

/// Looks at each trace that waits for the event with this id, and has none of them wait for it any
/// more.
pub(crate) fn wake(
    types: &Types,
    journal: &Journal,
    waiting: &mut Matcher,
    ready: &mut TraceSet,
    id: EventId,
)
    requires { IsHistoryOf types.now (came (reverse journal.now))
        (deliveries (reverse journal.now)) }
    ensures kept { (other : ℕ) → other < MOST_TRACES → IsIn ready.old other → IsIn ready.new other }
    ensures sound { (other : ℕ) → other < MOST_TRACES → IsIn ready.new other
        → IsIn ready.old other
        ⊎ Leads types.now (came (reverse journal.now)) (deliveries (reverse journal.now)) other }
    ensures found { (block : Block) (trace : ℕ) → IsEnabled types.now (reverse journal.now) block
        → HasTrace block trace → Contains (waiting_for waiting.old id) trace
        → IsIn ready.new (first_trace block) }
    ensures others { (other : EventId) → other ≢ id
        → waiting_for waiting.new other ≡ waiting_for waiting.old other }
{
    let traces = waiting.woken(id);
    // Most events are waited for by none, and nothing is to be forgotten then.
    if traces.is_empty() {
        return;
    }
    look_at_each(types, journal, ready, traces);
    waiting.forget(id);
}

/// The trace with which a block leads.
fn trace_of(block: Block) -> u32
    ensures { result ≡ first_trace block }
{
    match block {
        Block::One(id) | Block::Two(id, _) => id.trace,
    }
}
