//! The clock of an event, found by going back through a journal.

ghost use Rattle.std.specs.Prelude.{◌≡◌, ◌<◌, ◌≤◌, ◌↔◌, ℕ, true, length, reverse, Contains, slice_index, IsTrue};
ghost use Rattle.causal_base.specs.declared.event.Event.{Event};
ghost use Rattle.causal_base.specs.Types.{TypeTable};
ghost use Rattle.causal_base.specs.Past.{came, delivered};
ghost use Rattle.causal_base.specs.Journal.{IsLegal};
ghost use Rattle.causal_base.specs.Clocks.{HasClocks};
ghost use Rattle.causal_base.specs.ClockWalks.{is_within, GoesBack, Raises, RaisesMate, TellsReach};

use crate::accepted::Accepted;
use crate::entry::Entry;
use crate::event_id::EventId;
use crate::indexed_journal::IndexedJournal;

/// Writes the clock of the delivered event `end`, a number for each trace. It goes back through the
/// journal once: what an entry delivered is in the past of `end` exactly where its number is within
/// the numbers so far, and then what it names is, too.
pub fn write_clock(journal: &IndexedJournal, end: EventId, into: &mut [u32])
    requires legal { (types : TypeTable) × IsLegal types journal.now
        × (types.traces ≤ length into.old) }
    requires trace { end.trace < length into.old }
    ensures clock { (types : TypeTable) (e : Event) → IsLegal types journal.now
        → types.traces ≤ length into.old
        → Contains (delivered (reverse journal.now)) e → e.id ≡ end
        → HasClocks types (delivered (reverse journal.now)) end into.new }
    ensures reach { (types : TypeTable) (e : Event) → IsLegal types journal.now
        → types.traces ≤ length into.old
        → Contains (delivered (reverse journal.now)) e → e.id ≡ end
        → TellsReach types (delivered (reverse journal.now)) e into.new }
{
    clear(into);
    raise(into, end);
    let mut left = journal.entries().len();
    while left > 0 {
        left -= 1;
        go_back(journal, left, into);
    }
}

/// Goes back over one entry: where it delivered what is within the clock, what that names is, too.
fn go_back(journal: &IndexedJournal, place: usize, into: &mut [u32])
    requires legal { (types : TypeTable) × IsLegal types journal.now
        × (types.traces ≤ length into.old) }
    requires place { place < length journal.now }
    ensures { (types : TypeTable) (e : Event) → IsLegal types journal.now
        → types.traces ≤ length into.old → GoesBack types journal.now place e into.old into.new }
{
    match &journal.entries()[place] {
        Entry::Gone(id) => {
            if is_within(into, *id) {
                raise_to_mate(journal, *id, into);
            }
        }
        Entry::Pair(first, second) => {
            if is_within(into, *first) || is_within(into, *second) {
                raise(into, *first);
                raise(into, *second);
            }
        }
        _ => {}
    }
}

/// Counts the event that the event with this id names, if it came and names one.
fn raise_to_mate(journal: &IndexedJournal, id: EventId, into: &mut [u32])
    requires legal { (types : TypeTable) × IsLegal types journal.now
        × (types.traces ≤ length into.old) }
    ensures { (types : TypeTable) (e : Event) → IsLegal types journal.now
        → Contains (came (reverse journal.now)) e → e.id ≡ id
        → RaisesMate e.mate into.old into.new }
{
    if let Some(event) = journal.event(id) {
        if let Some(mate) = event.mate {
            raise(into, mate);
        }
    }
}

/// Whether the clock counts the event with this id.
fn is_within(clock: &[u32], id: EventId) -> bool
    requires { id.trace < length clock.now }
    ensures { result ≡ is_within clock.now id }
{
    id.number <= clock[id.trace as usize]
}

/// Makes the clock count the event with this id, and those before it on its trace.
fn raise(clock: &mut [u32], id: EventId)
    requires { id.trace < length clock.old }
    ensures { Raises id clock.old clock.new }
{
    let trace = id.trace as usize;
    if clock[trace] < id.number {
        clock[trace] = id.number;
    }
}

/// Makes the clock count nothing.
fn clear(clock: &mut [u32])
    ensures { (trace : ℕ) → slice_index clock.new trace ≡ 0 }
{
    for number in clock.iter_mut() {
        *number = 0;
    }
}
