ghost use Rattle.std.specs.Prelude.{◌≡◌, ◌<◌, ◌++◌, ◌⊎◌, ◌↔◌, ℕ, List, length, Contains, reverse};
ghost use Rattle.causal_base.specs.declared.block.Block.{Block};
ghost use Rattle.causal_base.specs.declared.entry.Entry.{Entry};
ghost use Rattle.causal_base.specs.declared.event.Event.{Event};
ghost use Rattle.causal_base.specs.Types.{TypeTable};
ghost use Rattle.causal_base.specs.History.{EventBlock, all_events, events_of};
ghost use Rattle.causal_base.specs.InTurn.{IsInTurn};
ghost use Rattle.causal_base.specs.Past.{HasEnded, HasNoNextAmong, IsEnabled, IsEnabledAmong, IsHistoryOf};
ghost use Rattle.causal_base.specs.Journal.{IsLegal, IsSettled, came_by, delivered_by};

/// A block that is enabled stays enabled until it is delivered, whatever else comes and is
/// delivered.
pub fn enabled_stays()
    ensures among { (types : TypeTable) (few events : List Event) (before history : List EventBlock)
        → IsHistoryOf types few before → IsHistoryOf types events history
        → ((e : Event) → Contains few e → Contains events e)
        → ((e : Event) → Contains (all_events before) e → Contains (all_events history) e)
        → (block : Block) (enabled : IsEnabledAmong types few before block)
        → IsEnabledAmong types events history block
        ⊎ ((e : Event) → Contains (events_of enabled.delivery) e
        → Contains (all_events history) e) }
    ensures journal { (types : TypeTable) (journal more : List Entry)
        → IsLegal types (journal ++ more)
        → (block : Block) (enabled : IsEnabled types (reverse journal) block)
        → IsEnabled types (reverse (journal ++ more)) block
        ⊎ ((e : Event) → Contains (events_of enabled.delivery) e
        → Contains (delivered_by (journal ++ more)) e) }
{}

/// Where the same events came and nothing more can be delivered, the same events are delivered, in
/// whatever order they came.
pub fn same_delivered()
    ensures among { (types : TypeTable) (events others : List Event)
        (history other : List EventBlock)
        → IsHistoryOf types events history → IsHistoryOf types others other
        → HasNoNextAmong types events history → HasNoNextAmong types others other
        → ((e : Event) → Contains events e ↔ Contains others e)
        → (e : Event) → Contains (all_events history) e ↔ Contains (all_events other) e }
    ensures journal { (types : TypeTable) (journal other : List Entry) → IsLegal types journal
        → IsLegal types other
        → IsSettled types journal → IsSettled types other
        → ((e : Event) → Contains (came_by journal) e ↔ Contains (came_by other) e)
        → (e : Event) → Contains (delivered_by journal) e ↔ Contains (delivered_by other) e }
{}

/// Settled journals to which the same events came, and in which the same collectors ended, have as
/// many entries.
pub fn same_length()
    ensures { (types : TypeTable) (journal other : List Entry) → IsLegal types journal
        → IsLegal types other → IsSettled types journal → IsSettled types other
        → ((e : Event) → Contains (came_by journal) e ↔ Contains (came_by other) e)
        → ((collector : ℕ) → HasEnded (reverse journal) collector
        ↔ HasEnded (reverse other) collector)
        → length journal ≡ length other }
{}

/// The journal that one thread makes of lists of events, in turn, is legal and settled, and its
/// collectors have ended, one a list.
pub fn in_turn_is_settled()
    ensures legal { (types : TypeTable) (limit : ℕ) (lists : List (List Event))
        (journal : List Entry)
        → IsInTurn types limit lists journal → IsLegal types journal }
    ensures settled { (types : TypeTable) (limit : ℕ) (lists : List (List Event))
        (journal : List Entry)
        → IsInTurn types limit lists journal → IsSettled types journal }
    ensures ended { (types : TypeTable) (limit : ℕ) (lists : List (List Event))
        (journal : List Entry)
        → IsInTurn types limit lists journal → (collector : ℕ)
        → HasEnded (reverse journal) collector ↔ (collector < length lists) }
{}

/// The journal that one thread makes of lists of events, in turn, is one.
pub fn in_turn_is_one()
    ensures { (types : TypeTable) (limit : ℕ) (lists : List (List Event))
        (journal other : List Entry)
        → IsInTurn types limit lists journal → IsInTurn types limit lists other
        → journal ≡ other }
{}
