ghost use Rattle.std.specs.Prelude.{◌≡◌, ◌≢◌, ◌++◌, ◌∷◌, ◌≤◌, ◌↔◌, ℕ, max, List, Contains};
ghost use Rattle.causal_base.specs.declared.entry.Entry.{Entry};
ghost use Rattle.causal_base.specs.declared.event.Event.{Event};
ghost use Rattle.causal_base.specs.Types.{TypeTable};
ghost use Rattle.causal_base.specs.Event.{Pairs};
ghost use Rattle.causal_base.specs.Walks.{Reaches};
ghost use Rattle.causal_base.specs.Clocks.{IsClock};
ghost use Rattle.causal_base.specs.History.{EventBlock, alone, together, all_events, IsCausal};
ghost use Rattle.causal_base.specs.Journal.{IsLegal, delivered_by};
ghost use Rattle.causal_base.specs.Vectors.{IsClockBefore, IsClockFitted};

/// An event has at most one clock for each trace.
pub fn clock_is_one()
    ensures { (types : TypeTable) (events : List Event) (e : Event) (trace m n : ℕ)
        → IsClock types events e trace m → IsClock types events e trace n
        → m ≡ n }
{}

/// The clock of a delivered event is settled when it is delivered: no later delivery changes it.
pub fn clock_stays()
    ensures { (types : TypeTable) (journal more : List Entry) → IsLegal types (journal ++ more)
        → (e : Event) → Contains (delivered_by journal) e
        → (trace n : ℕ)
        → (IsClock types (delivered_by journal) e trace n)
        ↔ (IsClock types (delivered_by (journal ++ more)) e trace n) }
{}

/// Each delivered event has a clock for each trace.
pub fn clock_exists()
    ensures { (types : TypeTable) (journal : List Entry) → IsLegal types journal
        → (e : Event) → Contains (delivered_by journal) e
        → (trace : ℕ) → (n : ℕ) × IsClock types (delivered_by journal) e trace n }
{}

/// The events of a trace that reach an event are those with numbers up to its clock for that trace.
pub fn clock_tells_reach()
    ensures { (types : TypeTable) (journal : List Entry) → IsLegal types journal
        → (e : Event) → Contains (delivered_by journal) e
        → (trace n : ℕ) → IsClock types (delivered_by journal) e trace n
        → (x : Event) → Contains (delivered_by journal) x → x.id.trace ≡ trace
        → (Reaches types (delivered_by journal) x e) ↔ (x.id.number ≤ n) }
{}

/// Partners have equal clocks.
pub fn partners_share_clock()
    ensures { (types : TypeTable) (journal : List Entry)
        → (a b : Event) → Contains (delivered_by journal) a → Contains (delivered_by journal) b
        → Pairs types a b
        → (trace n : ℕ)
        → (IsClock types (delivered_by journal) a trace n)
        ↔ (IsClock types (delivered_by journal) b trace n) }
{}

/// What reaches an event knows no more than it: its clock is no greater for any trace.
pub fn clock_grows_along_walks()
    ensures { (types : TypeTable) (journal : List Entry) → IsLegal types journal
        → (a b : Event) → Contains (delivered_by journal) b
        → Reaches types (delivered_by journal) a b
        → (trace m n : ℕ) → IsClock types (delivered_by journal) a trace m
        → IsClock types (delivered_by journal) b trace n
        → m ≤ n }
{}

/// The clock of an event that is delivered alone: for its own trace its number, and for another the
/// greater of the clocks of the event before it on its trace and of the one that it fits. It is the
/// rule by which vectors are kept.
pub fn clock_of_one()
    ensures own { (types : TypeTable) (past : List EventBlock) (e : Event)
        → IsCausal types (alone e ∷ past)
        → IsClock types (all_events (alone e ∷ past)) e e.id.trace e.id.number }
    ensures other { (types : TypeTable) (past : List EventBlock) (e : Event)
        → IsCausal types (alone e ∷ past)
        → (trace before fitted : ℕ) → trace ≢ e.id.trace
        → IsClockBefore types (all_events past) e trace before
        → IsClockFitted types (all_events past) e trace fitted
        → IsClock types (all_events (alone e ∷ past)) e trace (max before fitted) }
{}

/// The clock of partners: for each of their own traces the number there, and for another the
/// greater of the clocks of the events before them on their traces.
pub fn clock_of_pair()
    ensures first { (types : TypeTable) (past : List EventBlock) (a b : Event)
        → IsCausal types (together a b ∷ past)
        → IsClock types (all_events (together a b ∷ past)) a a.id.trace a.id.number }
    ensures second { (types : TypeTable) (past : List EventBlock) (a b : Event)
        → IsCausal types (together a b ∷ past)
        → IsClock types (all_events (together a b ∷ past)) a b.id.trace b.id.number }
    ensures other { (types : TypeTable) (past : List EventBlock) (a b : Event)
        → IsCausal types (together a b ∷ past)
        → (trace first second : ℕ) → trace ≢ a.id.trace → trace ≢ b.id.trace
        → IsClockBefore types (all_events past) a trace first
        → IsClockBefore types (all_events past) b trace second
        → IsClock types (all_events (together a b ∷ past)) a trace (max first second) }
    ensures same { (types : TypeTable) (past : List EventBlock) (a b : Event)
        → IsCausal types (together a b ∷ past) → (trace n : ℕ)
        → (IsClock types (all_events (together a b ∷ past)) a trace n)
        ↔ (IsClock types (all_events (together a b ∷ past)) b trace n) }
{}
