ghost use Rattle.std.specs.Prelude.{◌++◌, List, Contains};
ghost use Rattle.causal_base.specs.declared.entry.Entry.{Entry};
ghost use Rattle.causal_base.specs.declared.event.Event.{Event};
ghost use Rattle.causal_base.specs.Types.{TypeTable};
ghost use Rattle.causal_base.specs.Journal.{IsLegal, delivered_by};

/// Each prefix of a legal journal is a legal journal.
pub fn legal_prefix()
    ensures { (types : TypeTable) (journal more : List Entry) → IsLegal types (journal ++ more)
        → IsLegal types journal }
{}

/// What was delivered stays delivered, whatever the journal goes on with.
pub fn delivered_stays()
    ensures { (types : TypeTable) (journal more : List Entry) → IsLegal types (journal ++ more)
        → (e : Event) → Contains (delivered_by journal) e
        → Contains (delivered_by (journal ++ more)) e }
{}
