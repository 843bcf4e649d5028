ghost use Rattle.std.specs.Prelude.{◌≡◌, ℕ, List, reverse};
ghost use Rattle.causal_base.specs.declared.block.Block.{Block};
ghost use Rattle.causal_base.specs.declared.entry.Entry.{Entry};
ghost use Rattle.causal_base.specs.declared.event.Event.{Event};
ghost use Rattle.causal_base.specs.Types.{TypeTable};
ghost use Rattle.causal_base.specs.History.{EventBlock};
ghost use Rattle.causal_base.specs.Journal.{IsLegal};
ghost use Rattle.causal_base.specs.Past.{HasTrace, IsEnabledAmong, IsHistoryOf, IsNext, IsNextAmong};

/// At most one block is next, of events that came after deliveries of some of them, and so after a
/// legal journal: enabled blocks that share a trace are one.
pub fn next_is_one()
    ensures shared { (types : TypeTable) (events : List Event) (history : List EventBlock)
        → IsHistoryOf types events history
        → (a b : Block) → IsEnabledAmong types events history a
        → IsEnabledAmong types events history b
        → (trace : ℕ) → HasTrace a trace → HasTrace b trace → a ≡ b }
    ensures among { (types : TypeTable) (events : List Event) (history : List EventBlock)
        → IsHistoryOf types events history
        → (a b : Block) → IsNextAmong types events history a → IsNextAmong types events history b
        → a ≡ b }
    ensures journal { (types : TypeTable) (journal : List Entry) → IsLegal types journal
        → (a b : Block) → IsNext types (reverse journal) a → IsNext types (reverse journal) b
        → a ≡ b }
{}
