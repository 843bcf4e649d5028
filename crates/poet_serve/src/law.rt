ghost use Rattle.std.specs.Prelude.{◌≡◌, List};
ghost use Rattle.std.specs.List.{AllByRecursion};
ghost use Rattle.causal_base.specs.declared.entry.Entry.{Entry};
ghost use Rattle.causal_base.specs.Types.{TypeTable};
ghost use Rattle.causal_base.specs.TypeTables.{IsTypeTable};
ghost use Rattle.poet_serve.specs.Transcripts.{Collected, HasOneReading, IsMadeInTurn};

use causal_laws::in_turn_is_one;
use raw_reader::text_is_read_in_one_way;

/// There is one journal that one thread makes of the events of sources in turn, where what each
/// source had and has left is told, and no collector stopped at the limit or for want of memory.
pub fn journal_in_turn_is_one()
    ensures { (types : TypeTable) → IsTypeTable types → (all : List Collected)
        → AllByRecursion HasOneReading all → (journal other : List Entry)
        → IsMadeInTurn types all journal → IsMadeInTurn types all other → journal ≡ other }
{
    text_is_read_in_one_way();
    in_turn_is_one();
}
