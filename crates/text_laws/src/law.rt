ghost use Rattle.std.specs.Prelude.{◌≡◌};
ghost use Rattle.causal_base.specs.TypeTables.{IsTypeTable};
ghost use Rattle.run_text.specs.Runs.{RunTold, text_of};
ghost use Rattle.text_laws.specs.OneReading.{IsOfRun, SaySame};

use causal_laws::{relation_is_one, stamp_is_one};

/// The text of a run is read in one way by somebody who knows the target and the scripts: it tells
/// the sizes of the levels and from when on clusters merge, the journal, each line that a client
/// was told, what became of each collector's events, and the status.
pub fn run_text_is_read_in_one_way()
    ensures { (told other : RunTold)
        → told.setup.types ≡ other.setup.types → IsTypeTable told.setup.types
        → told.scripts ≡ other.scripts → told.last ≡ other.last
        → IsOfRun told → IsOfRun other
        → text_of told ≡ text_of other → SaySame told other }
{
    relation_is_one();
    stamp_is_one();
}
