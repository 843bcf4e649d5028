ghost use Rattle.precedence.specs.StampedJournal.{StampedJournal};
ghost use Rattle.precedence.specs.Laws.{HasLaws};

use causal_laws::{
    bound_by_level, clock_exists, clock_grows_along_walks, clock_is_greatest_of_entries,
    clock_is_one, clock_tells_reach, delivered_are_numbered, delivered_is_on_a_trace,
    entry_is_found, level_is_in_range, members_are_few, own_history_has_clock,
};

/// What the walk rests on.
pub(crate) fn laws()
    ensures { (w : StampedJournal) → HasLaws w }
{
    delivered_is_on_a_trace();
    delivered_are_numbered();
    clock_is_one();
    clock_exists();
    clock_tells_reach();
    clock_grows_along_walks();
    own_history_has_clock();
    clock_is_greatest_of_entries();
    entry_is_found();
    level_is_in_range();
    members_are_few();
    bound_by_level();
}
