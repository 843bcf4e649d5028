use crate::stands_for::StandsFor;
use crate::view::Standing;
use atomic_table::{Seat, Table, TableRule};
use std::alloc::Global;
use std::snapshot::Snapshot;

/// What a turnstile was made of.
#[derive(Drop)]
pub(crate) struct Opening<V> {
    pub(crate) seats: u32,
    pub(crate) value: Snapshot<V>,
}

/// What holds between any two steps.
pub(crate) struct Rule;

impl<V: StandsFor> TableRule<Option<V>, Standing<V::Fixed>, Opening<V>> for Rule {
    ghost use Rattle.std.specs.Prelude.{[], Some};
    ghost use Rattle.turnstile.specs.Rule.{IsOrderly};
    ghost use Rattle.turnstile.specs.Views.{standing};
    ghost use Rattle.turnstile.specs.declared.view.Stage.TheVariants.{Resting};

    ghost holds = { IsOrderly V.journal_of V.fixed_of };

    // The first pass has all seats, and has seen the empty journal.
    ghost first = { λ opening. standing (record {
      lo = 0;
      hi = opening.seats;
      weight = opening.seats;
      fixed = Some (V.fixed_of opening.value.value);
      seen = [];
      draws = [];
      turns = [];
    }) Resting };
}

/// Two words and a slot: the journal's length, whether the turn is out, and the value.
pub(crate) type Board<V: StandsFor> = Table<
    Option<V>,
    Standing<V::Fixed>,
    Opening<V>,
    Rule,
    Global,
>;

/// What a pass makes its steps with.
pub(crate) type Token<V: StandsFor> = Seat<Option<V>, Standing<V::Fixed>>;
