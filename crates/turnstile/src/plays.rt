//! The steps on a turnstile's words, each with what it tells the pass that makes it.
ghost use Rattle.std.specs.Prelude.{ℕ, List, []};
ghost use Rattle.causal_base.specs.declared.entry.Entry.{Entry};
ghost use Rattle.turnstile.specs.Plays.{Draws, Looks, Reads, Appends, Serves};
ghost use Rattle.turnstile.specs.Plays.{FindsRoom, Settles, first_part, second_part, as_one};
ghost use Rattle.turnstile.specs.Views.{left_over};

use crate::stands_for::StandsFor;
use crate::view::Standing;
use atomic_table::{Join, Play, Split};
use std::marker::{Brand, PhantomData};

/// A pass draws: a compare and exchange of word 1, from 0 to 1.
pub(crate) struct Draw;

impl<S, F> Play<S, Standing<F>> for Draw {
    ghost then = { Draws };
}

/// A pass without a turn looks: a load of word 0.
pub(crate) struct Look;

impl<S, F> Play<S, Standing<F>> for Look {
    ghost then = { Looks };
}

/// A pass that has drawn the turn looks: a load of word 0.
pub(crate) struct Reading;

impl<V: StandsFor> Play<Option<V>, Standing<V::Fixed>> for Reading {
    ghost then = { Reads V.journal_of V.fixed_of };
}

/// What the journal becomes, as a call names it.
pub(crate) trait Grown {
    ghost journal: { List Entry };
}

impl Grown for Brand {
    ghost journal = { [] };
}

/// A turn's entries are appended: an addition to word 0.
pub(crate) struct Append<G> {
    grown: PhantomData<G>,
}

impl<S, F, G: Grown> Play<S, Standing<F>> for Append<G> {
    ghost then = { Appends G.journal };
}

/// The turn is served: a swap of word 1, to 0.
pub(crate) struct Serve;

impl<S, F> Play<S, Standing<F>> for Serve {
    ghost then = { Serves };
}

/// A pass that is to be split finds that its range is unused: a load of word 0.
pub(crate) struct FindRoom;

impl<S, F> Play<S, Standing<F>> for FindRoom {
    ghost then = { FindsRoom };
}

/// The number at which a pass is split, as a call names it.
pub(crate) trait Edge {
    ghost at: { ℕ };
}

impl Edge for Brand {
    ghost at = { 0 };
}

/// A pass is split: a load of word 0.
pub(crate) struct Cut<E> {
    edge: PhantomData<E>,
}

impl<F, E: Edge> Split<Standing<F>> for Cut<E> {
    ghost left = { first_part E.at };

    ghost right = { second_part E.at };
}

/// Two passes are joined: a load of word 0.
pub(crate) struct Unite;

impl<F> Join<Standing<F>> for Unite {
    ghost both = { as_one };

    ghost spent = { left_over };
}

/// A joined pass learns how the two had seen the journal: a load of word 0.
pub(crate) struct Settle;

impl<S, F> Play<S, Standing<F>> for Settle {
    ghost then = { Settles };
}
