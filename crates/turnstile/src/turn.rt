ghost use Rattle.std.specs.Prelude.{◌≡◌, ◌<◌, [], ◌∷◌, None, length};
ghost use Rattle.turnstile.specs.declared.view.Stage.TheVariants.{Read};

use crate::pass::Pass;
use crate::rule::Token;
use crate::stands_for::StandsFor;

/// The pass of a turn, which took the value out, and how long the journal was then.
pub(crate) struct Holder<V: StandsFor> {
    pub(crate) token: Token<V>,
    pub(crate) entries: u64,
    ghost read: { token.me.0.stage ≡ Read },
    ghost carries: { token.me.1 ≡ (0, None) ∷ [] },
    ghost live: { token.me.0.view.lo < token.me.0.view.hi },
    ghost counted: { entries ≡ length token.me.0.view.seen },
}

/// The turn, with the value. It isn't `Drop`: spend it by
/// [`Turnstile::give`](crate::Turnstile::give).
pub struct Turn<V: StandsFor> {
    pub(crate) holder: Holder<V>,
    pub(crate) value: V,
}

/// What a draw came to.
pub enum Turned<V: StandsFor> {
    /// Nobody had the turn.
    Got(Turn<V>),
    /// Another pass had it.
    Busy(Pass<V>),
}

impl<V: StandsFor> Turn<V> {
    ghost use Rattle.std.specs.Borrow.{Lends, sem};
    ghost use Rattle.turnstile.specs.Shown.{value_of, with_value};
    ghost use Rattle.turnstile.specs.contracts.turn.Turn.{the_row};

    /// The value.
    pub fn value(&self) -> &V
        ensures { result.now ≡ value_of self.now }
    {
        &self.value
    }

    /// The value, to be changed.
    pub fn value_mut(&mut self) -> &mut V
        ensures* writes_back { sem 𝓛 (Lends (the_row V.row V.Fixed.row V.StandsFor) V.row
            self.entry result (with_value self.old)) }
        ensures value { result.now ≡ value_of self.old }
    {
        &mut self.value
    }
}
