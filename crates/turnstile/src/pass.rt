ghost use Rattle.std.specs.Prelude.{◌≡◌, ◌<◌, []};
ghost use Rattle.turnstile.specs.declared.view.Stage.TheVariants.{Resting};

use crate::rule::Token;
use crate::stands_for::StandsFor;

/// What a thread comes to a turnstile with: a range of its seats, and what was seen of the journal.
/// It can't be copied. Contracts see its [`View`](crate::View).
#[derive(Drop)]
pub struct Pass<V: StandsFor> {
    pub(crate) token: Token<V>,
    ghost resting: { token.me.0.stage ≡ Resting },
    ghost empty: { token.me.1 ≡ [] },
    ghost live: { token.me.0.view.lo < token.me.0.view.hi },
}
