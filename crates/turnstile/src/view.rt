use causal_base::Entry;
use std::collections::LinkedList;

/// What a pass knows, as contracts see it. No value of it is made.
pub struct View<F> {
    /// The first number of its range, which is its own.
    pub lo: u32,
    /// The end of its range.
    pub hi: u32,
    /// How many seats it answers for: its own, and those of the passes that were joined to it.
    pub weight: u32,
    /// What of the turnstile's value stays the same in every turn. A pass that was joined to
    /// another has none.
    pub fixed: Option<F>,
    /// What it has seen of the journal.
    pub seen: LinkedList<Entry>,
    /// What its draws found: 0 where nobody had the turn, and 1 where another pass had it.
    pub draws: LinkedList<u64>,
    /// How long the journal was, each time that it got the turn.
    pub turns: LinkedList<u64>,
}

/// How far a pass has come in its turn. No value of it is made.
pub(crate) enum Stage {
    /// It has no turn.
    Resting,
    /// It has drawn the turn.
    Drawn,
    /// It has seen the whole journal, and taken the value out.
    Read,
    /// Its entries stand in the journal.
    Appended,
    /// It had seen the first, and took in the pass of this number, which had seen the second.
    Joined(LinkedList<Entry>, u32, LinkedList<Entry>),
}

/// How a pass stands, as the rule sees it. No value of it is made.
pub(crate) struct Standing<F> {
    pub(crate) view: View<F>,
    pub(crate) stage: Stage,
}
