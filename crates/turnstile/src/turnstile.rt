ghost use Rattle.std.specs.Prelude.{◌≡◌, ◌+◌, ◌-◌, ◌<◌, ℕ, [], ◌∷◌, ◌++◌, Some, length, replicate};
ghost use Rattle.std.specs.Prelude.{IfOk, IfErr};

use crate::pass::Pass;
use crate::plays::{Append, Cut, Draw, Edge, FindRoom, Grown, Look, Reading, Serve, Settle, Unite};
use crate::rule::{Board, Opening, Token};
use crate::stands_for::StandsFor;
use crate::turn::{Holder, Turn, Turned};
use atomic_table::{Refused, Table};
use std::alloc::Global;
use std::marker::Brand;
use std::snapshot::Snapshot;
use std::sync::Wait;
use std::{hint, thread};

/// The word that is the journal's length.
const LENGTH: usize = 0;

/// The word that is 1 while the turn is out.
const TURN: usize = 1;

/// The slot of the value.
const SLOT: usize = 0;

/// How often a thread looks for the turn before it yields between two looks.
const SPINS: u32 = 64;

/// A value that threads share by turns.
#[derive(Drop)]
pub struct Turnstile<V: StandsFor> {
    board: Board<V>,
    ghost sized: { (board.shared.table_id.words ≡ 2) × (board.shared.table_id.slots ≡ 1) },
}

impl<V: StandsFor> Turnstile<V> {
    ghost use Rattle.turnstile.specs.Entries.{entries_of, GoesOnWithout, GoesOnBy};
    ghost use Rattle.turnstile.specs.Outcomes.{IfGot, IfBusy};
    ghost use Rattle.turnstile.specs.Shown.{view_of, turn_view, value_of, seats_of, name_of};
    ghost use Rattle.turnstile.specs.Shown.{IsPassOf, IsTurnOf};
    ghost use Rattle.turnstile.specs.Views.{longer, standing};
    ghost use Rattle.turnstile.specs.declared.view.Stage.TheVariants.{Appended};

    /// A turnstile for a value whose journal is empty, and the pass that has all seats. The value
    /// comes back where memory runs out.
    pub fn new(alloc: Global, value: V, seats: u32) -> Result<(Turnstile<V>, Pass<V>), V>
        requires seats { 0 < seats }
        requires empty { V.journal_of value ≡ [] }

        ensures seats { IfOk result (λ made. seats_of made.0 ≡ seats) }
        ensures pass { IfOk result (λ made. view_of made.1 ≡ record {
          lo = 0;
          hi = seats;
          weight = seats;
          fixed = Some (V.fixed_of value);
          seen = [];
          draws = [];
          turns = [];
        }) }
        ensures its_pass { IfOk result (λ made. IsPassOf made.0 made.1) }
        ensures err { IfErr result (λ same. same ≡ value) }
    {
        let Ok(mut slots) = Vec::with_capacity(alloc, 1) else {
            return Err(value);
        };
        let opening = Opening {
            seats,
            value: Snapshot::of(&value),
        };
        slots.push_reserved(Some(value));
        match Table::new(alloc, &[0, 0], slots, &opening) {
            Ok((board, token)) => Ok((Turnstile { board }, Pass { token })),
            Err(Refused { mut slots }) => {
                let Some(Some(value)) = slots.pop() else {
                    unreachable!()
                };
                slots.destroy_empty();
                Err(value)
            }
        }
    }

    /// Draws once, and doesn't wait.
    pub fn try_turn(&self, mut pass: Pass<V>) -> Turned<V>
        requires { IsPassOf self.now pass }

        // The draw found 0, and the whole journal was seen.
        ensures got { IfGot result (λ turn. turn_view turn ≡ record (view_of pass) {
          seen = V.journal_of (value_of turn);
          draws = (view_of pass).draws ++ 0 ∷ [];
          turns = (view_of pass).turns ++ length (V.journal_of (value_of turn)) ∷ [];
        }) }
        ensures seen { IfGot result (λ turn. GoesOnWithout (view_of pass).lo (view_of pass).seen
            (V.journal_of (value_of turn))) }
        ensures fixed { IfGot result (λ turn.
            (view_of pass).fixed ≡ Some (V.fixed_of (value_of turn))) }
        ensures its_turn { IfGot result (IsTurnOf self.now) }

        // The draw found 1, and nothing else was done.
        ensures busy { IfBusy result (λ same.
            view_of same ≡ record (view_of pass) { draws = (view_of pass).draws ++ 1 ∷ [] }) }
        ensures its_pass { IfBusy result (IsPassOf self.now) }
    {
        let board = &self.board.shared;
        let found = board.compare_exchange::<Draw>(&mut pass.token, TURN, 0, 1);
        if found != 0 {
            return Turned::Busy(pass);
        }
        let Pass { mut token } = pass;
        let entries = board.load::<Reading>(&mut token, LENGTH);
        let Some(value) = board.exchange(&mut token, SLOT, None) else {
            unreachable!()
        };
        Turned::Got(Turn {
            holder: Holder { token, entries },
            value,
        })
    }

    /// Draws until it has the turn. Between two draws it waits for the turn to look free.
    pub fn turn<R: Wait>(&self, rt: &R, mut pass: Pass<V>) -> Turn<V>
        requires { IsPassOf self.now pass }

        // Some draws found 1, and the last one 0. Then the whole journal was seen.
        ensures got { (busy : ℕ) × (turn_view result ≡ record (view_of pass) {
          seen = V.journal_of (value_of result);
          draws = (view_of pass).draws ++ replicate busy 1 ++ 0 ∷ [];
          turns = (view_of pass).turns ++ length (V.journal_of (value_of result)) ∷ [];
        }) }
        ensures seen { GoesOnWithout (view_of pass).lo (view_of pass).seen
            (V.journal_of (value_of result)) }
        ensures fixed { (view_of pass).fixed ≡ Some (V.fixed_of (value_of result)) }
        ensures its_turn { IsTurnOf self.now result }
    {
        for _ in rt.forever() {
            match self.try_turn(pass) {
                Turned::Got(turn) => return turn,
                Turned::Busy(same) => pass = same,
            }
            self.wait(rt);
        }
        unreachable!()
    }

    /// Gives the turn back. The value's fixed part is as it was, and its journal may have gone on,
    /// by entries of the pass's own number.
    pub fn give(&self, turn: Turn<V>) -> Pass<V>
        requires its_turn { IsTurnOf self.now turn }
        requires fixed { (turn_view turn).fixed ≡ Some (V.fixed_of (value_of turn)) }
        requires own { GoesOnBy (turn_view turn).lo (turn_view turn).seen
            (V.journal_of (value_of turn)) }

        ensures seen { view_of result ≡ record (turn_view turn) {
          seen = V.journal_of (value_of turn);
        } }
        ensures its_pass { IsPassOf self.now result }
    {
        let Turn { holder, value } = turn;
        let mut token = self.append::<Brand>(holder, &value);
        let board = &self.board.shared;
        let was = board.exchange(&mut token, SLOT, Some(value));
        let None = was else { unreachable!() };
        board.swap::<Serve>(&mut token, TURN, 0);
        Pass { token }
    }

    /// Sees the journal so far, without a turn, and answers how long it is.
    pub fn look(&self, mut pass: Pass<V>) -> (u64, Pass<V>)
        requires { IsPassOf self.now pass }

        ensures length { result.0 ≡ length (view_of result.1).seen }
        ensures seen { GoesOnWithout (view_of pass).lo (view_of pass).seen
            (view_of result.1).seen }
        ensures rest { view_of result.1 ≡ record (view_of pass) {
          seen = (view_of result.1).seen;
        } }
        ensures its_pass { IsPassOf self.now result.1 }
    {
        let length = self.board.shared.load::<Look>(&mut pass.token, LENGTH);
        (length, pass)
    }

    /// Splits a pass within its range. The second has the numbers from `at` on, of which nobody has
    /// brought an entry.
    pub fn split(&self, pass: Pass<V>, at: u32) -> (Pass<V>, Pass<V>)
        requires its_pass { IsPassOf self.now pass }
        requires inside { ((view_of pass).lo < at) × (at < (view_of pass).hi) }

        ensures first { view_of result.0 ≡ record (view_of pass) {
          hi = at;
          weight = (view_of pass).weight - ((view_of pass).hi - at);
        } }
        ensures second { view_of result.1 ≡ record (view_of pass) {
          lo = at;
          weight = (view_of pass).hi - at;
          draws = [];
          turns = [];
        } }
        ensures fresh { entries_of at (view_of pass).seen ≡ [] }
        ensures its_passes { IsPassOf self.now result.0 × IsPassOf self.now result.1 }
    {
        self.cut::<Brand>(pass, at)
    }

    /// Joins two passes. The first keeps its range and has the weight of both, and it has seen what
    /// either has: the longer journal, which adds nothing of either's own number to the other.
    pub fn join(&self, keep: Pass<V>, other: Pass<V>) -> Pass<V>
        requires keep { IsPassOf self.now keep }
        requires other { IsPassOf self.now other }

        ensures view { view_of result ≡ record (view_of keep) {
          weight = (view_of keep).weight + (view_of other).weight;
          seen = longer (view_of keep).seen (view_of other).seen;
        } }
        ensures keep { GoesOnWithout (view_of keep).lo (view_of keep).seen (view_of result).seen }
        ensures other { GoesOnWithout (view_of other).lo (view_of other).seen
            (view_of result).seen }
        ensures its_pass { IsPassOf self.now result }
    {
        let Pass { mut token } = keep;
        let Pass { token: other } = other;
        let board = &self.board.shared;
        board.join_seat::<Unite>(&mut token, other);
        board.load::<Settle>(&mut token, LENGTH);
        Pass { token }
    }

    /// Closes the turnstile by the pass that has the weight of all seats, and gives the value back.
    pub fn close(self, pass: Pass<V>) -> V
        requires its_pass { IsPassOf self pass }
        requires all { (view_of pass).weight ≡ seats_of self }

        ensures journal { V.journal_of result ≡ (view_of pass).seen }
        ensures fixed { (view_of pass).fixed ≡ Some (V.fixed_of result) }
    {
        let Turnstile { board } = self;
        let Pass { token } = pass;
        let mut closed = board.close_with(token);
        let Some(value) = closed.take(SLOT) else {
            unreachable!()
        };
        closed.free();
        value
    }

    /// Waits until the turn looks free: at first it looks again at once, and then the thread
    /// yields between two looks.
    fn wait<R: Wait>(&self, rt: &R) {
        let mut looks = 0;
        for _ in rt.forever() {
            if self.board.shared.peek(TURN) == 0 {
                return;
            }
            if looks < SPINS {
                looks += 1;
                hint::spin_loop();
            } else {
                thread::yield_now();
            }
        }
    }

    /// Appends to the one journal the entries by which the value's has grown, as the call names it.
    fn append<G: Grown>(&self, holder: Holder<V>, value: &V) -> Token<V>
        requires its_token { holder.token.table_id ≡ name_of self.now }
        requires named { G.journal ≡ V.journal_of value.now }
        requires own { GoesOnBy holder.token.me.0.view.lo holder.token.me.0.view.seen
            (V.journal_of value.now) }

        ensures its_token { result.table_id ≡ name_of self.now }
        ensures appended { result.me ≡ (
          standing (record holder.token.me.0.view { seen = V.journal_of value.now }) Appended,
          holder.token.me.1,
        ) }
    {
        let Holder { mut token, entries } = holder;
        let added = value.length() - entries;
        self.board
            .shared
            .fetch_add::<Append<G>>(&mut token, LENGTH, added);
        token
    }

    /// Splits a pass where the call names it.
    fn cut<E: Edge>(&self, pass: Pass<V>, at: u32) -> (Pass<V>, Pass<V>)
        requires its_pass { IsPassOf self.now pass }
        requires named { E.at ≡ at }
        requires inside { ((view_of pass).lo < at) × (at < (view_of pass).hi) }

        ensures first { view_of result.0 ≡ record (view_of pass) {
          hi = at;
          weight = (view_of pass).weight - ((view_of pass).hi - at);
        } }
        ensures second { view_of result.1 ≡ record (view_of pass) {
          lo = at;
          weight = (view_of pass).hi - at;
          draws = [];
          turns = [];
        } }
        ensures fresh { entries_of at (view_of pass).seen ≡ [] }
        ensures its_passes { IsPassOf self.now result.0 × IsPassOf self.now result.1 }
    {
        let Pass { mut token } = pass;
        let board = &self.board.shared;
        board.load::<FindRoom>(&mut token, LENGTH);
        let second = board.split_seat::<Cut<E>>(&mut token);
        (Pass { token }, Pass { token: second })
    }
}
