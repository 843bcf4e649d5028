//! The value of the tests is a log, which stands for its entries.
ghost use Rattle.std.specs.Prelude.{◌≡◌, ◌+◌, [], ◌∷◌, ◌++◌, Some, IfSome};
ghost use Rattle.std.specs.Bool.{OnTrue, OnFalse};
ghost use Rattle.turnstile.specs.Entries.{entries_of};
ghost use Rattle.turnstile.specs.Shown.{view_of, turn_view, value_of, seats_of, IsPassOf, IsTurnOf};
ghost use Rattle.causal_base.specs.declared.entry.Entry.TheVariants.{Ended};

use causal_base::Entry;
use std::alloc::Global;
use std::sync::Wait;
use std::test::Fail;
use std::thread::{Threads, join};
use turnstile::{Pass, StandsFor, Turn, Turned, Turnstile};

#[derive(Debug, Drop)]
struct Log {
    entries: Vec<Entry>,
    mark: u32,
}

impl StandsFor for Log {
    type Fixed = u32;

    ghost journal_of = { λ log. log.entries.items };

    ghost fixed_of = { λ log. log.mark };

    fn length(&self) -> u64 {
        self.entries.len() as u64
    }
}

impl Log {
    fn new(alloc: Global, mark: u32) -> Log
        ensures { result.entries.items ≡ [] }
    {
        Log {
            entries: Vec::new(alloc),
            mark,
        }
    }

    /// Adds an entry where there is memory.
    fn add(&mut self, entry: Entry) -> bool
        ensures added { OnTrue result
            (self.new.entries.items ≡ self.old.entries.items ++ entry ∷ []) }
        ensures same { OnFalse result (self.new.entries.items ≡ self.old.entries.items) }
        ensures mark { self.new.mark ≡ self.old.mark }
    {
        self.entries.push(entry).is_ok()
    }
}

/// Gives a turn back whose log nobody changed.
fn give_same(turnstile: &Turnstile<Log>, turn: Turn<Log>) -> Pass<Log>
    requires turn { IsTurnOf turnstile.now turn }
    requires seen { (turn_view turn).seen ≡ (value_of turn).entries.items }
    requires fixed { (turn_view turn).fixed ≡ Some (value_of turn).mark }
    ensures { IsPassOf turnstile.now result × (view_of result ≡ turn_view turn) }
{
    turnstile.give(turn)
}

/// The first pass gets the turn, and the second finds it taken; then the second gets it.
fn take_both(
    turnstile: &Turnstile<Log>,
    first: Pass<Log>,
    second: Pass<Log>,
) -> Option<(Pass<Log>, Pass<Log>)>
    requires first { IsPassOf turnstile.now first }
    requires second { IsPassOf turnstile.now second }

    ensures passes { IfSome result (λ p. IsPassOf turnstile.now p.0 × IsPassOf turnstile.now p.1) }
    ensures draws { IfSome result (λ p. ((view_of p.0).draws ≡ (view_of first).draws ++ 0 ∷ [])
        × ((view_of p.1).draws ≡ (view_of second).draws ++ 1 ∷ [] ++ 0 ∷ [])) }
    ensures weights { IfSome result (λ p. ((view_of p.0).weight ≡ (view_of first).weight)
        × ((view_of p.1).weight ≡ (view_of second).weight)) }
{
    let turn = match turnstile.try_turn(first) {
        Turned::Got(turn) => turn,
        Turned::Busy(_) => return None,
    };
    let second = match turnstile.try_turn(second) {
        Turned::Busy(second) => second,
        Turned::Got(late) => {
            give_same(turnstile, late);
            give_same(turnstile, turn);
            return None;
        }
    };
    let first = give_same(turnstile, turn);
    match turnstile.try_turn(second) {
        Turned::Got(turn) => Some((first, give_same(turnstile, turn))),
        Turned::Busy(_) => None,
    }
}

#[test]
fn two_seats_take_turns(rt: HostRuntime) -> Result<(), Fail> {
    let (turnstile, pass) = Turnstile::new(rt.alloc(), Log::new(rt.alloc(), 7), 2).map_err(
        |_| "no memory",
    )?;
    let (first, second) = turnstile.split(pass, 1);
    let (first, second) = take_both(&turnstile, first, second).ok_or("a draw came out otherwise")?;
    let (length, first) = turnstile.look(first);
    assert_eq!(rt; length, 0);
    let pass = turnstile.join(first, second);
    let log = turnstile.close(pass);
    assert_eq!(rt; log.length(), 0);
    assert_eq!(rt; log.mark, 7);
    Ok(())
}

/// Takes the turn, ends its own number and gives the turn back. The answer is none where memory
/// runs out.
fn end<R: Wait>(
    rt: &R,
    turnstile: &Turnstile<Log>,
    pass: Pass<Log>,
    number: u32,
) -> Option<Pass<Log>>
    requires pass { IsPassOf turnstile.now pass }
    requires own { (view_of pass).lo ≡ number }
    requires none { entries_of number (view_of pass).seen ≡ [] }

    ensures pass { IfSome result (λ p. IsPassOf turnstile.now p) }
    ensures own { IfSome result (λ p. (view_of p).lo ≡ number) }
    ensures weight { IfSome result (λ p. (view_of p).weight ≡ (view_of pass).weight) }
    ensures ended { IfSome result (λ p. entries_of number (view_of p).seen ≡ Ended number ∷ []) }
{
    let mut turn = turnstile.turn(rt, pass);
    let ended = turn.value_mut().add(Entry::Ended(number));
    let pass = turnstile.give(turn);
    if ended { Some(pass) } else { None }
}

/// Closes a turnstile whose two passes have ended their numbers.
fn log_of(turnstile: Turnstile<Log>, first: Pass<Log>, second: Pass<Log>) -> Log
    requires first { IsPassOf turnstile first × ((view_of first).lo ≡ 0)
        × (entries_of 0 (view_of first).seen ≡ Ended 0 ∷ []) }
    requires second { IsPassOf turnstile second × ((view_of second).lo ≡ 1)
        × (entries_of 1 (view_of second).seen ≡ Ended 1 ∷ []) }
    requires all { (view_of first).weight + (view_of second).weight ≡ seats_of turnstile }

    ensures first { entries_of 0 result.entries.items ≡ Ended 0 ∷ [] }
    ensures second { entries_of 1 result.entries.items ≡ Ended 1 ∷ [] }
{
    let pass = turnstile.join(first, second);
    turnstile.close(pass)
}

/// Two workers, each with a seat, end their numbers at once.
fn end_both<R: Threads + Wait + Sync>(rt: &R, alloc: Global) -> Option<Log>
    ensures { IfSome result (λ log. (entries_of 0 log.entries.items ≡ Ended 0 ∷ [])
        × (entries_of 1 log.entries.items ≡ Ended 1 ∷ [])) }
{
    let (turnstile, pass) = Turnstile::new(alloc, Log::new(alloc, 7), 2).ok()?;
    let (first, second) = turnstile.split(pass, 1);
    let shared = &turnstile;
    let (first, second) = join(
        rt,
        || end(rt, shared, first, 0),
        || end(rt, shared, second, 1),
    );
    let first = first?;
    let second = second?;
    Some(log_of(turnstile, first, second))
}

#[test]
fn two_workers_end_once(rt: HostRuntime) -> Result<(), Fail> {
    let log = end_both(&rt, rt.alloc()).ok_or("no memory")?;
    assert_eq!(rt; log.length(), 2);
    for number in 0..2 {
        let ended = log.entries.iter().filter(
            |entry| matches!(entry, Entry::Ended(its) if *its == number),
        );
        assert_eq!(rt; ended.count(), 1, "of {number}");
    }
    Ok(())
}
