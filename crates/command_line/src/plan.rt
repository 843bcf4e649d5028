ghost use Rattle.std.specs.Prelude.{◌≡◌, ◌≤◌, ℕ, List, decimal, map, string_bytes, IfSome, IfNone};
ghost use Rattle.causal_base.specs.Fields.{IsIdInRange};
ghost use Rattle.causal_base.specs.declared.event_id.EventId.{EventId};
ghost use Rattle.causal_base.specs.declared.limits.TheConstants.{MOST_EVENTS};
ghost use Rattle.command_line.specs.Asking.{asked_by, replay_of};
ghost use Rattle.command_line.specs.Plans.{AreAskWords, AreLoadWords, AreReplayWords, Asked, IsPlan, ReplayAsked};

use crate::files::Files;
use crate::names::Names;
use crate::options::{take_after, take_levels};
use crate::words::{behind_word, first_of};
use causal_base::{EventId, MOST_EVENTS, MOST_TRACES, id_of, number_of};
use cluster_levels::Sizes;

/// What the words of the command line ask for.
#[derive(Debug, Drop)]
pub enum Plan<'a> {
    /// Whether an event happened before another.
    Ask(AskPlan<'a>),
    /// A replay of files.
    Replay(ReplayPlan<'a>),
    /// A load of so many events, at most [`MOST_EVENTS`](causal_base::MOST_EVENTS).
    Load(u32),
}

/// Whether the event `a` happened before the event `b`, over the events of the file of this name.
#[derive(Clone, Copy, Debug)]
pub struct AskPlan<'a> {
    /// The name of the file of events.
    pub name: &'a str,
    /// The event that may have happened before the other.
    pub a: EventId,
    /// The other event.
    pub b: EventId,
}

/// Which files are replayed, and how.
#[derive(Debug, Drop)]
pub struct ReplayPlan<'a> {
    /// The most traces that a cluster of each level may have.
    pub sizes: Sizes,
    /// The number of the communication between two clusters from which on they may merge, from 1 to
    /// [`MOST_AFTER`](crate::MOST_AFTER).
    pub after: u32,
    /// The name of the target file.
    pub target: &'a str,
    /// The names of the files of events, 1 to 16, one for each collector in their order.
    pub events: Names<'a>,
    /// The names of the scripts of the clients, at most 16, in their order.
    pub clients: Names<'a>,
    /// The name of the closing script, if there is one.
    pub closing: Option<&'a str>,
}

/// The plan that the words are, which are those after the program's name, or none. It takes no
/// memory.
///
/// The words are `ask EVENTS A B`, with two ids, `replay [--levels LIST] [--after W] TARGET ITEM
/// ..`, or `load N`, with a number up to 400,000. LIST is the sizes of the levels with commas between
/// them, and 8 and 32 where it isn't there; W is 1 where it isn't there. An ITEM is `e:NAME` for the
/// events of a collector, `c:NAME` for the script of a client, or `z:NAME` for the closing script.
pub fn plan_of(words: &[String]) -> Option<Plan<'_>>
    ensures some { IfSome result (λ plan. IsPlan (map string_bytes words.now) (asked_by plan)) }
    ensures none { IfNone result ((asked : Asked) → IsPlan (map string_bytes words.now) asked
        → ⊥) }
{
    if let Some(plan) = ask_plan(words) {
        return Some(Plan::Ask(plan));
    }
    if let Some(events) = load_plan(words) {
        return Some(Plan::Load(events));
    }
    match replay_plan(words) {
        Some(plan) => Some(Plan::Replay(plan)),
        None => None,
    }
}

/// The plan where the words are `ask EVENTS A B`.
fn ask_plan(words: &[String]) -> Option<AskPlan<'_>>
    ensures some { IfSome result (λ plan. AreAskWords (map string_bytes words.now) plan.name.now
        plan.a plan.b) }
    ensures none { IfNone result ((name : List ℕ) (a b : EventId)
        → AreAskWords (map string_bytes words.now) name a b → ⊥) }
{
    let behind = behind_word(words, "ask")?;
    let (name, behind) = first_of(behind)?;
    let (a, behind) = first_of(behind)?;
    let (b, behind) = first_of(behind)?;
    if !behind.is_empty() {
        return None;
    }
    let a = id_word(a)?;
    let b = id_word(b)?;
    Some(AskPlan { name, a, b })
}

/// The event that a word names.
fn id_word(word: &str) -> Option<EventId>
    ensures some { IfSome result (IsIdInRange word.now MOST_TRACES) }
    ensures none { IfNone result ((id : EventId) → IsIdInRange word.now MOST_TRACES id → ⊥) }
{
    id_of(word.as_bytes(), MOST_TRACES).ok()
}

/// The plan where the words are `replay [--levels LIST] [--after W] TARGET ITEM ..`.
fn replay_plan(words: &[String]) -> Option<ReplayPlan<'_>>
    ensures some { IfSome result (λ plan. AreReplayWords (map string_bytes words.now)
        (replay_of plan)) }
    ensures none { IfNone result ((asked : ReplayAsked)
        → AreReplayWords (map string_bytes words.now) asked → ⊥) }
{
    let behind = behind_word(words, "replay")?;
    let Some((sizes, middle)) = take_levels(behind) else {
        return None;
    };
    let (after, named) = take_after(middle)?;
    let (target, others) = first_of(named)?;
    let Some(files) = Files::of(others) else {
        return None;
    };
    if files.events.is_empty() {
        return None;
    }
    let Files {
        events,
        clients,
        closing,
    } = files;
    Some(ReplayPlan {
        sizes,
        after,
        target,
        events,
        clients,
        closing,
    })
}

/// How many events, where the words are `load N`.
fn load_plan(words: &[String]) -> Option<u32>
    ensures some { IfSome result (AreLoadWords (map string_bytes words.now)) }
    ensures none { IfNone result ((events : ℕ)
        → AreLoadWords (map string_bytes words.now) events → ⊥) }
{
    let behind = behind_word(words, "load")?;
    let (number, behind) = first_of(behind)?;
    if !behind.is_empty() {
        return None;
    }
    events_in(number.as_bytes())
}

/// The number of events that a text spells, up to [`MOST_EVENTS`].
fn events_in(text: &[u8]) -> Option<u32>
    ensures some { IfSome result (λ events. (text.now ≡ decimal events) × (events ≤ MOST_EVENTS)) }
    ensures none { IfNone result ((events : ℕ) → text.now ≡ decimal events → events ≤ MOST_EVENTS
        → ⊥) }
{
    let events = number_of(text)?;
    if events > u64::from(MOST_EVENTS) {
        return None;
    }
    Some(events as u32)
}
