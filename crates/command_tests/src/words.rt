//! Tests of what no clause says: each public function once, over words that are plans and words
//! that are none, as worked out by hand.

use causal_base::EventId;
use cluster_levels::Sizes;
use command_line::{Names, Plan, ReplayPlan, plan_of};
use std::alloc::{AllocError, Global};
use std::test::Fail;

/// What a plan of a replay has.
struct Replay {
    sizes: &'static [u32],
    after: u32,
    target: &'static str,
    events: &'static [&'static str],
    clients: &'static [&'static str],
    closing: Option<&'static str>,
}

/// Words, and the replay that they ask for.
const REPLAYS: [(&[&str], Replay); 6] = [
    (
        &["replay", "t.toml", "e:a.txt"],
        Replay {
            sizes: &[8, 32],
            after: 1,
            target: "t.toml",
            events: &["a.txt"],
            clients: &[],
            closing: None,
        },
    ),
    (
        &["replay", "--levels", "2", "t.toml", "e:a.txt", "z:z.txt"],
        Replay {
            sizes: &[2],
            after: 1,
            target: "t.toml",
            events: &["a.txt"],
            clients: &[],
            closing: Some("z.txt"),
        },
    ),
    (
        &[
            "replay", "--levels", "2,4", "--after", "3", "t.toml", "e:a", "e:b",
        ],
        Replay {
            sizes: &[2, 4],
            after: 3,
            target: "t.toml",
            events: &["a", "b"],
            clients: &[],
            closing: None,
        },
    ),
    (
        &[
            "replay",
            "--levels",
            "1,2,255,256",
            "--after",
            "1000",
            "t",
            "e:a",
        ],
        Replay {
            sizes: &[1, 2, 255, 256],
            after: 1_000,
            target: "t",
            events: &["a"],
            clients: &[],
            closing: None,
        },
    ),
    // In any order, and with names that are the same or hold a colon.
    (
        &[
            "replay", "--after", "1", "t", "c:x", "z:c:x", "e:b", "c:a", "e:a", "e:b",
        ],
        Replay {
            sizes: &[8, 32],
            after: 1,
            target: "t",
            events: &["b", "a", "b"],
            clients: &["x", "a"],
            closing: Some("c:x"),
        },
    ),
    // The target is whatever stands there.
    (
        &["replay", "e:t", "e:a"],
        Replay {
            sizes: &[8, 32],
            after: 1,
            target: "e:t",
            events: &["a"],
            clients: &[],
            closing: None,
        },
    ),
];

/// Words that are no plan.
const NO_PLANS: [&[&str]; 46] = [
    &[],
    &[""],
    &["tell", "e.txt", "0.1", "1.1"],
    &["ask"],
    &["ask", "e.txt", "0.1"],
    &["ask", "e.txt", "0.1", "1.1", "1.1"],
    &["ask", "e.txt", "0.1", "x"],
    &["ask", "e.txt", "256.1", "1.1"],
    &["ask", "e.txt", "0.0", "1.1"],
    &["ask", "e.txt", "0.1", "1.1000001"],
    &["replay"],
    &["replay", "t"],
    &["Replay", "t", "e:a"],
    // Loads.
    &["load"],
    &["load", "400001"],
    &["load", "04"],
    &["load", "-1"],
    &["load", "4", "4"],
    &["load", "4 "],
    // Levels.
    &["replay", "--levels"],
    &["replay", "--levels", "2"],
    &["replay", "--levels", "", "t", "e:a"],
    &["replay", "--levels", "0", "t", "e:a"],
    &["replay", "--levels", "02", "t", "e:a"],
    &["replay", "--levels", "257", "t", "e:a"],
    &["replay", "--levels", "4294967298", "t", "e:a"],
    &["replay", "--levels", "4,2", "t", "e:a"],
    &["replay", "--levels", "2,2", "t", "e:a"],
    &["replay", "--levels", "2,", "t", "e:a"],
    &["replay", "--levels", ",2", "t", "e:a"],
    &["replay", "--levels", "2, 4", "t", "e:a"],
    &["replay", "--levels", "1,2,3,4,5", "t", "e:a"],
    &["replay", "--levels", "2", "--levels", "2", "t", "e:a"],
    // The number from which on clusters may merge.
    &["replay", "--after"],
    &["replay", "--after", "t", "e:a"],
    &["replay", "--after", "0", "t", "e:a"],
    &["replay", "--after", "1001", "t", "e:a"],
    &["replay", "--after", "01", "t", "e:a"],
    &["replay", "--after", "3", "--levels", "2", "t", "e:a"],
    &["replay", "--after", "3", "--after", "3", "t", "e:a"],
    // Files.
    &["replay", "t", "e:"],
    &["replay", "t", "e:a", "c:"],
    &["replay", "t", "e:a", "z:a", "z:b"],
    &["replay", "t", "c:a", "z:b"],
    &["replay", "t", "e:a", "x:a"],
    &["replay", "t", "e:a", "a"],
];

fn words_from(alloc: Global, words: &[&str]) -> Result<Vec<String>, AllocError> {
    let mut owned = Vec::new(alloc);
    for word in words {
        owned.push(String::from_str(alloc, word)?)?;
    }
    Ok(owned)
}

fn has_sizes(sizes: &Sizes, want: &[u32]) -> bool {
    for level in 1..=sizes.levels() {
        if want.get(level as usize - 1) != Some(&sizes.size(level)) {
            return false;
        }
    }
    want.len() == sizes.levels() as usize
}

fn is_replay(plan: &ReplayPlan<'_>, want: &Replay) -> bool {
    has_sizes(&plan.sizes, want.sizes)
        && plan.after == want.after
        && plan.target == want.target
        && plan.events.as_slice() == want.events
        && plan.clients.as_slice() == want.clients
        && plan.closing == want.closing
}

#[test]
fn reads_words(rt: HostRuntime) -> Result<(), Fail> {
    let words = words_from(rt.alloc(), &["ask", "e.txt", "255.1000000", "0.1"])?;
    let Some(Plan::Ask(plan)) = plan_of(&words) else {
        return Err("no question".into());
    };
    let a = EventId {
        trace: 255,
        number: 1_000_000,
    };
    assert!(rt; plan.name == "e.txt");
    assert_eq!(rt; plan.a, a);
    assert_eq!(rt;
        plan.b,
        EventId {
            trace: 0,
            number: 1
        }
    );

    for (words, want) in &REPLAYS {
        let words = words_from(rt.alloc(), words)?;
        let Some(Plan::Replay(plan)) = plan_of(&words) else {
            return Err("no replay".into());
        };
        assert!(rt; is_replay(&plan, want), "{words:?}");
    }

    for (number, want) in [("0", 0), ("7", 7), ("400000", 400_000)] {
        let words = words_from(rt.alloc(), &["load", number])?;
        let Some(Plan::Load(events)) = plan_of(&words) else {
            return Err("no load".into());
        };
        assert_eq!(rt; events, want);
    }

    for words in NO_PLANS {
        let words = words_from(rt.alloc(), words)?;
        assert!(rt; plan_of(&words).is_none(), "{words:?}");
    }
    Ok(())
}

/// A replay of so many files of events, and of so many scripts, whose names are numbers.
fn many_words(alloc: Global, events: u32, clients: u32) -> Result<Vec<String>, AllocError> {
    let mut words = words_from(alloc, &["replay", "t"])?;
    for number in 0..events {
        words.push(format!(in alloc; "e:{number}")?)?;
    }
    for number in 0..clients {
        words.push(format!(in alloc; "c:{number}")?)?;
    }
    Ok(words)
}

/// Whether the names are the numbers from 0 to 15.
fn are_sixteen(alloc: Global, names: &Names<'_>) -> Result<bool, AllocError> {
    for (number, name) in names.as_slice().iter().enumerate() {
        if format!(in alloc; "{number}")?.as_str() != *name {
            return Ok(false);
        }
    }
    Ok(names.len() == 16)
}

#[test]
fn takes_sixteen_of_each(rt: HostRuntime) -> Result<(), Fail> {
    let words = many_words(rt.alloc(), 16, 16)?;
    let Some(Plan::Replay(plan)) = plan_of(&words) else {
        return Err("no replay".into());
    };
    assert!(rt; are_sixteen(rt.alloc(), &plan.events)?);
    assert!(rt; are_sixteen(rt.alloc(), &plan.clients)?);

    assert!(rt; plan_of(&many_words(rt.alloc(), 17, 0)?).is_none());
    assert!(rt; plan_of(&many_words(rt.alloc(), 1, 17)?).is_none());
    Ok(())
}
