//! Target files: documents whose targets and refusals were worked out by hand.

use causal_base::Kind;
use std::alloc::{AllocError, Global};
use std::test::Fail;
use target_desc::{Target, TargetError};

/// The target of the worked examples.
const THREE: &str = "traces = [\"p0\", \"p1\", \"p2\"]
[[event]]
name = \"u\"
kind = \"unary\"
[[event]]
name = \"s\"
kind = \"send\"
mate = \"r\"
[[event]]
name = \"r\"
kind = \"receive\"
mate = \"s\"
[[event]]
name = \"y\"
kind = \"sync\"
mate = \"y\"
";

/// A shop: its types mate across, and are written as inline tables with a comment and another order
/// of keys.
const SHOP: &str = "event = [
  { name = \"log\", kind = \"unary\" }, # within a trace
  { mate = \"called\", name = \"call\", kind = \"send\" },
  { name = \"called\", kind = \"receive\", mate = \"call\" },
  { name = \"reply\", kind = \"send\", mate = \"replied\" },
  { name = \"replied\", kind = \"receive\", mate = \"reply\" },
  { name = \"acq\", kind = \"sync\", mate = \"grant\" },
  { name = \"grant\", kind = \"sync\", mate = \"acq\" },
  { name = \"see\", kind = \"watch\" },
]
traces = ['cli', 'srv', 'sem']
";

/// Documents that are refused, and how.
const REFUSED: [(&str, TargetError); 47] = [
    ("traces = [\"a\"", TargetError::NotToml),
    ("traces = [\"a\"]\ntraces = [\"b\"]", TargetError::NotToml),
    ("", TargetError::NoTraces),
    ("traces = []", TargetError::NoTraces),
    ("traces = \"a\"", TargetError::NoTraces),
    ("traces = { a = 1 }", TargetError::NoTraces),
    (
        "[[event]]\nname = \"u\"\nkind = \"unary\"",
        TargetError::NoTraces,
    ),
    ("traces = [1, \"b\", \"c\"]", TargetError::BadTrace(0)),
    ("traces = [\"a\", \"_b\", \"c\"]", TargetError::BadTrace(1)),
    ("traces = [\"a\", \"b\", \"\"]", TargetError::BadTrace(2)),
    ("traces = [\"a\", [\"b\"]]", TargetError::BadTrace(1)),
    ("traces = [\"\u{e4}\"]", TargetError::BadTrace(0)),
    (
        "traces = [\"abcdefghijklmnopqrstuvwxyz0123456\"]",
        TargetError::BadTrace(0),
    ),
    ("traces = [\"a\", \"a\", 1]", TargetError::BadTrace(2)),
    ("traces = [\"a\", \"a\", \"b\"]", TargetError::TwiceTrace(1)),
    (
        "traces = [\"a\", \"b\", \"a\", \"b\"]",
        TargetError::TwiceTrace(2),
    ),
    (
        "traces = [\"a\", \"b\", \"c\", \"b\"]",
        TargetError::TwiceTrace(3),
    ),
    // Types: none, no array, an empty one.
    ("traces = [\"a\"]", TargetError::NoTypes),
    ("traces = [\"a\"]\nevent = []", TargetError::NoTypes),
    (
        "traces = [\"a\"]\n[event]\nname = \"u\"\nkind = \"unary\"",
        TargetError::NoTypes,
    ),
    (
        "traces = [\"a\"]\nevent.name = \"u\"\nevent.kind = \"unary\"",
        TargetError::NoTypes,
    ),
    ("traces = [\"a\"]\nevent = [1]", TargetError::BadType(0)),
    ("traces = [\"a\"]\n[[event]]", TargetError::BadType(0)),
    (
        "traces = [\"a\"]\nevent = [{ name = \"u\", kind = \"unary\" }, { name = 1 }, \
         { name = \"v\", kind = \"unary\" }]",
        TargetError::BadType(1),
    ),
    (
        "traces = [\"a\"]\nevent = [{ name = \"u\", kind = \"unary\" }, { kind = \"unary\", \
         name = \"v v\" }]",
        TargetError::BadType(1),
    ),
    (
        "traces = [\"a\"]\nevent = [{ name = \"u\", kind = \"unary\" }, { name = \"u\", \
         kind = \"unary\" }]",
        TargetError::TwiceType(1),
    ),
    (
        "traces = [\"a\"]\nevent = [{ name = \"u\", kind = \"unary\" }, { name = \"v\", \
         kind = \"unary\" }, { name = \"u\" }]",
        TargetError::TwiceType(2),
    ),
    // A trace and a type may have one name.
    (
        "traces = [\"u\"]\nevent = [{ name = \"u\" }]",
        TargetError::BadKind(0),
    ),
    (
        "traces = [\"a\"]\nevent = [{ name = \"u\", kind = \"unary\" }, { name = \"v\", \
         kind = \"Unary\" }]",
        TargetError::BadKind(1),
    ),
    (
        "traces = [\"a\"]\nevent = [{ name = \"u\", kind = \"unary\" }, { name = \"v\", \
         kind = [\"send\"], mate = \"u\" }]",
        TargetError::BadKind(1),
    ),
    (
        "traces = [\"a\"]\n[[event]]\nname = \"s\"\nkind = \"send\"",
        TargetError::MateNeeded(0),
    ),
    (
        "traces = [\"a\"]\nevent = [{ name = \"u\", kind = \"unary\" }, { name = \"y\", \
         kind = \"sync\", mate = 1 }]",
        TargetError::MateNeeded(1),
    ),
    (
        "traces = [\"a\"]\nevent = [{ name = \"u\", kind = \"unary\", mate = 1 }]",
        TargetError::MateGiven(0),
    ),
    (
        "traces = [\"a\"]\nevent = [{ name = \"u\", kind = \"unary\" }, { name = \"w\", \
         kind = \"watch\", mate = \"u\" }]",
        TargetError::MateGiven(1),
    ),
    // The first entry with something wrong counts, whatever it is.
    (
        "traces = [\"a\"]\nevent = [{ name = \"u\", kind = \"unary\", mate = \"u\" }, \
         { name = 1 }]",
        TargetError::MateGiven(0),
    ),
    // Mates that aren't there, and mates that don't agree.
    (
        "traces = [\"a\"]\nevent = [{ name = \"s\", kind = \"send\", mate = \"x\" }]",
        TargetError::MateUnknown(0),
    ),
    (
        "traces = [\"a\"]\nevent = [{ name = \"u\", kind = \"unary\" }, { name = \"s\", \
         kind = \"send\", mate = \"u\" }, { name = \"r\", kind = \"receive\", mate = \"x\" }]",
        TargetError::MateUnknown(2),
    ),
    (
        "traces = [\"a\"]\nevent = [{ name = \"s\", kind = \"send\", mate = \"s\" }]",
        TargetError::MateNotMutual(0),
    ),
    (
        "traces = [\"a\"]\nevent = [{ name = \"u\", kind = \"unary\" }, { name = \"s\", \
         kind = \"send\", mate = \"u\" }]",
        TargetError::MateNotMutual(1),
    ),
    (
        "traces = [\"a\"]\nevent = [{ name = \"s\", kind = \"send\", mate = \"r\" }, \
         { name = \"r\", kind = \"receive\", mate = \"s\" }, { name = \"t\", kind = \"receive\", \
         mate = \"s\" }]",
        TargetError::MateNotMutual(2),
    ),
    (
        "traces = [\"a\"]\nevent = [{ name = \"s\", kind = \"send\", mate = \"t\" }, \
         { name = \"t\", kind = \"send\", mate = \"s\" }]",
        TargetError::MateNotMutual(0),
    ),
    (
        "traces = [\"a\"]\nevent = [{ name = \"y\", kind = \"sync\", mate = \"s\" }, \
         { name = \"s\", kind = \"send\", mate = \"y\" }]",
        TargetError::MateNotMutual(0),
    ),
    // Keys that say nothing, and an earlier refusal beside one.
    (
        "traces = [\"a\"]\ntrace = 1\nevent = [{ name = \"u\", kind = \"unary\" }]",
        TargetError::StrayKey,
    ),
    (
        "traces = [\"a\"]\nevent = [{ name = \"u\", kind = \"unary\" }, { name = \"v\", \
         kind = \"unary\", note = \"n\" }]",
        TargetError::StrayKey,
    ),
    (
        "traces = [\"a\"]\nevent = [{ name.first = \"u\", kind = \"unary\" }]",
        TargetError::BadType(0),
    ),
    (
        "trace = 1\ntraces = [\"a\"]\nevent = [{ name = \"s\", kind = \"send\", mate = \"x\" }]",
        TargetError::MateUnknown(0),
    ),
    (
        "note = 1\ntraces = [\"a\", \"a\"]",
        TargetError::TwiceTrace(1),
    ),
];

/// How a document is refused, if it is.
fn refusal_of(alloc: Global, bytes: &[u8]) -> Option<TargetError> {
    Target::read(alloc, bytes).err()
}

#[test]
fn refuses_the_first_fault(rt: HostRuntime) {
    for (text, error) in REFUSED {
        assert_eq!(rt;
            refusal_of(rt.alloc(), text.as_bytes()),
            Some(error),
            "{text}"
        );
    }
    assert_eq!(rt;
        refusal_of(rt.alloc(), b"traces = [\"\xff\"]"),
        Some(TargetError::NotToml)
    );
    assert_eq!(rt;
        TargetError::TwiceTrace(1).name_and_number(),
        ("TwiceTrace", Some(1))
    );
    assert_eq!(rt; TargetError::StrayKey.name_and_number(), ("StrayKey", None));
}

/// Entries that are refused behind and before others, whose names are `u0` to `u4`, and how at
/// place 0.
const BAD_ENTRIES: [(&str, TargetError); 8] = [
    ("name = 1, kind = \"unary\"", TargetError::BadType(0)),
    ("kind = \"unary\"", TargetError::BadType(0)),
    ("name = \"x\", kind = \"none\"", TargetError::BadKind(0)),
    ("name = \"x\", kind = \"sync\"", TargetError::MateNeeded(0)),
    (
        "name = \"x\", kind = \"watch\", mate = \"u1\"",
        TargetError::MateGiven(0),
    ),
    (
        "name = \"x\", kind = \"receive\", mate = \"none\"",
        TargetError::MateUnknown(0),
    ),
    (
        "name = \"x\", kind = \"sync\", mate = \"u1\"",
        TargetError::MateNotMutual(0),
    ),
    (
        "name = \"x\", kind = \"unary\", note = 1",
        TargetError::StrayKey,
    ),
];

/// A document of five entries, of which the one at this place is the given one.
fn document_with(alloc: Global, entry: &str, place: u32) -> Result<String, AllocError> {
    let mut text = String::from_str(alloc, "traces = [\"a\"]\nevent = [")?;
    for other in 0..5u32 {
        if other == place {
            text.push_str(format!(in alloc; "{{ {entry} }},")?.as_str())?;
        } else {
            let good = format!(in alloc; "{{ name = \"u{other}\", kind = \"unary\" }},")?;
            text.push_str(good.as_str())?;
        }
    }
    text.push_str("]")?;
    Ok(text)
}

#[test]
fn tells_the_place(rt: HostRuntime) -> Result<(), Fail> {
    for (entry, error) in BAD_ENTRIES {
        let (name, number) = error.name_and_number();
        for place in [0, 2, 4] {
            let text = document_with(rt.alloc(), entry, place)?;
            let told = refusal_of(rt.alloc(), text.as_bytes()).ok_or("an entry is taken")?;
            let expected = match number {
                Some(_) => Some(place),
                None => None,
            };
            assert_eq!(rt;
                told.name_and_number(),
                (name, expected),
                "{entry} at {place}"
            );
        }
    }
    for place in [1, 2, 4] {
        let text = document_with(rt.alloc(), "name = \"u0\", kind = \"unary\"", place)?;
        let told = refusal_of(rt.alloc(), text.as_bytes());
        assert_eq!(rt; told, Some(TargetError::TwiceType(place)));
    }
    Ok(())
}

/// Whether the target has these traces, and these types with the numbers of their mates.
fn is_told(target: &Target, traces: &[&str], types: &[(&str, Kind, Option<u8>)]) -> bool {
    for name in traces {
        match target.trace_of(name.as_bytes()) {
            Some(trace) => {
                if traces.get(trace as usize) != Some(name) {
                    return false;
                }
            }
            None => return false,
        }
    }
    for (name, kind, mate) in types {
        match target.types().type_of(name.as_bytes()) {
            Some(type_no) => {
                let told = target.types();
                if told.kind(type_no) != *kind || told.mate(type_no) != *mate {
                    return false;
                }
            }
            None => return false,
        }
    }
    target.types().traces() as usize == traces.len() && target.trace_of(b"none").is_none()
}

#[test]
fn reads_targets(rt: HostRuntime) -> Result<(), Fail> {
    let three = Target::read(rt.alloc(), THREE.as_bytes())
        .ok()
        .ok_or("three is refused")?;
    let types = [
        ("u", Kind::Unary, None),
        ("s", Kind::Send, Some(2)),
        ("r", Kind::Receive, Some(1)),
        ("y", Kind::Sync, Some(3)),
    ];
    assert!(rt; is_told(&three, &["p0", "p1", "p2"], &types));

    let shop = Target::read(rt.alloc(), SHOP.as_bytes())
        .ok()
        .ok_or("the shop is refused")?;
    let types = [
        ("log", Kind::Unary, None),
        ("call", Kind::Send, Some(2)),
        ("called", Kind::Receive, Some(1)),
        ("reply", Kind::Send, Some(4)),
        ("replied", Kind::Receive, Some(3)),
        ("acq", Kind::Sync, Some(6)),
        ("grant", Kind::Sync, Some(5)),
        ("see", Kind::Watch, None),
    ];
    assert!(rt; is_told(&shop, &["cli", "srv", "sem"], &types));
    Ok(())
}

/// A document of so many traces and so many types, whose first trace has a name of 32 letters.
fn document_of(alloc: Global, traces: u32, types: u32) -> Result<String, AllocError> {
    let mut text = String::from_str(alloc, "traces = [\"abcdefghijklmnopqrstuvwxyz_01234\"")?;
    for trace in 1..traces {
        text.push_str(format!(in alloc; ", \"t{trace}\"")?.as_str())?;
    }
    text.push_str("]\n")?;
    for type_no in 0..types {
        text.push_str(format!(in alloc;
            "[[event]]\nname = \"e{type_no}\"\nkind = \"unary\"\n"
        )?.as_str())?;
    }
    Ok(text)
}

#[test]
fn limits_hold(rt: HostRuntime) -> Result<(), Fail> {
    let alloc = rt.alloc();
    let cases = [
        (256, 64, None),
        (257, 65, Some(TargetError::TooManyTraces(257))),
        (256, 65, Some(TargetError::TooManyTypes(65))),
    ];
    for (traces, types, error) in cases {
        let text = document_of(alloc, traces, types)?;
        assert_eq!(rt;
            refusal_of(alloc, text.as_bytes()),
            error,
            "{traces} {types}"
        );
    }

    let mut text = document_of(alloc, 1, 1)?;
    text.push_str("#")?;
    for _ in text.len()..1_048_576 {
        text.push_str("-")?;
    }
    assert_eq!(rt; refusal_of(alloc, text.as_bytes()), None);
    text.push_str("-")?;
    assert_eq!(rt;
        refusal_of(alloc, text.as_bytes()),
        Some(TargetError::TooLong)
    );
    Ok(())
}
