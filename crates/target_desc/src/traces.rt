ghost use Rattle.std.specs.Prelude.{◌≡◌, ◌⊎◌, ◌≤◌, ◌<◌, ℕ, List, length, map, Some, slice_get, vec_len, All, IfOk, IfErr, OnOk, IfSome, IfNone};
ghost use Rattle.causal_base.specs.Spelling.{IsName};
ghost use Rattle.target_desc.specs.Names.{IsTwiceName};
ghost use Rattle.causal_base.specs.Refusals.{ArePassed, IsFirst, IsLeast};
ghost use Rattle.target_desc.specs.Target.{AreTraceNames};
ghost use Rattle.target_desc.specs.Traces.{IsBadTrace, trace_refusals};
ghost use Rattle.toml.specs.Data.{string};
ghost use Rattle.toml.specs.View.{view};

use crate::fields::count_told;
use crate::target_error::TargetError;
use causal_base::{MOST_TRACES, Text, is_name};
use std::alloc::Global;
use toml::Value;

/// The names of the traces, or what is wrong with them.
pub fn trace_names(alloc: Global, traces: &[Value]) -> Result<Vec<Text>, TargetError>
    ensures good { OnOk result (ArePassed (trace_refusals (map view traces.now))) }
    ensures names { IfOk result (λ names. map string names.items ≡ map view traces.now) }
    ensures some { IfOk result (λ names. 1 ≤ vec_len names) }
    ensures most { IfOk result (λ names. vec_len names ≤ MOST_TRACES) }
    ensures are_names { IfOk result (λ names. AreTraceNames names.items (vec_len names)) }
    ensures err { IfErr result (λ error. (error ≡ TargetError.Oom)
        ⊎ IsFirst (trace_refusals (map view traces.now)) error) }
{
    if traces.is_empty() {
        return Err(TargetError::NoTraces);
    }
    if traces.len() > MOST_TRACES as usize {
        return Err(TargetError::TooManyTraces(count_told(traces.len())));
    }
    let names = names_of(alloc, traces)?;
    match first_twice(&names) {
        Some(place) => Err(TargetError::TwiceTrace(place)),
        None => Ok(names),
    }
}

/// The names that these are, or the first that is none.
fn names_of(alloc: Global, traces: &[Value]) -> Result<Vec<Text>, TargetError>
    requires { length traces.now ≤ MOST_TRACES }
    ensures names { IfOk result (λ names. map string names.items ≡ map view traces.now) }
    ensures are_names { IfOk result (λ names. All IsName names.items) }
    ensures err { IfErr result (λ error. (error ≡ TargetError.Oom)
        ⊎ ((i : ℕ) × IsLeast (length traces.now) (IsBadTrace (map view traces.now)) i
        × (error ≡ TargetError.BadTrace i))) }
{
    let mut names = Vec::new(alloc);
    for (place, trace) in traces.iter().enumerate() {
        let Some(name) = name_in(trace) else {
            return Err(TargetError::BadTrace(place as u32));
        };
        let Ok(name) = Text::new(alloc, name.as_bytes()) else {
            return Err(TargetError::Oom);
        };
        if names.push(name).is_err() {
            return Err(TargetError::Oom);
        }
    }
    Ok(names)
}

/// The name that a trace is, if it is a string that is one.
fn name_in(trace: &Value) -> Option<&str>
    ensures found { IfSome result (λ name. view trace.now ≡ string name.now) }
    ensures is_name { IfSome result (λ name. IsName name.now) }
    ensures none { IfNone result ((name : List ℕ) → view trace.now ≡ string name → IsName name
        → ⊥) }
{
    let name = trace.as_str()?;
    if is_name(name.as_bytes()) {
        Some(name)
    } else {
        None
    }
}

/// The first place whose name stands at an earlier one.
fn first_twice(names: &[Text]) -> Option<u32>
    requires { length names.now ≤ MOST_TRACES }
    ensures found { IfSome result (IsLeast (length names.now) (IsTwiceName names.now)) }
    ensures none { IfNone result ((i : ℕ) → i < length names.now → IsTwiceName names.now i → ⊥) }
{
    for place in 0..names.len() {
        if names[..place].contains(&names[place]) {
            return Some(place as u32);
        }
    }
    None
}
