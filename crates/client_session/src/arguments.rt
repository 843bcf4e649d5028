//! The arguments of a command: ids, and the numbers of traces.

ghost use Rattle.std.specs.Prelude.{◌≡◌, ℕ, List, [], ◌∷◌, IfOk, IfErr, OnOk, codes, false, option_copied};
ghost use Rattle.causal_base.specs.Refusals.{IsFirst};
ghost use Rattle.causal_base.specs.Fields.{IsIdInRange};
ghost use Rattle.client_session.specs.Scripts.{AnId, ATrace, id_faults, one_word, trace_faults};
ghost use Rattle.client_session.specs.Words.{AreIdAndTraceBehind, AreIdsBehind, AreOthers, IsIdBehind, IsTraceInRange, behind, words_faults, written_faults};

use crate::script_error::ScriptCause;
use crate::words::{one_word, two_words};
use causal_base::{EventId, IdFault, Types, id_of, number_of};

/// The one id behind a command's own words.
pub fn one_id(others: Option<&[u8]>, types: &Types) -> Result<EventId, ScriptCause>
    ensures ok { IfOk result (IsIdBehind types.now (behind (option_copied others.entry))) }
    ensures err { IfErr result (λ cause. (words : List (List ℕ))
        → AreOthers (behind (option_copied others.entry)) words
        → IsFirst (words_faults types.now.traces (AnId ∷ []) words) cause) }
{
    let word = one_word(others)?;
    id_in(word, types)
}

/// The two ids behind a command's own words.
pub fn two_ids(others: Option<&[u8]>, types: &Types) -> Result<(EventId, EventId), ScriptCause>
    ensures ok { IfOk result (λ ids. AreIdsBehind types.now (behind (option_copied others.entry))
        ids.0 ids.1) }
    ensures err { IfErr result (λ cause. (words : List (List ℕ))
        → AreOthers (behind (option_copied others.entry)) words
        → IsFirst (words_faults types.now.traces (AnId ∷ AnId ∷ []) words) cause) }
{
    let (first, second) = two_words(others)?;
    let first = id_in(first, types)?;
    let second = id_in(second, types)?;
    Ok((first, second))
}

/// The id and the trace behind a command's own words.
pub fn id_and_trace(others: Option<&[u8]>, types: &Types) -> Result<(EventId, u32), ScriptCause>
    ensures ok { IfOk result (λ both. AreIdAndTraceBehind types.now
        (behind (option_copied others.entry)) both.0 both.1) }
    ensures err { IfErr result (λ cause. (words : List (List ℕ))
        → AreOthers (behind (option_copied others.entry)) words
        → IsFirst (words_faults types.now.traces (AnId ∷ ATrace ∷ []) words) cause) }
{
    let (first, second) = two_words(others)?;
    let id = id_in(first, types)?;
    let trace = trace_in(second, types)?;
    Ok((id, trace))
}

/// The one id behind `stamp`, which no closing script has.
pub fn stamp_id(others: Option<&[u8]>, types: &Types, closing: bool) -> Result<EventId, ScriptCause>
    ensures ok { IfOk result (IsIdBehind types.now (behind (option_copied others.entry))) }
    ensures open { OnOk result (closing ≡ false) }
    ensures err { IfErr result (λ cause. (words : List (List ℕ))
        → AreOthers (behind (option_copied others.entry)) words
        → IsFirst (written_faults types.now.traces closing (one_word (codes "stamp") (AnId ∷ []))
        words) cause) }
{
    let word = one_word(others)?;
    if closing {
        return Err(ScriptCause::NotInClosing);
    }
    id_in(word, types)
}

/// The id that a word is, or what is wrong with it.
fn id_in(word: &[u8], types: &Types) -> Result<EventId, ScriptCause>
    ensures ok { IfOk result (IsIdInRange word.now types.now.traces) }
    ensures err { IfErr result (IsFirst (id_faults types.now.traces word.now)) }
{
    match id_of(word, types.traces()) {
        Ok(id) => Ok(id),
        Err(IdFault::BadId) => Err(ScriptCause::BadId),
        Err(IdFault::NoTrace) => Err(ScriptCause::NoTrace),
        Err(IdFault::BadNumber) => Err(ScriptCause::BadNumber),
    }
}

/// The trace that a word is, or what is wrong with it.
fn trace_in(word: &[u8], types: &Types) -> Result<u32, ScriptCause>
    ensures ok { IfOk result (IsTraceInRange word.now types.now.traces) }
    ensures err { IfErr result (IsFirst (trace_faults types.now.traces word.now)) }
{
    let Some(trace) = number_of(word) else {
        return Err(ScriptCause::BadId);
    };
    if trace >= u64::from(types.traces()) {
        return Err(ScriptCause::NoTrace);
    }
    Ok(trace as u32)
}
