ghost use Rattle.std.specs.Prelude.{◌≡◌, ◌++◌, ℕ, Bool, List, IfOk, IfErr, codes, option_copied};
ghost use Rattle.causal_base.specs.Refusals.{IsFirst};
ghost use Rattle.client_session.specs.Commands.{command_text, MayStand};
ghost use Rattle.client_session.specs.Scripts.{IsWordsCause};
ghost use Rattle.client_session.specs.Words.{AreOthers, HasWordsCause, behind, cut_arguments, cut_text, first_text, words_faults};

use crate::arguments::{id_and_trace, one_id, stamp_id, two_ids};
use crate::command::Command;
use crate::own_words::{CutWord, FirstWord};
use crate::script_error::ScriptCause;
use crate::words::{first_word, next_word, no_words};
use causal_base::Types;

/// The command that a line says, or the first thing that is wrong with its words.
pub fn command_of(line: &[u8], types: &Types, closing: bool) -> Result<Command, ScriptCause>
    ensures spelled { IfOk result (λ command. line.now ≡ command_text command) }
    ensures may_stand { IfOk result (MayStand types.now closing) }
    ensures err { IfErr result (HasWordsCause types.now.traces closing line.now) }
{
    let (first, others) = first_word(line);
    match FirstWord::of(first) {
        Some(first) => command_with(first, others, types, closing),
        None => Err(ScriptCause::NoCommand),
    }
}

/// The command with this first word and these words behind it, or the first thing that is wrong
/// with them.
fn command_with(
    first: FirstWord,
    others: Option<&[u8]>,
    types: &Types,
    closing: bool,
) -> Result<Command, ScriptCause>
    ensures spelled { IfOk result (λ command.
        first_text first ++ behind (option_copied others.entry) ≡ command_text command) }
    ensures may_stand { IfOk result (MayStand types.now closing) }
    ensures err { IfErr result (λ cause. (words : List (List ℕ))
        → AreOthers (behind (option_copied others.entry)) words
        → IsWordsCause types.now.traces closing (first_text first) words cause) }
{
    match first {
        FirstWord::Before => {
            let (a, b) = two_ids(others, types)?;
            Ok(Command::Before(a, b))
        }
        FirstWord::Relation => {
            let (a, b) = two_ids(others, types)?;
            Ok(Command::Relation(a, b))
        }
        FirstWord::Event => Ok(Command::Event(one_id(others, types)?)),
        FirstWord::Stamp => Ok(Command::Stamp(stamp_id(others, types, closing)?)),
        FirstWord::GreatestBefore => {
            let (id, trace) = id_and_trace(others, types)?;
            Ok(Command::GreatestBefore(id, trace))
        }
        FirstWord::LeastAfter => {
            let (id, trace) = id_and_trace(others, types)?;
            Ok(Command::LeastAfter(id, trace))
        }
        FirstWord::Cut => cut_command(others, types),
        FirstWord::Count => {
            no_words(others)?;
            Ok(Command::Count)
        }
        FirstWord::Await => Ok(Command::Await(one_id(others, types)?)),
    }
}

/// The command with these words behind `cut`, or the first thing that is wrong with them.
fn cut_command(others: Option<&[u8]>, types: &Types) -> Result<Command, ScriptCause>
    ensures spelled { IfOk result (λ command.
        codes "cut" ++ behind (option_copied others.entry) ≡ command_text command) }
    ensures may_stand { IfOk result (λ command. (closing : Bool)
        → MayStand types.now closing command) }
    ensures err { IfErr result (λ cause. (closing : Bool) (words : List (List ℕ))
        → AreOthers (behind (option_copied others.entry)) words
        → IsWordsCause types.now.traces closing (codes "cut") words cause) }
{
    let (second, others) = next_word(others)?;
    match CutWord::of(second) {
        Some(second) => cut_command_with(second, others, types),
        None => Err(ScriptCause::Shape),
    }
}

/// The command with this second word behind `cut`, and these words behind it, or the first thing
/// that is wrong with them.
fn cut_command_with(
    second: CutWord,
    others: Option<&[u8]>,
    types: &Types,
) -> Result<Command, ScriptCause>
    ensures spelled { IfOk result (λ command. codes "cut " ++ cut_text second
        ++ behind (option_copied others.entry) ≡ command_text command) }
    ensures may_stand { IfOk result (λ command. (closing : Bool)
        → MayStand types.now closing command) }
    ensures err { IfErr result (λ cause. (words : List (List ℕ))
        → AreOthers (behind (option_copied others.entry)) words
        → IsFirst (words_faults types.now.traces (cut_arguments second) words) cause) }
{
    match second {
        CutWord::None => {
            no_words(others)?;
            Ok(Command::CutNone)
        }
        CutWord::All => {
            no_words(others)?;
            Ok(Command::CutAll)
        }
        CutWord::To => Ok(Command::CutTo(one_id(others, types)?)),
        CutWord::Back => Ok(Command::CutBack(one_id(others, types)?)),
        CutWord::Has => Ok(Command::CutHas(one_id(others, types)?)),
    }
}
