ghost use Rattle.std.specs.Prelude.{◌≡◌, ◌≢◌, ◌⊎◌, ◌<◌, ◌≤◌, ◌++◌, ◌∷◌, [], length, IfOk, IfErr};
ghost use Rattle.client_session.specs.Commands.{MayStand, command_text};
ghost use Rattle.client_session.specs.Scripts.{IsRestCause};

use crate::command::Command;
use crate::limits::{MOST_COMMANDS, MOST_LINE};
use crate::line::command_of;
use crate::script_error::ScriptCause;
use causal_base::{Types, split_once};

/// The command that the first line of the rest of a file says, and what stands behind the line, or
/// what is wrong with it. It is the line with this number.
pub fn next_command<'a>(
    rest: &'a [u8],
    number: u64,
    types: &Types,
    closing: bool,
) -> Result<(Command, &'a [u8]), ScriptCause>
    requires { rest.now ≢ [] }
    ensures few { IfOk result (λ next. number ≤ MOST_COMMANDS) }
    ensures line { IfOk result (λ next. rest.now ≡ command_text next.0 ++ 10 ∷ next.1.now) }
    ensures may_stand { IfOk result (λ next. MayStand types.now closing next.0) }
    ensures err { IfErr result (IsRestCause types.now.traces closing number rest.now) }
{
    let Some((line, rest)) = split_once(rest, b'\n') else {
        return Err(unended_cause(rest));
    };
    if line.len() > MOST_LINE {
        return Err(ScriptCause::LongLine);
    }
    if number > u64::from(MOST_COMMANDS) {
        return Err(ScriptCause::TooManyLines);
    }
    let command = command_of(line, types, closing)?;
    Ok((command, rest))
}

/// What is wrong with a line within which the file ends.
fn unended_cause(line: &[u8]) -> ScriptCause
    ensures { ((MOST_LINE < length line.now) × (result ≡ ScriptCause.LongLine))
        ⊎ ((length line.now ≤ MOST_LINE) × (result ≡ ScriptCause.Unended)) }
{
    if line.len() > MOST_LINE {
        ScriptCause::LongLine
    } else {
        ScriptCause::Unended
    }
}
