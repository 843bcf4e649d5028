ghost use Rattle.std.specs.Prelude.{◌≡◌, ◌⊎◌, [], length, slice_get, IfOk, IfErr};
ghost use Rattle.std.specs.Option.{option_map};
ghost use Rattle.client_session.specs.Scripts.{IsScript, IsRefused};

use crate::command::Command;
use crate::limits::MOST_SCRIPT;
use crate::lines::next_command;
use crate::script_error::{ScriptCause, ScriptError};
use std::alloc::Global;
use std::marker::Model;
use target_desc::Target;

/// The questions of a client, in their order. Contracts see the list of its commands.
#[derive(Debug, Drop)]
pub struct Script {
    commands: Vec<Command>,
}

impl Model for Script {
    ghost use Rattle.std.specs.Prelude.{◌≤◌, List, length};
    ghost use Rattle.client_session.specs.declared.command.Command.{Command};
    ghost use Rattle.client_session.specs.declared.limits.TheConstants.{MOST_COMMANDS};

    ghost Value = { List Command };

    ghost view = { λ s. s.commands.items };

    ghost invariant = { λ s. length s.commands.items ≤ MOST_COMMANDS };
}

impl Script {
    /// The script that the bytes of a file say, for the traces of a target: one command a line,
    /// each line with its end. An empty file is an empty script. A closing script can't ask for
    /// stamps.
    ///
    /// The first line with a fault is refused, with the first cause that applies to it, in the
    /// order of [`ScriptCause`]; of the ids and traces of a line the first counts that has a fault.
    /// `TooLong` comes before all others. `Oom` comes where memory runs out.
    pub fn read(
        alloc: Global,
        bytes: &[u8],
        target: &Target,
        closing: bool,
    ) -> Result<Script, ScriptError>
        ensures ok { IfOk result (IsScript target.now.types closing bytes.now) }
        ensures err { IfErr result (λ error. (error.cause ≡ ScriptCause.Oom)
            ⊎ IsRefused target.now.types closing bytes.now error) }
    {
        if bytes.len() > MOST_SCRIPT {
            return Err(ScriptError {
                line: 0,
                cause: ScriptCause::TooLong,
            });
        }
        let types = target.types();
        let mut commands = Vec::new(alloc);
        let mut rest = bytes;
        while !rest.is_empty() {
            let line = commands.len() as u64 + 1;
            let (command, behind) = match next_command(rest, line, types, closing) {
                Ok(next) => next,
                Err(cause) => return Err(ScriptError { line, cause }),
            };
            if commands.push(command).is_err() {
                let cause = ScriptCause::Oom;
                return Err(ScriptError { line, cause });
            }
            rest = behind;
        }
        Ok(Script { commands })
    }

    /// The script without a command, as of an empty file. It takes no memory.
    pub fn empty(alloc: Global) -> Script
        ensures { result ≡ [] }
    {
        Script {
            commands: Vec::new(alloc),
        }
    }

    /// How many commands there are.
    pub fn len(&self) -> u32
        ensures { result ≡ length self.now }
    {
        self.commands.len() as u32
    }

    /// The command at a place, counted from 0, if there is one.
    pub fn command(&self, at: u32) -> Option<&Command>
        ensures { option_map (λ command. command.now) result ≡ slice_get self.now at }
    {
        self.commands.get(at as usize)
    }
}
