//! Reads the target and the scripts of a run from their files.

ghost use Rattle.std.specs.Prelude.{◌≡◌, ◌≤◌, map, length, IfOk, IfErr};
ghost use Rattle.std.specs.Option.{option_map};
ghost use Rattle.run_files.specs.Loading.{LackScripts, LacksClosing, LacksScript, LacksTarget, SayScripts, SaysClosing, SaysScript, SaysTarget, is_closing};
ghost use Rattle.run_files.specs.Troubles.{trouble_of};

use crate::fault::{Asker, Fault};
use crate::limits::MOST_CLIENTS;
use crate::whole::{FileFault, read_whole};
use client_session::{Script, ScriptCause, ScriptError};
use poet_io::Files;
use std::alloc::Global;
use target_desc::{Target, TargetError};

/// The target that the file of this name says.
pub fn read_target<'a, F: Files>(
    alloc: Global,
    files: &mut F,
    name: &'a str,
) -> Result<Target, Fault<'a>>
    ensures ok { IfOk result (λ target.
        SaysTarget name.now (F.state files.old) (F.state files.new) target) }
    ensures err { IfErr result (λ fault.
        LacksTarget name.now (F.state files.old) (F.state files.new) (trouble_of fault)) }
{
    let bytes = match read_whole(alloc, files, name) {
        Ok(bytes) => bytes,
        Err(FileFault::Open) => return Err(Fault::Open(name)),
        Err(FileFault::Read) => return Err(Fault::Read(name)),
        Err(FileFault::TooLong) => return Err(Fault::Target(TargetError::TooLong)),
        Err(FileFault::Memory) => return Err(Fault::Memory),
    };
    match Target::read(alloc, bytes.as_slice()) {
        Ok(target) => Ok(target),
        Err(TargetError::Oom) => Err(Fault::Memory),
        Err(error) => Err(Fault::Target(error)),
    }
}

/// The scripts of the clients, which the files of these names say, in their order.
pub fn read_scripts<'a, F: Files>(
    alloc: Global,
    files: &mut F,
    names: &[&'a str],
    target: &Target,
) -> Result<Vec<Script>, Fault<'a>>
    requires { length names.now ≤ MOST_CLIENTS }
    ensures ok { IfOk result (λ scripts. SayScripts target.now.types 0 (map (λ n. n.now) names.now)
        (F.state files.old) (F.state files.new) scripts.items) }
    ensures err { IfErr result (λ fault. LackScripts target.now.types 0
        (map (λ n. n.now) names.now) (F.state files.old) (F.state files.new)
        (trouble_of fault)) }
{
    let mut scripts = Vec::new(alloc);
    for number in 0..names.len() {
        let asker = Asker::Client(number as u32);
        let script = read_script(alloc, files, names[number], target, asker)?;
        if scripts.push(script).is_err() {
            return Err(Fault::Memory);
        }
    }
    Ok(scripts)
}

/// The closing script, which the file of this name says; without a name it is empty.
pub fn read_closing<'a, F: Files>(
    alloc: Global,
    files: &mut F,
    name: Option<&'a str>,
    target: &Target,
) -> Result<Script, Fault<'a>>
    ensures ok { IfOk result (λ script. SaysClosing target.now.types
        (option_map (λ n. n.now) name.entry) (F.state files.old) (F.state files.new) script) }
    ensures err { IfErr result (λ fault. LacksClosing target.now.types
        (option_map (λ n. n.now) name.entry) (F.state files.old) (F.state files.new)
        (trouble_of fault)) }
{
    match name {
        Some(name) => read_script(alloc, files, name, target, Asker::Closing),
        None => Ok(Script::empty(alloc)),
    }
}

/// The script that the file of this name says.
fn read_script<'a, F: Files>(
    alloc: Global,
    files: &mut F,
    name: &'a str,
    target: &Target,
    asker: Asker,
) -> Result<Script, Fault<'a>>
    ensures ok { IfOk result (λ script. SaysScript target.now.types asker name.now
        (F.state files.old) (F.state files.new) script) }
    ensures err { IfErr result (λ fault. LacksScript target.now.types asker name.now
        (F.state files.old) (F.state files.new) (trouble_of fault)) }
{
    let bytes = match read_whole(alloc, files, name) {
        Ok(bytes) => bytes,
        Err(FileFault::Open) => return Err(Fault::Open(name)),
        Err(FileFault::Read) => return Err(Fault::Read(name)),
        Err(FileFault::TooLong) => return Err(Fault::Script(asker, TOO_LONG)),
        Err(FileFault::Memory) => return Err(Fault::Memory),
    };
    match Script::read(alloc, bytes.as_slice(), target, asker.is_closing()) {
        Ok(script) => Ok(script),
        Err(error) => match error.cause {
            ScriptCause::Oom => Err(Fault::Memory),
            _ => Err(Fault::Script(asker, error)),
        },
    }
}

/// What is wrong with a script of more than [`MOST_FILE`](crate::MOST_FILE) bytes.
const TOO_LONG: ScriptError = ScriptError {
    line: 0,
    cause: ScriptCause::TooLong,
};
