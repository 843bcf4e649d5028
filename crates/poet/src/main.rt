//! poet, a partial-order event tracer: the program. It hands the words after its own name, the
//! folder that it runs in and standard output to the top call, and ends with the status that this
//! answers.
#![tactic(auto)]

use poet_io::{HostFolder, HostOut};
use poet_top::poet_still;
use std::process::ExitCode;
use std::rt::Env;
use std::{env, io};

/// The status where the words can't be had from the system.
const NO_WORDS: u8 = 12;

fn main(rt: HostRuntime) -> ExitCode {
    let Ok(words) = words_of(&rt) else {
        return ExitCode::from(NO_WORDS);
    };
    let mut files = HostFolder::new(&rt);
    let mut out = HostOut::new(&rt);
    ExitCode::from(poet_still(rt.alloc(), &words, &mut files, &mut out))
}

/// The words of the command line after the program's name.
fn words_of(rt: &(impl Env + AllocGlobal)) -> io::Result<Vec<String>> {
    Ok(env::args(rt)?.skip(1).collect(rt.alloc())?)
}
