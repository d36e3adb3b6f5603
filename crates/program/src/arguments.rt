// What a program's arguments ask for.
ghost use Rattle.program.specs.Arguments.{Asks};

use crate::output;
use std::env::{Env, FillError};
use std::io::Write;

#[derive(Clone, Copy)]
enum Asked {
    // No word: the program's own work.
    Run,
    Help,
    Version,
    // A word that is none of these, or more than one.
    Unknown,
}

fn asked_by(word: &[u8]) -> Asked
    ensures { Asks word.now result }
{
    match word {
        b"--help" | b"-h" => Asked::Help,
        b"--version" => Asked::Version,
        _ => Asked::Unknown,
    }
}

// Argument 0 is the program's own name.
fn has_second(rt: &impl Env) -> bool {
    let mut word = [0u8; 16];
    !matches!(rt.arg(2, &mut word), Err(FillError::NotPresent))
}

// A word that is longer than the buffer is not known either.
fn what_is_asked(rt: &impl Env) -> Asked {
    let mut word = [0u8; 16];
    match rt.arg(1, &mut word) {
        Err(FillError::NotPresent) => Asked::Run,
        Err(FillError::TooLong) => Asked::Unknown,
        Ok(_) if has_second(rt) => Asked::Unknown,
        Ok(n) => asked_by(&word[..n]),
    }
}

// Whether the program is to do its own work. What else is asked for is printed.
pub fn to_run<W: Write, E: Write>(
    rt: &impl Env,
    name: &str,
    usage: &[u8],
    version: &[u8],
    out: &mut W,
    errors: &mut E,
) -> bool {
    let printed = match what_is_asked(rt) {
        Asked::Run => return true,
        Asked::Help => output::put(usage, out),
        Asked::Version => output::put(version, out),
        Asked::Unknown => output::put(usage, errors),
    };
    if let Err(error) = printed {
        output::fail(name, "write error", &error, errors);
    }
    false
}
