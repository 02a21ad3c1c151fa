//! Reports on each line of standard input: a media type or, with the argument `list`, a list of media types.
#![tactic(auto)]

ghost use Rattle.std.specs.Prelude.{◌≡◌, ◌<◌, ◌≤◌, Some, None, IsSomeAnd, OnOk, OnErr, slice_get, string_bytes};
ghost use Rattle.std.specs.Process.{exit_status};
ghost use Rattle.std.specs.Vec.Iter.{into_iter_items, into_iter_len};
ghost use Rattle.mime_lines.specs.Program.{mode_named};

mod mode;
mod program;
mod report;
#[cfg(test)]
mod tests;

pub use crate::mode::{Mode, copies_are_same};
pub use crate::program::run;
pub use mime_io::{Device, Failed, RunError, Sink, Source};
use std::env;
use std::env::Args;
use std::process::ExitCode;

/// Returns the mode that the arguments select, or `None` if they select no mode. The first argument is the program's name.
fn asked_mode(mut arguments: Args) -> Option<Mode>
    ensures parts { into_iter_len arguments ≤ 1 → result ≡ Some Mode.Parts }
    // The argument after the program's name selects the mode.
    ensures named { into_iter_len arguments ≡ 2
        → IsSomeAnd (slice_get (into_iter_items arguments) 1) (λ word. result ≡ mode_named (string_bytes word)) }
    ensures other { 2 < into_iter_len arguments → result ≡ None }
{
    if arguments.len() > 2 {
        return None;
    }
    let _program = arguments.next();
    match arguments.next() {
        None => Some(Mode::Parts),
        Some(word) => (word.as_str() == "list").then_some(Mode::List),
    }
}

/// Returns the exit status of a run with the result `outcome`: 0 if it succeeded, 1 if it failed. If it failed, prints
/// the error on standard error.
fn ended(rt: &impl Eprint, outcome: Result<(), RunError>) -> ExitCode
    ensures done { OnOk outcome (exit_status result ≡ 0) }
    ensures stopped { OnErr outcome (exit_status result ≡ 1) }
{
    match outcome {
        Ok(()) => ExitCode::SUCCESS,
        Err(error) => {
            let _ = eprintln!(rt; "{error}");
            ExitCode::FAILURE
        }
    }
}

fn main(rt: HostRuntime) -> ExitCode {
    let asked = match env::args(&rt) {
        Ok(arguments) => asked_mode(arguments),
        // Memory ran out, or an argument isn't UTF-8, for which the program has no error of its own.
        Err(_) => return ended(&rt, Err(RunError::NoMemory)),
    };
    let Some(mode) = asked else {
        let _ = eprintln!(rt; "usage: mime_lines [list]");
        return ExitCode::from(2);
    };
    let (mut input, mut output) = (Device::of(rt.stdin()), Device::of(rt.stdout()));
    let outcome = run(rt.alloc(), &mut input, &mut output, mode);
    ended(&rt, outcome)
}
