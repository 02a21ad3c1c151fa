//! Reads the heads of requests and responses, and reports on their `Content-Type` and `Accept` fields. The arguments are a server's offers.
//! The report also shows which offer is the best, and why.
#![tactic(auto)]

ghost use Rattle.std.specs.Prelude.{◌≡◌, OnErr};
ghost use Rattle.std.specs.Process.{exit_status};

mod error;
#[cfg(test)]
mod facts;
mod field;
mod head;
mod line;
mod offers;
mod program;
mod report;
mod shown;
mod start;
#[cfg(test)]
mod tests;

pub use crate::error::HeadError;
pub use crate::field::Name;
use crate::offers::read_offers;
pub use crate::program::run;
pub use crate::report::Verdict;
use crate::shown::without_controls;
use mime_http::FieldError;
use mime_io::{Device, RunError};
use std::io::{Stdout, Write};
use std::process::ExitCode;
use std::{env, fmt, io};

/// Standard output, which may be a closed pipe.
#[derive(Drop)]
struct Output {
    inner: Stdout,
    /// Whether the pipe was closed at the last write.
    is_closed: bool,
}

impl Write for Output {
    fn write(&mut self, buf: &[u8]) -> io::Result<usize> {
        let answer = self.inner.write(buf);
        self.is_closed = matches!(&answer, Err(error) if error.kind() == io::ErrorKind::BrokenPipe);
        answer
    }

    fn flush(&mut self) -> io::Result<()> {
        self.inner.flush()
    }
}

fn main(rt: HostRuntime) -> ExitCode {
    let arguments = match env::args(&rt) {
        Ok(arguments) => arguments,
        Err(error) if error.kind() == io::ErrorKind::InvalidData => {
            return stopped(&rt, &"an offer isn't UTF-8");
        }
        Err(_) => return stopped(&rt, &RunError::NoMemory),
    };
    let offers = match read_offers(rt.alloc(), arguments) {
        Ok(offers) => offers,
        Err((_, FieldError::NoMemory)) => return stopped(&rt, &RunError::NoMemory),
        Err((word, error)) => return stopped_by(&rt, word, error),
    };
    let mut input = Device::of(rt.stdin());
    let mut output = Device::of(Output {
        inner: rt.stdout(),
        is_closed: false,
    });
    match run(rt.alloc(), &mut input, &mut output, &offers) {
        // Shells report this status for a write to a closed pipe.
        Err(HeadError::Run(RunError::Write)) if output.inner.is_closed => ExitCode::from(141),
        outcome => status(&rt, outcome),
    }
}

/// Returns the exit status of a run. If the run failed, prints its error on standard error.
fn status(rt: &impl Eprint, outcome: Result<Verdict, HeadError>) -> ExitCode
    ensures acceptable { outcome ≡ Ok Verdict.Acceptable → exit_status result ≡ 0 }
    ensures not_acceptable { outcome ≡ Ok Verdict.NotAcceptable → exit_status result ≡ 1 }
    ensures stopped { OnErr outcome (exit_status result ≡ 2) }
{
    match outcome {
        Ok(Verdict::Acceptable) => ExitCode::SUCCESS,
        Ok(Verdict::NotAcceptable) => ExitCode::FAILURE,
        Err(error) => stopped(rt, &error),
    }
}

/// Prints on standard error that an argument isn't an offer, and returns the exit status 2.
fn stopped_by(rt: &HostRuntime, word: String, error: FieldError) -> ExitCode
    ensures { exit_status result ≡ 2 }
{
    let Ok(Ok(word)) = without_controls(rt.alloc(), word.into_bytes()).map(String::from_utf8) else {
        return stopped(rt, &RunError::NoMemory);
    };
    let usage = "usage: mime_headers [--unproved] [OFFER..] <FILE";
    stopped(rt, &format_args!("bad offer {word}: {error}\n{usage}"))
}

/// Prints on standard error why the program stops, and returns the exit status 2.
fn stopped(rt: &impl Eprint, reason: &impl fmt::Display) -> ExitCode
    ensures { exit_status result ≡ 2 }
{
    let _ = eprintln!(rt; "mime_headers: {reason}");
    ExitCode::from(2)
}
