//! Runs typical jobs of users of `mime` and `mime_http` over many different strings, and prints a digest of all results.
//!
//! `mime_jobs JOB SEED ROUNDS` does one of the jobs `requests`, `negotiation`, `log`, `writing` and `awkward`. The job `all` does each of
//! them once. Each seed makes different strings of the same kinds and of similar sizes. Each round changes each string's mark, a few
//! letters in the string, and does the job with the changed strings.
#![tactic(auto)]

mod awkward;
mod digest;
mod log;
mod negotiation;
mod random;
mod requests;
mod texts;
mod writing;

use crate::digest::Digest;
use crate::random::Random;
use std::alloc::{AllocError, Global};
use std::env::Args;
use std::{env, io};

/// The job that the arguments select.
#[derive(Drop)]
struct Asked {
    job: String,
    seed: u64,
    rounds: u64,
}

/// Returns the number in an argument, or 0 if there is none.
fn number_in(word: Option<String>) -> u64 {
    word.map_or(0, |word| word.as_str().parse().unwrap_or(0))
}

/// Returns the job that the arguments select, or `None` if there are no arguments.
fn asked_job(mut arguments: Args) -> Option<Asked> {
    let _program = arguments.next();
    let job = arguments.next()?;
    let seed = number_in(arguments.next());
    let rounds = number_in(arguments.next());
    Some(Asked { job, seed, rounds })
}

/// What a job works with.
#[derive(Drop)]
pub(crate) struct Job {
    pub(crate) alloc: Global,
    pub(crate) random: Random,
    pub(crate) rounds: u64,
    /// The digest of the results of this job and of those before it.
    pub(crate) digest: Digest,
}

/// Returns the digest of the results of a job, or of all jobs.
fn digest_of(alloc: Global, asked: &Asked) -> Result<u64, AllocError> {
    let mut job = Job {
        alloc,
        random: Random::new(asked.seed),
        rounds: asked.rounds,
        digest: Digest::new(),
    };
    for name in ["requests", "negotiation", "log", "writing", "awkward"] {
        if asked.job.as_str() != "all" && asked.job.as_str() != name {
            continue;
        }
        job.random = Random::new(asked.seed);
        match name {
            "requests" => requests::requests(&mut job)?,
            "negotiation" => negotiation::negotiation(&mut job)?,
            "log" => log::log(&mut job)?,
            "writing" => writing::writing(&mut job)?,
            _ => awkward::awkward(&mut job)?,
        }
    }
    Ok(job.digest.finish())
}

fn main(rt: HostRuntime) -> io::Result<()> {
    let Some(asked) = asked_job(env::args(&rt)?) else {
        return eprintln!(rt; "usage: mime_jobs JOB SEED ROUNDS");
    };
    let digest = digest_of(rt.alloc(), &asked)?;
    println!(rt; "{digest:016x}")
}
