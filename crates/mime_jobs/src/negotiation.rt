//! The job of a server that chooses what it sends according to the `Accept` header of each request.

use crate::Job;
use crate::digest::Digest;
use crate::texts::{Text, media_types_of, texts_of};
use mime::Mime;
use mime_http::Accept;
use std::alloc::{AllocError, Global};

/// The number of headers in a round.
const COUNT: usize = 2048;

/// Headers of browsers and API clients, some with bad entries.
static PATTERNS: [&str; 24] = [
    "*/*, image/#",
    "*/*;v=#",
    "application/#, */*",
    "application/#",
    "application/json, text/#",
    "application/json, text/plain, */*;x=#",
    "application/vnd.github.#+json",
    "application/vnd.acme+json;version=2, application/#;q=0.5",
    "application/vnd.#+json;version=1, application/json;q=0.9",
    "text/html,application/xhtml+xml,application/xml;q=0.9,image/#,image/webp,*/*;q=0.8",
    "text/html,application/xhtml+xml,application/xml;q=0.9,image/#,image/webp,image/apng,*/*;q=0.8,application/signed-exchange;v=b3;q=0.7",
    "text/html, application/xhtml+xml, application/xml;q=0.9, text/#;q=0.5, */*;q=0.8",
    "text/html,application/xhtml+xml,application/xml;q=0.9,*/*;q=0.8,text/#",
    "image/avif,image/webp,image/apng,image/svg+xml,image/*,*/*;q=0.8,image/#",
    "image/#,image/png,image/svg+xml,image/*;q=0.8,video/*;q=0.8,*/*;q=0.5",
    "text/css,text/#;q=0.3,*/*;q=0.1",
    "text/*;q=0.3, text/html;q=0.7, text/html;level=1, text/html;level=2;q=0.4, text/#;q=0.5",
    "text/plain; q=0.5, text/html, text/x-dvi; q=0.8, text/#",
    "application/#; charset=utf-8, application/json; charset=utf-8",
    "Application/JSON, Text/#;Q=0.5",
    "text/html ; q=0.5 , text/# ; q=0.4",
    "text/html, #, */*;q=.2",
    "json/#, gzip, deflate",
    "text/#; q=0.5; q=0.1, audio/*; q=0.2, audio/basic",
];

/// The second lines of headers that have two lines.
static SECOND: [&str; 2] = ["*/*;q=0.1", "text/plain;q=0.5, */*;q=0.1"];

/// The offers of servers.
static OFFERS: [&[&str]; 6] = [
    &["text/html", "application/json"],
    &["application/json", "application/xml", "text/html"],
    &[
        "text/html; charset=utf-8",
        "application/json",
        "image/webp",
        "text/plain",
    ],
    &["image/avif", "image/webp", "image/png", "image/jpeg"],
    &[
        "application/vnd.acme+json;version=1",
        "application/vnd.acme+json;version=2",
        "application/json",
        "text/html;level=1",
        "text/html;level=2",
        "text/html",
    ],
    &[
        "text/html",
        "text/plain",
        "text/css",
        "text/csv",
        "application/json",
        "application/xml",
        "application/xhtml+xml",
        "application/pdf",
        "image/png",
        "image/jpeg",
        "image/svg+xml",
        "application/octet-stream",
    ],
];

fn all_offers(alloc: Global) -> Result<Vec<Vec<Mime>>, AllocError> {
    let mut all = Vec::new(alloc);
    for texts in &OFFERS {
        all.push(media_types_of(alloc, texts)?)?;
    }
    Ok(all)
}

/// Reads a header with this first line. Every tenth header has a second line.
fn accept_of(alloc: Global, text: &Text, at: usize) -> Result<Accept, AllocError> {
    let first = text.bytes();
    if at % 10 == 0 {
        let second = SECOND[at / 10 % 2];
        Accept::from_lines(alloc, &[first, second.as_bytes()])
    } else {
        Accept::from_lines(alloc, &[first])
    }
}

/// Adds a header's ranges and bad entries to a digest.
fn add_read(accept: &Accept, digest: &mut Digest) {
    for range in accept.ranges() {
        digest.media_type(range);
    }
    for bad in accept.bad() {
        digest.bytes(bad);
    }
}

/// Adds what a server needs from a header to a digest: mostly, the best offer's position.
fn choose(job: &mut Job, accept: &Accept, offers: &[Mime], at: usize) -> Result<(), AllocError> {
    let digest = &mut job.digest;
    if at % 8 == 0 {
        for position in &accept.order(job.alloc, offers)? {
            digest.number(*position);
        }
        return Ok(());
    }
    digest.number(accept.best(offers).unwrap_or(99));
    if at % 8 == 1 {
        for offer in offers {
            digest.number(accept.weight(offer) as usize);
        }
    }
    Ok(())
}

pub(crate) fn negotiation(job: &mut Job) -> Result<(), AllocError> {
    let mut texts = texts_of(job.alloc, &mut job.random, &PATTERNS, COUNT)?;
    let all = all_offers(job.alloc)?;
    for _ in 0..job.rounds {
        for (at, text) in texts.iter_mut().enumerate() {
            text.go_on();
            let accept = accept_of(job.alloc, text, at)?;
            add_read(&accept, &mut job.digest);
            if let Some(offers) = all.get(at % 6) {
                choose(job, &accept, offers, at / 6)?;
            }
        }
    }
    Ok(())
}
