//! The job of a server that reads values and headers of 2 to 60 KB, which a client may send to slow the server down.

use crate::Job;
use crate::digest::Digest;
use crate::random::Random;
use crate::texts::{Text, media_types_of};
use mime::{BOUNDARY, Bad, CHARSET, Mime, MimeIter, TEXT_PLAIN_UTF_8, mime_eq_str};
use mime_http::{Accept, content_type};
use std::alloc::{AllocError, Global};
use std::hash::{FoldHasher, Hash, Hasher};

/// The shape of a long string: its start, the string that it repeats, and its end.
struct Shape(&'static str, &'static str, &'static str);

/// The shapes of values of `Content-Type`.
static VALUES: [Shape; 17] = [
    Shape("a/#;p=\"", "\\\"", "\""),
    Shape("a/#;p=\"", "\\\\", "\"; charset=utf-8"),
    Shape("a/#;p=\"", "\\x", "\""),
    Shape("a/#;", " ", "p=x"),
    Shape("a/#", ";p=x", ""),
    Shape("a/#", ";", "p=x"),
    Shape("a/#", " ", ";p=x"),
    Shape("a/#", "x", ""),
    Shape("a/#", "+x", ""),
    Shape("a/#;boundary=", "y", ""),
    Shape("a/#;boundary=\"", ",", "\""),
    Shape("a/#;p=\"", "é", "\""),
    Shape("a/#", "; name=value", "; charset=utf-8"),
    Shape("A/#", "; Name=Value", "; Charset=UTF-8"),
    Shape("a/#; charset=utf-8; p=\"x", " x", ""),
    Shape("a/#;p=", "x", ","),
    Shape("a/#", " ; p=x", " ; p"),
];

/// The shapes of values of `Accept`.
static LISTS: [Shape; 12] = [
    Shape("a/#,", "a/b;q=0.5,", ""),
    Shape("a/#", ", text/html;level=1;q=0.5", ""),
    Shape("a/#", ", */*;q=0.1;x=\"a,b\"", ""),
    Shape("a/#", ", bad", ""),
    Shape("a/#", ", text/ html", ""),
    Shape("a/#", ",", ""),
    Shape("a/#,", "\"", ""),
    Shape("a/#;p=\"", "\\", ""),
    Shape("a/#,", ";", ""),
    Shape("a/#,", " ", "c/d"),
    Shape("a/#,b/c;p=\"", "\\\"", ""),
    Shape("a/#", " ; q=0.5 , text/html", ""),
];

static OFFERS: [&str; 4] = [
    "text/html; charset=utf-8",
    "application/json",
    "text/html;level=1",
    "a/b",
];

/// Returns three strings of each shape, of 2 to 60 KB.
fn texts_of(alloc: Global, shapes: &[Shape], random: &mut Random) -> Result<Vec<Text>, AllocError> {
    let mut texts = Vec::new(alloc);
    for (at, shape) in shapes.iter().enumerate() {
        for (size, least) in [1900, 7500, 30_000].iter().enumerate() {
            let size_of = *least + random.below(*least);
            let number = at.wrapping_mul(3).wrapping_add(size);
            let Shape(start, unit, end) = *shape;
            texts.push(Text::long(alloc, start, unit, end, size_of, number, random)?)?;
        }
    }
    Ok(texts)
}

/// Adds to a digest a media type's essence, and the results of look-ups, a hash, comparisons, a clone and a walk over the parameters.
fn look_up(mime: &Mime, digest: &mut Digest) -> Result<(), AllocError> {
    digest.media_type(mime);
    digest.found(mime.get_param(CHARSET));
    digest.found(mime.get_param(BOUNDARY));
    digest.found(mime.get_param("level"));
    let mut hasher = FoldHasher::default();
    mime.hash(&mut hasher);
    let constant = TEXT_PLAIN_UTF_8.mime();
    digest.flag(*mime < constant);
    digest.flag(mime_eq_str(mime, "text/plain; charset=utf-8"));
    let copy = mime.clone()?;
    digest.flag(copy == *mime && hasher.finish() != 1);
    let mut count = 0;
    for (name, value) in mime.params() {
        count = value.text.len().wrapping_add(name.text.len()) ^ count;
    }
    digest.number(count);
    Ok(())
}

fn read_value(job: &mut Job, value: &[u8]) -> Result<(), AllocError> {
    match content_type(job.alloc, value) {
        Ok(mime) => look_up(&mime, &mut job.digest),
        Err(error) => {
            job.digest.field_error(&error);
            Ok(())
        }
    }
}

/// Adds to a digest a header's number of ranges, the lengths of its bad entries, the best offer's position and the first offer's weight.
fn read_header(job: &mut Job, line: &[u8], offers: &[Mime]) -> Result<(), AllocError> {
    let digest = &mut job.digest;
    let accept = Accept::from_lines(job.alloc, &[line])?;
    digest.number(accept.ranges().len());
    for bad in accept.bad() {
        digest.number(bad.len());
    }
    digest.number(accept.best(offers).unwrap_or(99));
    if let Some(offer) = offers.first() {
        digest.number(accept.weight(offer) as usize);
    }
    Ok(())
}

fn read_list(alloc: Global, list: &str, digest: &mut Digest) {
    let mut items = MimeIter::new(alloc, list);
    while let Some(item) = items.next() {
        match item {
            Ok(mime) => digest.number(mime.as_str().len()),
            Err(Bad::Piece(piece)) => digest.number(piece.len()),
            Err(Bad::NoMemory) => digest.number(9),
        }
    }
    digest.number(usize::try_from(items.steps()).unwrap_or(0));
}

pub(crate) fn awkward(job: &mut Job) -> Result<(), AllocError> {
    let offers = media_types_of(job.alloc, &OFFERS)?;
    let mut values = texts_of(job.alloc, &VALUES, &mut job.random)?;
    let mut lists = texts_of(job.alloc, &LISTS, &mut job.random)?;
    for _ in 0..job.rounds {
        for text in values.iter_mut() {
            text.go_on();
            read_value(job, text.bytes())?;
        }
        for text in lists.iter_mut() {
            text.go_on();
            read_header(job, text.bytes(), &offers)?;
            read_list(job.alloc, text.text(), &mut job.digest);
        }
    }
    Ok(())
}
