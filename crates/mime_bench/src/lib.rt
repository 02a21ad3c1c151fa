//! The operations that bench/ measures, as one call over byte slices.
//!
//! The call repeats an operation in rounds. If two calls differ only in their rounds, their times differ by the time of the additional
//! rounds. No clause states the results. bench/run compares their sums with the Rust crate's.
#![tactic(auto)]

mod ranking;

use crate::ranking::ranks;
use mime::{BOUNDARY, CHARSET, Mime, MimeIter, ParamKey, TextKey, mime_eq_str};
use mime_http::{
    Accept, boundary, content_type, covers, unescape, weight_of, with_boundary, with_charset,
    with_parameter,
};
use std::alloc::{AllocError, Global};
use std::fmt::Write;
use std::hash::{DefaultHasher, FoldHasher, Hash, Hasher};
use std::str;

/// Sums the results of `$turn` for each `$it` in `$all`, over all rounds.
macro_rules! sum {
    ($rounds:ident, $it:pat in $all:expr => $turn:expr) => {{
        let mut sum = 0usize;
        for _ in 0..$rounds {
            for $it in $all {
                sum = sum.wrapping_add($turn);
            }
        }
        sum
    }};
}

/// Repeats an operation for each line of `texts`, or for its media type, and returns the sum of the results. Some operations also use lines
/// of `others`. `operation` is a position, from 0, in the list `OPERATIONS` of bench/driver.rs.
#[unsafe(no_mangle)]
pub extern "C" fn mime_bench(
    alloc: Global,
    operation: usize,
    texts: &[u8],
    others: &[u8],
    rounds: usize,
) -> usize {
    let (Ok(texts), Ok(others)) = (str::from_utf8(texts), str::from_utf8(others)) else {
        return 0;
    };
    let (texts, others) = (lines(alloc, texts), lines(alloc, others));
    let (values, against) = (values_of(alloc, &texts), values_of(alloc, &others));
    match operation {
        0 => read(alloc, &texts, rounds),
        1 => read_and_look_up(alloc, &texts, rounds),
        2 => look_up_charset(&values, rounds),
        3 => look_up_boundary(&values, rounds),
        4 => look_up_charset_str(&values, rounds),
        5 => look_up_missing(&values, rounds),
        6 => walk(&values, rounds),
        7 => parts(&values, rounds),
        8 => essence(&values, rounds),
        9 => eq(&values, &against, rounds),
        10 => eq_str(&values, &others, rounds),
        11 => cmp(&values, &against, rounds),
        12 => hash::<FoldHasher>(&values, rounds),
        13 => clone(&values, rounds),
        14 => print(alloc, &values, rounds),
        15 => items(alloc, &texts, rounds),
        16 => field(alloc, &texts, rounds),
        17 => serve(alloc, &texts, rounds),
        18 => meant_boundary(alloc, &values, rounds),
        19 => write_parameter(alloc, &texts, &against, rounds),
        20 => negotiate(alloc, &texts, &against, rounds),
        21 => weight(&values, rounds),
        22 => cover(&values, &against, rounds),
        31 => hash::<DefaultHasher>(&values, rounds),
        _ => one(alloc, operation, &texts, &values, &against, rounds),
    }
}

/// Returns the lines of a string. If memory runs out, some are left out, which bench/run sees in the sums.
fn lines<'a>(alloc: Global, text: &'a str) -> Vec<&'a str> {
    let mut lines = Vec::new(alloc);
    for line in text.split('\n') {
        let _ = lines.push(line);
    }
    lines
}

/// Returns the media types of strings. Rejected strings are left out.
fn values_of(alloc: Global, texts: &[&str]) -> Vec<Mime> {
    let mut values = Vec::new(alloc);
    for text in texts {
        if let Ok(mime) = Mime::from_str(alloc, text) {
            let _ = values.push(mime);
        }
    }
    values
}

/// Reads and drops media types. Returns the sum of the lengths of their kept texts, over all rounds.
#[inline(never)]
fn read(alloc: Global, texts: &[&str], rounds: usize) -> usize {
    sum!(rounds, text in texts => Mime::from_str(alloc, text).map_or(0, |mime| mime.as_str().len()))
}

#[inline(never)]
fn read_and_look_up(alloc: Global, texts: &[&str], rounds: usize) -> usize {
    sum!(rounds, text in texts => match Mime::from_str(alloc, text) {
        Ok(mime) => length_found(&mime, TextKey("charset")),
        Err(_) => 0,
    })
}

#[inline(never)]
fn look_up_charset(values: &[Mime], rounds: usize) -> usize {
    sum!(rounds, mime in values => length_found(mime, CHARSET))
}

#[inline(never)]
fn look_up_boundary(values: &[Mime], rounds: usize) -> usize {
    sum!(rounds, mime in values => length_found(mime, BOUNDARY))
}

#[inline(never)]
fn look_up_charset_str(values: &[Mime], rounds: usize) -> usize {
    sum!(rounds, mime in values => length_found(mime, TextKey("charset")))
}

#[inline(never)]
fn look_up_missing(values: &[Mime], rounds: usize) -> usize {
    sum!(rounds, mime in values => length_found(mime, TextKey("level")))
}

/// Returns the length of the value that a key finds in a media type, or 0 if there is none.
#[inline(always)]
fn length_found<K: ParamKey + Drop>(mime: &Mime, key: K) -> usize {
    mime.get_param(key).map_or(0, |value| value.text.len())
}

#[inline(never)]
fn walk(values: &[Mime], rounds: usize) -> usize {
    sum!(rounds, mime in values => {
        let mut length = 0usize;
        for (name, value) in mime.params() {
            length = length
                .wrapping_add(name.text.len())
                .wrapping_add(value.text.len());
        }
        length
    })
}

#[inline(never)]
fn parts(values: &[Mime], rounds: usize) -> usize {
    sum!(rounds, mime in values => {
        let suffix = mime.suffix().map_or(0, |suffix| suffix.text.len());
        let length = mime.type_().text.len().wrapping_add(suffix);
        length.wrapping_add(mime.subtype().text.len())
    })
}

/// Compares the essence of each media type with two strings.
#[inline(never)]
fn essence(values: &[Mime], rounds: usize) -> usize {
    sum!(rounds, mime in values => which_essence(mime))
}

/// Returns 1 if the essence is `text/html`, 2 if it is `application/json`, and otherwise 0.
#[inline(always)]
fn which_essence(mime: &Mime) -> usize {
    let essence = mime.essence_str();
    if essence == "text/html" {
        1
    } else if essence == "application/json" {
        2
    } else {
        0
    }
}

#[inline(never)]
fn eq(values: &[Mime], others: &[Mime], rounds: usize) -> usize {
    sum!(rounds, (mime, other) in values.iter().zip(others) => (mime == other) as usize)
}

#[inline(never)]
fn eq_str(values: &[Mime], texts: &[&str], rounds: usize) -> usize {
    sum!(rounds, (mime, text) in values.iter().zip(texts) => mime_eq_str(mime, text) as usize)
}

#[inline(never)]
fn cmp(values: &[Mime], others: &[Mime], rounds: usize) -> usize {
    sum!(rounds, (mime, other) in values.iter().zip(others) => mime.cmp(other).is_lt() as usize)
}

/// Hashes media types with `FoldHasher`, the hasher of `HashMap::new`, or with SipHash, the hasher of a map that is seeded at random.
/// Returns how many hashes aren't 1, which must be the same number as the Rust crate's. The hashes themselves differ.
#[inline(never)]
fn hash<H: Hasher + Default + Drop>(values: &[Mime], rounds: usize) -> usize {
    sum!(rounds, mime in values => {
        let mut hasher = H::default();
        mime.hash(&mut hasher);
        (hasher.finish() != 1) as usize
    })
}

#[inline(never)]
fn clone(values: &[Mime], rounds: usize) -> usize {
    sum!(rounds, mime in values => mime.clone().map_or(0, |copy| copy.as_str().len()))
}

/// Prints each media type into the same string, cleared before.
#[inline(never)]
fn print(alloc: Global, values: &[Mime], rounds: usize) -> usize {
    let mut printed = String::new(alloc);
    sum!(rounds, mime in values => {
        printed.clear();
        let _ = write!(printed, "{mime}");
        printed.len()
    })
}

/// Iterates over the media types of lists. Returns the sum of the lengths of their kept texts, over all rounds.
#[inline(never)]
fn items(alloc: Global, texts: &[&str], rounds: usize) -> usize {
    sum!(rounds, text in texts => {
        let mut length = 0usize;
        for item in MimeIter::new(alloc, text) {
            if let Ok(mime) = item {
                length = length.wrapping_add(mime.as_str().len());
            }
        }
        length
    })
}

/// Reads header values. Returns the sum of the lengths of their kept texts, over all rounds.
#[inline(never)]
fn field(alloc: Global, texts: &[&str], rounds: usize) -> usize {
    sum!(rounds, text in texts => content_type(alloc, text.as_bytes()).map_or(0, |mime| mime.as_str().len()))
}

/// Reads header values, and looks up the essence, the charset and the boundary, as a server does.
#[inline(never)]
fn serve(alloc: Global, texts: &[&str], rounds: usize) -> usize {
    sum!(rounds, text in texts => match content_type(alloc, text.as_bytes()) {
        Ok(mime) => which_essence(&mime)
            .wrapping_add(length_found(&mime, CHARSET))
            .wrapping_add(boundary_len(alloc, &mime)),
        Err(_) => 0,
    })
}

#[inline(never)]
fn meant_boundary(alloc: Global, values: &[Mime], rounds: usize) -> usize {
    sum!(rounds, mime in values => boundary_len(alloc, mime))
}

/// Returns the length of the boundary that `boundary` finds in a media type, or 0 if there is none.
#[inline(always)]
fn boundary_len(alloc: Global, mime: &Mime) -> usize {
    match boundary(alloc, mime) {
        Ok(Some(found)) => found.len(),
        _ => 0,
    }
}

/// Adds a parameter with each of these values to the first media type. Returns the sum of the lengths of the kept texts, over all rounds.
#[inline(never)]
fn write_parameter(alloc: Global, values: &[&str], mimes: &[Mime], rounds: usize) -> usize {
    let Some(mime) = mimes.first() else {
        return 0;
    };
    sum!(rounds, value in values => written(with_parameter(alloc, mime, "p", value)))
}

/// Returns the length of a written media type's kept text, or 0 if nothing was written.
#[inline(always)]
fn written(made: Result<Option<Mime>, AllocError>) -> usize {
    match made {
        Ok(Some(made)) => made.as_str().len(),
        _ => 0,
    }
}

/// Reads each `Accept` header, and chooses the best offer for it. Returns the sum of these offers' positions, from 1, over all rounds.
#[inline(never)]
fn negotiate(alloc: Global, texts: &[&str], offers: &[Mime], rounds: usize) -> usize {
    sum!(rounds, text in texts => Accept::from_lines(alloc, &[text.as_bytes()]).map_or(0, |accept| place_of_best(&accept, offers)))
}

/// Returns the position of the best offer, from 1, or 0 if there is none.
#[inline(always)]
fn place_of_best(accept: &Accept, offers: &[Mime]) -> usize {
    accept.best(offers).map_or(0, |at| at.wrapping_add(1))
}

#[inline(never)]
fn weight(values: &[Mime], rounds: usize) -> usize {
    sum!(rounds, range in values => weight_of(range) as usize)
}

#[inline(never)]
fn cover(values: &[Mime], offers: &[Mime], rounds: usize) -> usize {
    sum!(rounds, (range, offer) in values.iter().zip(offers) => covers(range, offer) as usize)
}

/// Repeats an operation that uses only the first string, or the first media type, once for each string.
#[inline(never)]
fn one(
    alloc: Global,
    operation: usize,
    texts: &[&str],
    values: &[Mime],
    offers: &[Mime],
    rounds: usize,
) -> usize {
    let Some(text) = texts.first() else {
        return 0;
    };
    let Ok(accept) = Accept::from_lines(alloc, &[text.as_bytes()]) else {
        return 0;
    };
    let mut buffer = Vec::new(alloc);
    sum!(rounds, _ in texts => match (operation, values.first(), offers.first()) {
        (23, _, _) => {
            buffer.clear();
            let _ = unescape(text, &mut buffer);
            buffer.len()
        }
        (24, _, _) => Accept::from_lines(alloc, &[text.as_bytes()]).map_or(0, |read| read.ranges().len()),
        (25, _, _) => place_of_best(&accept, offers),
        (26, _, _) => accept.order(alloc, offers).map_or(0, |order| order.len()),
        (27, _, Some(offer)) => accept.weight(offer) as usize,
        (28, Some(mime), _) => written(with_charset(alloc, mime, "utf-8")),
        (29, Some(mime), _) => written(with_boundary(alloc, mime, "----WebKitFormBoundary7MA4YWxk")),
        (30, Some(mime), _) => written(with_parameter(alloc, mime, "name", "a value")),
        (32, _, _) => ranks(alloc, &accept, offers),
        _ => 0,
    })
}
