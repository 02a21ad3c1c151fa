//! Describes an `Accept` header, with a line for each range.

use mime_http::{Accept, weight_of};
use std::alloc::{AllocError, Global};
use std::fmt::Write;

/// Returns a text for a log: the ranges of an `Accept` header with their weights in thousandths, and the number of bad entries, if any.
///
/// # Errors
/// Returns `AllocError` if memory runs out.
pub fn explained(alloc: Global, lines: &[&[u8]]) -> Result<String, AllocError> {
    let accept = Accept::from_lines(alloc, lines)?;
    let mut said = String::new(alloc);
    for range in accept.ranges() {
        writeln!(said, "{range} weighs {}", weight_of(range))?;
    }
    let bad = accept.bad().len();
    if bad > 0 {
        writeln!(said, "and {bad} bad")?;
    }
    Ok(said)
}
