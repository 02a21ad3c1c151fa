//! The search for the first byte of a class.

ghost use Rattle.std.specs.Prelude.{◌≡◌, ◌+◌, ◌<◌, ◌≤◌, ◌^◌, length, take, drop};
ghost use Rattle.mime_search.specs.Classes.{stops, end_of_run};

use crate::class::{BLOCK, Class, stops_in_lanes};
use std::simd::prelude::*;

/// Returns which bytes of the block that begins at `at` stop a search, as a bit mask.
#[inline(always)]
pub(crate) fn stops_in_block(text: &[u8], at: usize, class: &Class) -> u64
    requires { at + BLOCK ≤ length text.now }
    ensures mask { result ≡ stops class.now (take BLOCK (drop at text.now)) }
    ensures few { result < 2 ^ 16 }
{
    stops_in_lanes(u8x16::from_slice(&text[at..]), class)
}

/// Returns the position of the first byte at or after `from` that stops a search, or the length if there is none. The
/// text is searched byte by byte.
#[inline(always)]
fn first_stop_by_bytes(text: &[u8], from: usize, class: &Class) -> usize
    requires { from ≤ length text.now }
    ensures { result ≡ end_of_run class.now text.now from }
{
    let mut at = from;
    while at < text.len() && !class.has(text[at]) {
        at += 1;
    }
    at
}

/// Returns the position of the first byte at or after `from` that stops a search, or the length if there is none. Less
/// than a block is left at `from`, so only the text's last block is searched.
#[inline(always)]
pub(crate) fn first_stop_at_end(text: &[u8], from: usize, class: &Class) -> usize
    requires block { BLOCK ≤ length text.now }
    requires within { from ≤ length text.now }
    requires end { length text.now < from + BLOCK }
    ensures { result ≡ end_of_run class.now text.now from }
{
    let start = text.len() - BLOCK;
    let stops = stops_in_block(text, start, class) >> (from - start);
    if stops == 0 {
        text.len()
    } else {
        from + stops.trailing_zeros() as usize
    }
}

/// Searches the block at `from`, or the rest of the text if it is shorter than a block. Returns the number of bytes
/// searched, and which of them stop the search, as a bit mask.
#[inline(always)]
pub(crate) fn stops_from(text: &[u8], from: usize, class: &Class) -> (usize, u64)
    requires block { BLOCK ≤ length text.now }
    requires within { from ≤ length text.now }
    ensures few { result.0 ≤ BLOCK }
    ensures within { from + result.0 ≤ length text.now }
    ensures mask { result.1 ≡ stops class.now (take result.0 (drop from text.now)) }
{
    let last = text.len() - BLOCK;
    if from <= last {
        return (BLOCK, stops_in_block(text, from, class));
    }
    (
        text.len() - from,
        stops_in_block(text, last, class) >> (from - last),
    )
}

/// Returns the same as `first_stop`. This function isn't inlined: most searches don't need it.
#[cold]
#[inline(never)]
pub fn first_stop_far(text: &[u8], from: usize, class: &Class) -> usize
    requires { from ≤ length text.now }
    ensures end { result ≡ end_of_run class.now text.now from }
    ensures within { result ≤ length text.now }
{
    first_stop(text, from, class)
}

/// Returns the position of the first byte at or after `from` that stops a search, or the length if there is none.
#[tactic(auto, using(crate::proofs::Searches::run_within))]
#[inline(always)]
pub fn first_stop(text: &[u8], from: usize, class: &Class) -> usize
    requires { from ≤ length text.now }
    ensures end { result ≡ end_of_run class.now text.now from }
    ensures within { result ≤ length text.now }
{
    if text.len() < BLOCK {
        return first_stop_by_bytes(text, from, class);
    }
    let last = text.len() - BLOCK;
    let mut at = from;
    while at <= last {
        let stops = stops_in_block(text, at, class);
        if stops != 0 {
            return at + stops.trailing_zeros() as usize;
        }
        at += BLOCK;
    }
    first_stop_at_end(text, at, class)
}
