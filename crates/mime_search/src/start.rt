//! Finds which of a string's first bytes stop a search.

ghost use Rattle.std.specs.Prelude.{ℕ, List, ◌≡◌, ◌+◌, ◌*◌, ◌/◌, ◌-◌, ◌<◌, ◌≤◌, ◌^◌, ◌++◌, length, take, drop};
ghost use Rattle.mime_search.specs.Classes.{IsStart, end_of_run, stops};

use crate::class::{BLOCK, Class, stops_in_lanes};
use crate::search::stops_in_block;
use std::simd::prelude::*;

/// The maximum number of bytes that are searched together at the start of a string. A mask has a bit for each byte.
pub const WINDOW: usize = 64;

/// Half a block.
const HALF: usize = 8;

/// Returns the mask of `size` bytes, from the masks of their first and of their last `part` bytes, which may overlap.
#[inline(always)]
fn joined(first: u64, last: u64, part: usize, size: usize) -> u64
    requires part { part ≤ 32 }
    requires reach { size ≤ part + part }
    requires room { part ≤ size }
    requires first { first < 2 ^ 32 }
    requires last { last < 2 ^ 32 }
    ensures { result ≡ first + last / 2 ^ (part + part - size) * 2 ^ part }
{
    first + ((last >> (part + part - size)) << part)
}

/// Returns the first and the last half block of a string, which may overlap.
#[inline(always)]
fn both_ends(text: &[u8]) -> u8x16
    requires { HALF ≤ length text.now }
    ensures { result ≡ take HALF text.now ++ drop (length text.now - HALF) text.now }
{
    let first = u8x8::from_slice(text);
    let last = u8x8::from_slice(&text[text.len() - HALF..]);
    first.shuffle(last, [0, 1, 2, 3, 4, 5, 6, 7, 8, 9, 10, 11, 12, 13, 14, 15])
}

/// Returns which bytes of a string stop a search, as a bit mask. The string's length is from half a block to a block.
#[inline(always)]
fn stops_in_halves(text: &[u8], class: &Class) -> u64
    requires room { HALF ≤ length text.now }
    requires reach { length text.now ≤ BLOCK }
    ensures { result ≡ stops class.now text.now }
{
    let found = stops_in_lanes(both_ends(text), class);
    joined(found % 256, found / 256, HALF, text.len())
}

/// Returns which bytes of a string stop a search, as a bit mask. The string's length is from one block to four. `first`
/// is the mask of its first block.
#[inline(always)]
pub fn stops_in_window(text: &[u8], first: u64, class: &Class) -> u64
    requires room { BLOCK ≤ length text.now }
    requires reach { length text.now ≤ WINDOW }
    requires first { first ≡ stops class.now (take BLOCK text.now) }
    requires few { first < 2 ^ 16 }
    ensures { result ≡ stops class.now text.now }
{
    let size = text.len();
    let last = stops_in_block(text, size - BLOCK, class);
    if size <= BLOCK + BLOCK {
        return joined(first, last, BLOCK, size);
    }
    let start = first + (stops_in_block(text, BLOCK, class) << BLOCK);
    let end = stops_in_block(text, size - BLOCK - BLOCK, class) + (last << BLOCK);
    joined(start, end, BLOCK + BLOCK, size)
}

/// Searches at most the first block of a string, or nothing if the string is shorter than half a block. Returns the
/// number of bytes searched, and which of them stop the search, as a bit mask.
#[inline(always)]
pub fn stops_at_start(text: &[u8], class: &Class) -> (usize, u64)
    ensures few { result.0 ≤ BLOCK }
    ensures within { result.0 ≤ length text.now }
    ensures mask { result.1 ≡ stops class.now (take result.0 text.now) }
{
    let size = text.len();
    if size >= BLOCK {
        (BLOCK, stops_in_block(text, 0, class))
    } else if size >= HALF {
        (size, stops_in_halves(text, class))
    } else {
        (0, 0)
    }
}

/// The result of searching the start of a string: which of the first `known` bytes stop the search, as a bit mask.
#[derive(Clone, Copy)]
pub struct Start {
    pub known: usize,
    pub stops: u64,
}

/// Searches at most the first `WINDOW` bytes of a string, and returns which of them stop the search. No clause promises
/// more. A string shorter than half a block isn't searched.
#[inline(always)]
pub fn search_start(text: &[u8], class: &Class) -> Start
    ensures { IsStart class.now text.now result }
{
    let window = &text[..text.len().min(WINDOW)];
    let (known, stops) = stops_at_start(window, class);
    if known < BLOCK {
        return Start { known, stops };
    }
    Start {
        known: window.len(),
        stops: stops_in_window(window, stops, class),
    }
}

impl Start {
    /// Returns a position that is at least `from`, and at most that of the first byte from there on that stops the
    /// search.
    #[inline(always)]
    pub fn stop_from(self, from: usize) -> usize
        requires { self.known ≤ WINDOW }
        ensures least { from ≤ result }
        ensures passed { (class : Class) (text : List ℕ) → IsStart class text self → result ≤ end_of_run class text from }
        ensures within { (class : Class) (text : List ℕ) → IsStart class text self → from ≤ length text → result ≤ length text }
    {
        if from >= self.known {
            return from;
        }
        let stops = self.stops >> from;
        if stops == 0 {
            return self.known;
        }
        from + stops.trailing_zeros() as usize
    }
}
