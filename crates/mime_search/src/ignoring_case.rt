//! Compares byte strings ignoring ASCII case: whether they are equal, and where they first differ.

ghost use Rattle.std.specs.Prelude.{◌≡◌, ◌↔◌, ◌≤◌, ◌+◌, IsTrue, IfSome, None, length, take};
ghost use Rattle.std.specs.Simd.Lanes.{zip2};
ghost use Rattle.mime_search.specs.Differences.{difference_bit};
ghost use Rattle.mime_search.specs.IgnoringCase.{lowered, FirstDifference};

use crate::class::{BLOCK, Class};
use crate::search::first_stop;

/// The bit in which a lowercase ASCII letter and its capital differ.
const CASE_BIT: u8 = 0x20;

/// Returns 1 if two bytes differ ignoring ASCII case, else 0.
#[inline(always)]
fn difference(x: u8, y: u8) -> u8
    ensures { result ≡ difference_bit x y }
{
    let case = if (x | CASE_BIT).is_ascii_lowercase() {
        CASE_BIT
    } else {
        0
    };
    u8::from((x ^ y) & !case != 0)
}

/// Returns, for each position in the first block of two byte strings, 1 if their bytes differ ignoring ASCII case, else
/// 0.
#[inline(always)]
fn differences(a: &[u8], b: &[u8]) -> [u8; BLOCK]
    requires room { BLOCK ≤ length a.now }
    requires other_room { BLOCK ≤ length b.now }
    ensures { result ≡ zip2 difference_bit (take BLOCK a.now) (take BLOCK b.now) }
{
    let mut found = [0; BLOCK];
    let mut at = 0;
    while at < BLOCK {
        found[at] = difference(a[at], b[at]);
        at += 1;
    }
    found
}

/// Returns the first position in the first block at which two byte strings differ ignoring ASCII case, or `None` if
/// they don't differ there.
#[inline(always)]
fn difference_in_block(a: &[u8], b: &[u8]) -> Option<usize>
    requires room { BLOCK ≤ length a.now }
    requires other_room { BLOCK ≤ length b.now }
    ensures some { IfSome result (FirstDifference a.now b.now) }
    ensures none { result ≡ None → take BLOCK (lowered a.now) ≡ take BLOCK (lowered b.now) }
{
    let at = first_stop(&differences(a, b), 0, &Class::of(1, 1));
    if at < BLOCK { Some(at) } else { None }
}

/// Returns the first position at which two byte strings of at least a block differ ignoring ASCII case, or `None` if
/// they don't differ before one of them ends. The last block may overlap the block before it.
#[inline(always)]
pub fn first_difference_ignoring_case(a: &[u8], b: &[u8]) -> Option<usize>
    requires room { BLOCK ≤ length a.now }
    requires other_room { BLOCK ≤ length b.now }
    ensures some { IfSome result (FirstDifference a.now b.now) }
    ensures none { result ≡ None → length a.now ≡ length b.now → lowered a.now ≡ lowered b.now }
{
    let last = a.len().min(b.len()) - BLOCK;
    let mut from = 0;
    while from < last {
        match difference_in_block(&a[from..], &b[from..]) {
            Some(at) => return Some(from + at),
            None => from += BLOCK,
        }
    }
    match difference_in_block(&a[last..], &b[last..]) {
        Some(at) => Some(last + at),
        None => None,
    }
}

/// Returns `true` if two byte strings of equal length are equal ignoring ASCII case. The loop doesn't end early, so
/// that it is compiled to a few vector instructions if the length is known.
#[inline(always)]
fn eq_byte_by_byte(a: &[u8], b: &[u8]) -> bool
    requires same_length { length a.now ≡ length b.now }
    ensures { IsTrue result ↔ (lowered a.now ≡ lowered b.now) }
{
    let mut differs = 0;
    let mut at = 0;
    while at < a.len() {
        differs |= difference(a[at], b[at]);
        at += 1;
    }
    differs == 0
}

/// Returns `true` if two byte strings of equal length are equal ignoring ASCII case. The length is from `block` to
/// twice `block`, so the first and the last `block` bytes include all bytes. The last bytes are compared first, since
/// names differ more often at the end.
#[inline(always)]
fn eq_at_both_ends(a: &[u8], b: &[u8], block: usize) -> bool
    requires same_length { length a.now ≡ length b.now }
    requires room { block ≤ length a.now }
    requires reach { length a.now ≤ block + block }
    ensures { IsTrue result ↔ (lowered a.now ≡ lowered b.now) }
{
    let last = a.len() - block;
    eq_byte_by_byte(&a[last..], &b[last..]) && eq_byte_by_byte(&a[..block], &b[..block])
}

/// Returns `true` if two byte strings of equal length are equal ignoring ASCII case. This function isn't inlined: it
/// has many callers.
#[inline(never)]
fn eq_of_one_length(a: &[u8], b: &[u8]) -> bool
    requires same_length { length a.now ≡ length b.now }
    ensures { IsTrue result ↔ (lowered a.now ≡ lowered b.now) }
{
    if a.len() >= BLOCK {
        return first_difference_ignoring_case(a, b).is_none();
    }
    if a.len() >= 8 {
        return eq_at_both_ends(a, b, 8);
    }
    if a.len() >= 4 {
        return eq_at_both_ends(a, b, 4);
    }
    eq_byte_by_byte(a, b)
}

/// Returns `true` if two byte strings are equal ignoring ASCII case. The lengths, which decide most calls, are compared
/// in the caller's code.
#[inline(always)]
pub fn eq_ignore_ascii_case(a: &[u8], b: &[u8]) -> bool
    ensures { IsTrue result ↔ (lowered a.now ≡ lowered b.now) }
{
    if a.len() != b.len() {
        return false;
    }
    eq_of_one_length(a, b)
}
