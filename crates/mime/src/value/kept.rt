//! Makes the kept text of an accepted string of more than `SHORT` bytes, with one allocation.

ghost use Rattle.std.specs.Prelude.{◌≡◌, ◌+◌, ◌-◌, ◌++◌, ◌<◌, if◌then◌else◌, ◌≤◌, ◌↔◌, IsFalse, IsTrue, IfOk, take, drop, length};
ghost use Rattle.std.specs.Prelude.{slice_get, slice_range, string_bytes};
ghost use Rattle.mime.specs.Bytes.{semicolon_byte};
ghost use Rattle.mime.specs.Values.{lowered, is_charset};
ghost use Rattle.mime.specs.Inner.Scanning.{HasPositions};
ghost use Rattle.mime.specs.Inner.KeptText.{with_pairs_lowered, kept_positions, kept_text_of};

use crate::name::constants::CHARSET;
use crate::scan::Positions;
use crate::value::pairs::{Pairs, cut_before};
use mime_search::{BLOCK, Class, Range, Rest, eq_ignore_ascii_case, first_stop};
use std::alloc::{AllocError, Global};

/// The ASCII capitals.
static CAPITALS: Class = Class {
    fold: 0,
    folded: Range(b'A', b'Z'),
    second: Range(b'A', b'Z'),
    third: Range(b'A', b'Z'),
    inside: true,
};

/// Returns `true` if any of the bytes is an ASCII capital. This function isn't inlined: few texts are so long.
#[cold]
#[inline(never)]
fn has_capital_far(bytes: &[u8]) -> bool
    ensures { IsFalse result ↔ (lowered bytes.now ≡ bytes.now) }
{
    let mut found = false;
    // Without an early exit, several bytes are tested at a time.
    for byte in bytes {
        found |= byte.is_ascii_uppercase();
    }
    found
}

/// Returns `true` if any of the bytes is an ASCII capital.
#[inline(always)]
pub(crate) fn has_capital(bytes: &[u8]) -> bool
    ensures { IsFalse result ↔ (lowered bytes.now ≡ bytes.now) }
{
    if bytes.len() > 8 * BLOCK {
        return has_capital_far(bytes);
    }
    first_stop(bytes, 0, &CAPITALS) < bytes.len()
}

/// Returns a position before which there is no ASCII capital: that of the first capital, or the length if there is no capital. It is 0 if
/// there is one among more than 128 bytes.
#[inline(always)]
fn first_capital(bytes: &[u8]) -> usize
    ensures { lowered (take result bytes.now) ≡ take result bytes.now }
{
    if bytes.len() > 8 * BLOCK {
        return if has_capital_far(bytes) {
            0
        } else {
            bytes.len()
        };
    }
    first_stop(bytes, 0, &CAPITALS)
}

/// Lowercases `bytes[from..to]`.
#[inline]
fn lowercase_range(bytes: &mut [u8], from: usize, to: usize)
    requires order { from ≤ to }
    requires within { to ≤ length bytes.old }
    ensures { bytes.new ≡ take from bytes.old ++ (lowered (slice_range bytes.old from to) ++ drop to bytes.old) }
{
    bytes[from..to].make_ascii_lowercase();
}

/// Lowercases the first `len` bytes, in whole blocks if `len` is at least a block. The last block may overlap the block
/// before it.
#[inline(always)]
fn lowercase_start(bytes: &mut [u8], len: usize)
    requires { len ≤ length bytes.old }
    ensures { bytes.new ≡ lowered (take len bytes.old) ++ drop len bytes.old }
{
    if len < BLOCK {
        lowercase_range(bytes, 0, len);
        return;
    }
    lowercase_range(bytes, 0, len - len % BLOCK);
    lowercase_range(bytes, len - BLOCK, len);
}

/// Returns how many of the `len` bytes of a parameter's value are lowercased: all if the parameter's name is `charset`,
/// ignoring ASCII case, else none.
#[inline(always)]
fn low_len(name: &str, len: usize) -> usize
    ensures { result ≡ if is_charset name.now then len else 0 }
{
    if eq_ignore_ascii_case(name.as_bytes(), CHARSET.text.as_bytes()) {
        len
    } else {
        0
    }
}

/// Lowercases everything up to position `semicolon`, the names of the `count` pairs, and the values of `charset`. `bytes`
/// is a copy of the bytes of `text`. This function isn't inlined: most strings have no capital. The only pair is often a
/// charset, so then all bytes are lowercased.
#[cold]
#[inline(never)]
pub(crate) fn lowercase_text(bytes: &mut [u8], text: &str, semicolon: usize, count: usize)
    requires same { bytes.old ≡ text.now }
    requires parted { slice_get text.now semicolon ≡ Some semicolon_byte }
    requires some { 0 < count }
    ensures { bytes.new ≡ with_pairs_lowered count semicolon text.now }
{
    if Pairs::of_text(text, Some(semicolon), count).is_lone_charset() {
        let len = bytes.len();
        lowercase_start(bytes, len);
        return;
    }
    let mut left = Rest::of(text, semicolon + 1);
    let mut from = 0;
    let mut others = count;
    while others != 0 {
        others -= 1;
        let start = bytes.len() - left.len();
        let pair = cut_before(&left, others);
        let low = pair.value_start + low_len(pair.name, pair.value.len());
        lowercase_start(&mut bytes[from..], start - from + low);
        from = bytes.len() - pair.rest.len();
        left = pair.rest;
    }
}

/// Returns `true` if the only capitals of a string with one pair, after position `semicolon`, are in a value that keeps them, as in
/// `multipart/form-data; boundary=X`. There is no capital before position `capital`.
#[inline(always)]
fn has_low_start(text: &str, semicolon: usize, capital: usize) -> bool
    requires parted { slice_get text.now semicolon ≡ Some semicolon_byte }
    requires low { lowered (take capital text.now) ≡ take capital text.now }
    ensures { IsTrue result → with_pairs_lowered 1 semicolon text.now ≡ text.now }
{
    let list = Rest::of(text, semicolon + 1);
    let pair = cut_before(&list, 0);
    let start = text.len() - list.len() + pair.value_start;
    start + low_len(pair.name, pair.value.len()) <= capital
}

/// Returns a copy of a string with `count` pairs after position `semicolon`, with the parts in lowercase that ignore case.
#[inline(always)]
fn lowercased(
    alloc: Global,
    text: &str,
    semicolon: usize,
    count: usize,
) -> Result<String, AllocError>
    requires parted { slice_get text.now semicolon ≡ Some semicolon_byte }
    requires some { 0 < count }
    ensures { IfOk result (λ kept. string_bytes kept ≡ with_pairs_lowered count semicolon text.now) }
{
    let mut bytes = Vec::from_slice(alloc, text.as_bytes())?;
    lowercase_text(&mut bytes, text, semicolon, count);
    // SAFETY: these are the bytes of a `str` in which only ASCII capitals were lowercased, so they are valid UTF-8.
    Ok(unsafe { String::from_utf8_unchecked(bytes) })
}

/// Returns the same as `keep_pairs`. There is no capital before position `capital`. This function isn't inlined: most strings have no
/// capital.
#[cold]
#[inline(never)]
fn keep_with_capitals(
    alloc: Global,
    text: &str,
    semicolon: usize,
    count: usize,
    capital: usize,
) -> Result<String, AllocError>
    requires parted { slice_get text.now semicolon ≡ Some semicolon_byte }
    requires some { 0 < count }
    requires low { lowered (take capital text.now) ≡ take capital text.now }
    ensures { IfOk result (λ kept. string_bytes kept ≡ with_pairs_lowered count semicolon text.now) }
{
    if count == 1 && has_low_start(text, semicolon, capital) {
        String::from_str(alloc, text)
    } else {
        lowercased(alloc, text, semicolon, count)
    }
}

/// Returns the kept text of a string with `count` pairs after position `semicolon`. Only the parts that ignore case are lowercased.
#[inline(always)]
fn keep_pairs(
    alloc: Global,
    text: &str,
    semicolon: usize,
    count: usize,
) -> Result<String, AllocError>
    requires parted { slice_get text.now semicolon ≡ Some semicolon_byte }
    requires some { 0 < count }
    ensures { IfOk result (λ kept. string_bytes kept ≡ with_pairs_lowered count semicolon text.now) }
{
    let capital = first_capital(text.as_bytes());
    if capital == text.len() {
        return String::from_str(alloc, text);
    }
    keep_with_capitals(alloc, text, semicolon, count, capital)
}

/// Returns the positions of a string's parts in its kept text, which has no semicolon if there is no parameter.
#[inline(always)]
pub(crate) fn positions_in_kept(positions: Positions) -> Positions
    ensures { result ≡ kept_positions positions }
{
    if positions.pair_count != 0 {
        return positions;
    }
    Positions {
        semicolon: None,
        ..positions
    }
}

/// Returns the length in bytes of an accepted string's kept text.
#[inline(always)]
pub(crate) fn kept_len(text: &str, positions: Positions) -> usize
    requires { HasPositions text.now positions }
    ensures kept { result ≡ length (kept_text_of positions.pair_count positions.semicolon text.now) }
    ensures pairs { 0 < positions.pair_count → result ≡ length text.now }
    ensures within { result ≤ length text.now }
{
    if positions.pair_count != 0 {
        return text.len();
    }
    positions.semicolon.unwrap_or(text.len())
}

/// Returns the kept text of an accepted string. An empty parameter list is dropped.
#[inline(always)]
pub(crate) fn keep(alloc: Global, text: &str, positions: Positions) -> Result<String, AllocError>
    requires { HasPositions text.now positions }
    ensures { IfOk result (λ kept. string_bytes kept ≡ kept_text_of positions.pair_count positions.semicolon text.now) }
{
    let Some(semicolon) = positions.semicolon else {
        return text.to_ascii_lowercase(alloc);
    };
    if positions.pair_count != 0 {
        return keep_pairs(alloc, text, semicolon, positions.pair_count);
    }
    text[..semicolon].to_ascii_lowercase(alloc)
}
