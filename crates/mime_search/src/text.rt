//! Converts bytes to a string.

ghost use Rattle.std.specs.Prelude.{◌≡◌, ◌≢◌, ◌+◌, ◌<◌, ◌≤◌, IsTrue, MatchResult, length};
ghost use Rattle.std.specs.Str.{IsAscii, IsUtf8, IsValidUpTo};

use crate::class::{BLOCK, Class, Range};
use crate::search::stops_in_block;

/// The maximum length of a string that `[u8]::is_ascii` tests without a loop, in bytes.
const QUICK: usize = 64;

/// All bytes except those of ASCII.
static NOT_ASCII: Class = Class {
    fold: 0,
    folded: Range(0, 127),
    second: Range(0, 127),
    third: Range(0, 127),
    inside: false,
};

/// Returns `true` if all bytes of a string of more than 64 bytes are ASCII. Unlike `[u8]::is_ascii`, this function tests up to 128 bytes
/// without a loop. It isn't inlined: most strings are shorter.
#[inline(never)]
fn is_long_ascii(bytes: &[u8]) -> bool
    requires { QUICK < length bytes.now }
    ensures { IsTrue result → IsAscii bytes.now }
{
    let len = bytes.len();
    if len > 2 * QUICK {
        return bytes.is_ascii();
    }
    // The first bytes and the last ones may overlap.
    if !bytes[..QUICK].is_ascii() {
        return false;
    }
    bytes[len - QUICK..].is_ascii()
}

/// Returns `true` if all bytes of a string of one block or two are ASCII: those of its first block and of its last one, which may overlap.
#[inline(always)]
fn are_blocks_ascii(bytes: &[u8]) -> bool
    requires room { BLOCK ≤ length bytes.now }
    requires reach { length bytes.now ≤ BLOCK + BLOCK }
    ensures { IsTrue result → IsAscii bytes.now }
{
    let first = stops_in_block(bytes, 0, &NOT_ASCII);
    let last = stops_in_block(bytes, bytes.len() - BLOCK, &NOT_ASCII);
    first + last == 0
}

/// Returns `true` if all bytes are ASCII. Unlike `[u8]::is_ascii`, this function tests up to 64 bytes, as most strings have, by blocks.
#[inline(always)]
fn is_ascii(bytes: &[u8]) -> bool
    ensures { IsTrue result → IsAscii bytes.now }
{
    let len = bytes.len();
    if len < BLOCK {
        return bytes.is_ascii();
    }
    if len <= 2 * BLOCK {
        return are_blocks_ascii(bytes);
    }
    if len > QUICK {
        return is_long_ascii(bytes);
    }
    // The first two blocks and the last two may overlap.
    if !are_blocks_ascii(&bytes[..2 * BLOCK]) {
        return false;
    }
    are_blocks_ascii(&bytes[len - 2 * BLOCK..])
}

/// Returns the length of the longest prefix that is valid UTF-8, in bytes. This function isn't inlined: most strings are ASCII.
#[cold]
#[inline(never)]
fn valid_up_to(bytes: &[u8]) -> usize
    ensures valid { result ≡ length bytes.now → IsUtf8 bytes.now }
    ensures invalid { result ≢ length bytes.now → ¬ (IsUtf8 bytes.now) × IsValidUpTo bytes.now result }
{
    match str::from_utf8(bytes) {
        Ok(text) => text.len(),
        Err(error) => error.valid_up_to(),
    }
}

/// Converts bytes to a string as `str::from_utf8` does, but faster for ASCII, which most texts are. An error is the length of the longest
/// prefix that is valid UTF-8, in bytes.
#[inline(always)]
pub fn text_of(bytes: &[u8]) -> Result<&str, usize>
    ensures cases { MatchResult result (λ text. (text.now ≡ bytes.now) × IsUtf8 bytes.now)
        (λ valid. ¬ (IsUtf8 bytes.now) × IsValidUpTo bytes.now valid) }
{
    if !is_ascii(bytes) {
        let valid = valid_up_to(bytes);
        if valid != bytes.len() {
            return Err(valid);
        }
    }
    // SAFETY: the bytes are valid UTF-8.
    Ok(unsafe { str::from_utf8_unchecked(bytes) })
}
