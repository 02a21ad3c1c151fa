//! The end of a quoted string's content, and what content means.

ghost use Rattle.std.specs.Prelude.{◌≡◌, ◌+◌, ◌<◌, ◌≤◌, ◌==◌, ◌||◌, ◌++◌, false, length, map, take, drop, slice_index};
ghost use Rattle.std.specs.Simd.Lanes.{mask_l};
ghost use Rattle.mime_search.specs.Quoted.{quote, backslash, len_from, meant_from};

use crate::class::{BLOCK, Class};
use crate::copy::copy_bytes;
use crate::search::{first_stop, stops_from};

/// Returns the position after the quoted pair (a backslash and a byte) that begins at `from`. A backslash that ends the
/// text counts as a quoted pair.
#[inline(always)]
fn after_quoted_pair(text: &[u8], from: usize) -> usize
    requires within { from < length text.now }
    requires first { slice_index text.now from ≡ backslash }
    ensures more { from < result }
    ensures within { result ≤ length text.now }
    ensures left { result + len_from false (drop result text.now) ≡ from + len_from false (drop from text.now) }
{
    if from + 1 == text.len() {
        return from + 1;
    }
    // The byte after the backslash doesn't end the content.
    from + 2
}

/// Skips one or more of the consecutive quoted pairs that begin at `from`: all of them, unless fewer than eight bytes
/// are left. Returns the position after the skipped pairs.
#[inline(always)]
fn after_quoted_pairs(text: &[u8], from: usize) -> usize
    requires within { from < length text.now }
    requires first { slice_index text.now from ≡ backslash }
    ensures more { from < result }
    ensures within { result ≤ length text.now }
    ensures left { result + len_from false (drop result text.now) ≡ from + len_from false (drop from text.now) }
{
    // From `end` on, fewer than eight bytes are left.
    let end = text.len().saturating_sub(7);
    let mut last = from;
    while last < end && text[last + 2] == b'\\' {
        // One more quoted pair follows, or three more.
        if text[last + 4] == b'\\' && text[last + 6] == b'\\' {
            last += 6;
        } else {
            last += 2;
        }
    }
    after_quoted_pair(text, last)
}

/// Returns the position of the first quote outside a quoted pair among the `size` bytes at `from`. If there is no such
/// quote, returns the end of these bytes, or of the quoted pair that extends beyond them. `stops` is the bit mask of
/// the quotes and backslashes among these bytes.
#[inline(always)]
fn after_quoted_pairs_among(text: &[u8], from: usize, size: usize, stops: u64) -> usize
    requires few { size ≤ BLOCK }
    requires within { from + size ≤ length text.now }
    requires stops { stops ≡ mask_l (map (λ b. b == quote || b == backslash) (take size (drop from text.now))) }
    ensures least { from ≤ result }
    ensures within { result ≤ length text.now }
    ensures left { result + len_from false (drop result text.now) ≡ from + len_from false (drop from text.now) }
{
    let end = from + size;
    let mut at = from;
    let mut left = stops;
    while left != 0 {
        let passed = left.trailing_zeros() as usize;
        let stop = at + passed;
        if text[stop] == b'"' {
            return stop;
        }
        if stop + 1 >= end {
            return after_quoted_pair(text, stop);
        }
        at = stop + 2;
        left >>= passed + 2;
    }
    end
}

/// Skips bytes up to the next quote or backslash. If the block at `from` has such a byte, skips this block with its
/// quoted pairs, but stops at a quote outside these pairs. Returns the position after the skipped bytes.
#[inline(always)]
fn after_plain(text: &[u8], from: usize) -> usize
    requires { from ≤ length text.now }
    ensures least { from ≤ result }
    ensures within { result ≤ length text.now }
    ensures left { result + len_from false (drop result text.now) ≡ from + len_from false (drop from text.now) }
{
    let class = Class::of(b'"', b'\\');
    let mut at = from;
    if text.len() >= BLOCK {
        let (size, stops) = stops_from(text, from, &class);
        if stops != 0 {
            return after_quoted_pairs_among(text, from, size, stops);
        }
        at += size;
    }
    first_stop(text, at, &class)
}

/// Returns the position of the first quote, at or after `from`, that isn't in a quoted pair, or the length if there is
/// none.
#[inline(always)]
pub fn content_end(text: &[u8], from: usize) -> usize
    requires { from ≤ length text.now }
    ensures end { result ≡ from + len_from false (drop from text.now) }
    ensures within { result ≤ length text.now }
{
    let mut at = from;
    while at < text.len() {
        if text[at] == b'"' {
            return at;
        }
        if text[at] == b'\\' {
            at = after_quoted_pairs(text, at);
        } else {
            at = after_plain(text, at + 1);
        }
    }
    at
}

/// Writes the bytes that content means to the start of `out`, and returns their number. A backslash and the byte after it
/// mean that byte. A backslash at the end means nothing.
#[inline(always)]
pub fn copy_meant(out: &mut [u8], content: &[u8]) -> usize
    requires { length content.now ≤ length out.old }
    ensures bytes { out.new ≡ meant_from false content.now ++ drop result out.old }
    ensures size { result ≡ length (meant_from false content.now) }
    ensures within { result ≤ length content.now }
{
    // The bytes before the first backslash mean themselves.
    let mut at = first_stop(content, 0, &Class::of(b'\\', b'\\'));
    copy_bytes(&mut out[..at], &content[..at]);
    let mut end = at;
    while at < content.len() {
        if content[at] == b'\\' {
            at += 1;
            if at == content.len() {
                return end;
            }
        }
        out[end] = content[at];
        end += 1;
        at += 1;
    }
    end
}
