//! A reader that counts the bytes that it has returned or skipped.

ghost use Rattle.std.specs.Prelude.{ℕ, ◌≡◌, ◌≢◌, ◌+◌, ◌-◌, ◌<◌, ◌≤◌, ◌^◌, [], true, false, length, drop, not, IsTrue, None, Some};
ghost use Rattle.std.specs.List.{prefix_len};
ghost use Rattle.mime.specs.Bytes.{is_quoted_text_byte};
ghost use Rattle.mime.specs.Inner.ByteClasses.{is_token_except_plus, token_bytes};
ghost use Rattle.mime.specs.Inner.Remaining.{reader_at};
ghost use Rattle.mime.specs.Inner.Scanning.{GivesFirst, Passing, PassesPluses, Reaches};
ghost use Rattle.mime_search.specs.Classes.{is_stop};

use crate::bytes::{is_in_token, is_token};
use mime_search::{
    BLOCK, Class, TEXT_STOPS, TOKEN_STOPS, WINDOW, first_stop_far, stops_at_start, stops_in_window,
};
use std::marker::Model;

/// A reader of a string's bytes, which counts the bytes that it has returned or skipped.
#[derive(Drop)]
pub(crate) struct ByteReader<'a> {
    text: &'a [u8],
    /// The position of the next byte.
    at: usize,
    /// The count at which this reader begins.
    before: u128,
    /// The number of known bytes: `stops` describes this many bytes at the start of the string.
    known: usize,
    /// Which of the known bytes aren't common token bytes, as a bit mask.
    stops: u64,
    /// The maximum number of a token's bytes that the first loop of `token` reads. `next_far` reads the others with a
    /// call, which is slower for a short token.
    near: usize,
}

/// The value of `near` in the reader of a `MimeIter`. Most tokens are shorter.
pub(crate) const NEAR: usize = 24;

/// Returns the position of the first byte, at or after `from`, that ends a token, or the length if there is no such
/// byte. A plus ends the token, too, unless `with_plus` is true.
#[inline(always)]
fn end_of_token(text: &[u8], from: usize, with_plus: bool) -> usize
    requires { from ≤ length text.now }
    ensures end { result ≡ from + prefix_len (token_bytes with_plus) (drop from text.now) }
    ensures within { result ≤ length text.now }
{
    let mut at = from;
    while at < text.len() {
        if !is_in_token(text[at], with_plus) {
            return at;
        }
        at += 1;
    }
    at
}

/// Returns `end_of_token(text, from, false)`. This function isn't inlined: beside other loops, its loop would have
/// twice as many instructions.
#[inline(never)]
fn end_at_plus(text: &[u8], from: usize) -> usize
    requires { from ≤ length text.now }
    ensures end { result ≡ from + prefix_len (token_bytes false) (drop from text.now) }
    ensures within { result ≤ length text.now }
{
    end_of_token(text, from, false)
}

/// Returns `end_of_token(text, from, true)`. Like `end_at_plus`, this function isn't inlined.
#[inline(never)]
fn end_past_pluses(text: &[u8], from: usize) -> usize
    requires { from ≤ length text.now }
    ensures end { result ≡ from + prefix_len (token_bytes true) (drop from text.now) }
    ensures within { result ≤ length text.now }
{
    end_of_token(text, from, true)
}

/// Returns the same as `end_of_token`, but calls a function that isn't inlined.
#[inline(always)]
fn end_far(text: &[u8], from: usize, with_plus: bool) -> usize
    requires { from ≤ length text.now }
    ensures end { result ≡ from + prefix_len (token_bytes with_plus) (drop from text.now) }
    ensures within { result ≤ length text.now }
{
    if with_plus {
        return end_past_pluses(text, from);
    }
    end_at_plus(text, from)
}

/// Skips the token bytes from `from` on, which follow a plus. Returns the position after them, and the position after
/// their last plus, or `from` if they have none. This function isn't inlined: few subtypes have more than one plus.
#[inline(never)]
fn end_and_last_plus(text: &[u8], from: usize) -> (usize, usize)
    requires { from ≤ length text.now }
    ensures within { result.0 ≤ length text.now }
    ensures order { from ≤ result.1 }
    ensures passes { (before : ℕ) → PassesPluses (reader_at text.now from before) (reader_at text.now result.0 before) (result.1 - from) }
{
    let mut at = from;
    let mut after_plus = from;
    while at < text.len() {
        let byte = text[at];
        if byte == b'+' {
            after_plus = at + 1;
        } else if !is_token(byte) {
            return (at, after_plus);
        }
        at += 1;
    }
    (at, after_plus)
}

impl<'a> Model for ByteReader<'a> {
    ghost use Rattle.std.specs.Prelude.{◌+◌, drop};
    ghost use Rattle.mime.specs.Inner.Remaining.{Remaining};
    ghost use Rattle.mime.specs.Inner.KnownStops.{IsReader};

    ghost Value = { Remaining };

    ghost view = { λ r. record { left = drop r.at r.text.now; count = r.before + r.at } };

    ghost invariant = { λ r. IsReader r.text.now r.at r.before r.known r.stops };
}

impl<'a> ByteReader<'a> {
    /// Creates a reader of all bytes of `text` that counts from `count`. The reader looks only at bytes that it has
    /// counted, and at the next one, so that its count is the number of steps of a `MimeIter`. The first loop of `token`
    /// reads at most `near` bytes.
    #[inline(always)]
    pub(crate) fn new(text: &'a str, count: u128, near: usize) -> ByteReader<'a>
        requires { count + length text.now < 2 ^ 128 }
        ensures left { result.left ≡ text.now }
        ensures count { result.count ≡ count }
    {
        ByteReader {
            text: text.as_bytes(),
            at: 0,
            before: count,
            known: 0,
            stops: 0,
            near,
        }
    }

    /// Creates a reader of all bytes of `text` that counts from 0. The reader looks at blocks of bytes, which may go
    /// beyond the next byte. It is for callers that don't count steps.
    #[inline(always)]
    pub(crate) fn by_blocks(text: &'a str) -> ByteReader<'a>
        ensures left { result.left ≡ text.now }
        ensures count { result.count ≡ 0 }
    {
        let text = text.as_bytes();
        let (known, stops) = stops_at_start(text, &TOKEN_STOPS);
        ByteReader {
            text,
            at: 0,
            before: 0,
            known,
            stops,
            near: usize::MAX,
        }
    }

    /// Returns the next byte, or `None` at the end.
    #[inline(always)]
    pub(crate) fn next(&mut self) -> Option<u8>
        ensures { GivesFirst self.old self.new result }
    {
        if self.at == self.text.len() {
            return None;
        }
        let byte = self.text[self.at];
        self.at += 1;
        Some(byte)
    }

    /// Returns the position up to which the first loop of `token` reads, if it begins at the next byte.
    #[inline(always)]
    pub(crate) fn near_end(&self) -> usize {
        // The sum wraps only if `near` is `usize::MAX`. Then `is_before` ignores the position.
        self.at.wrapping_add(self.near).min(self.text.len())
    }

    /// Returns `true` if the first loop of `token` reads the next byte: if a byte is left, and either its position is
    /// before `end`, or `near` is `usize::MAX`.
    #[inline(always)]
    pub(crate) fn is_before(&self, end: usize) -> bool
        ensures { IsTrue result → 0 < length self.now.left }
    {
        if self.near == usize::MAX {
            return self.at != self.text.len();
        }
        self.at < end && self.at < self.text.len()
    }

    /// Returns the next byte. The string must not have ended.
    #[inline(always)]
    pub(crate) fn next_byte(&mut self) -> u8
        requires { self.old.left ≢ [] }
        ensures { GivesFirst self.old self.new (Some result) }
    {
        let byte = self.text[self.at];
        self.at += 1;
        byte
    }

    /// Skips the bytes up to the position that `end_far` returns, unless the string has ended.
    #[inline(always)]
    fn skip_far(&mut self, with_plus: bool)
        ensures { Passing (token_bytes with_plus) self.old self.new }
    {
        if self.at < self.text.len() {
            self.at = end_far(self.text, self.at, with_plus);
        }
    }

    /// Skips the same bytes as `skip_far`, and returns the byte after them, or `None` at the end.
    #[inline(always)]
    pub(crate) fn next_far(&mut self, with_plus: bool) -> Option<u8>
        ensures reaches { Reaches (token_bytes with_plus) self.old self.new result }
        ensures end { result ≡ None → self.new.left ≡ [] }
    {
        self.skip_far(with_plus);
        self.next()
    }

    /// Skips the rest of a token after a plus, in the reader of a `MimeIter`, if the token may have many pluses
    /// (`may_be_many`). Otherwise skips nothing. Returns the number of bytes up to and including the last plus that was
    /// skipped, or 0.
    #[inline(always)]
    pub(crate) fn skip_pluses(&mut self, may_be_many: bool) -> usize
        ensures { PassesPluses self.old self.new result }
    {
        if self.near == usize::MAX {
            return 0;
        }
        if !may_be_many {
            return 0;
        }
        let from = self.at;
        let (end, after_plus) = end_and_last_plus(self.text, from);
        self.at = end;
        after_plus - from
    }

    /// Skips bytes, block by block, up to the first byte of `class`. If less than a block is left, skips nothing.
    #[inline(always)]
    fn skip_blocks(&mut self, class: &Class)
        ensures { Passing (λ b. not (is_stop class.now b)) self.old self.new }
    {
        if self.text.len() - self.at >= BLOCK {
            self.at = first_stop_far(self.text, self.at, class);
        }
    }

    /// Skips common token bytes, and returns the known byte after them, or `None` if no known byte ends them. Tokens
    /// that begin after the known bytes are read byte by byte, since many short tokens may follow.
    #[inline(always)]
    pub(crate) fn known_stop(&mut self) -> Option<u8>
        ensures { Reaches is_token_except_plus self.old self.new result }
    {
        if self.at >= self.known {
            return None;
        }
        let stops = self.stops >> self.at;
        if stops == 0 {
            self.at = self.known;
            self.skip_blocks(&TOKEN_STOPS);
            return None;
        }
        let stop = self.at + stops.trailing_zeros() as usize;
        self.at = stop + 1;
        Some(self.text[stop])
    }

    /// Makes up to `WINDOW` bytes known, if only a block is known.
    #[inline(always)]
    pub(crate) fn look_further(&mut self)
        ensures { self.new ≡ self.old }
    {
        if self.known == BLOCK && self.known < self.text.len() {
            let window = &self.text[..self.text.len().min(WINDOW)];
            self.stops = stops_in_window(window, self.stops, &TOKEN_STOPS);
            self.known = window.len();
        }
    }

    /// May skip quoted text, and nothing else.
    #[inline(always)]
    pub(crate) fn skip_quoted_text(&mut self)
        ensures { Passing is_quoted_text_byte self.old self.new }
    {
        if self.at < self.known && self.text[self.at] != b'"' {
            self.skip_blocks(&TEXT_STOPS);
        }
    }

    /// Returns the number of bytes returned or skipped so far, including those counted before this reader.
    #[inline(always)]
    pub(crate) fn count(&self) -> u128
        ensures count { result ≡ self.now.count }
        ensures fits { length self.now.left < 2 ^ 64 }
    {
        self.before + self.at as u128
    }

    /// Returns the position, in bytes from 0, of the byte that was read last. `from` is what `count` returned at the
    /// start of the string.
    #[inline(always)]
    pub(crate) fn position(&self, from: u128) -> usize
        requires given { from < self.now.count }
        requires fits { self.now.count ≤ from + 2 ^ 64 }
        ensures { result ≡ self.now.count - from - 1 }
    {
        (self.count() - from - 1) as usize
    }
}
