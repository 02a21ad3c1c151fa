//! The search for a byte in the rest of a string, a block of bytes at a time.

ghost use Rattle.std.specs.Prelude.{◌≡◌, ◌+◌, ◌<◌, ◌≤◌, ◌↔◌, IsTrue, Some, length, take, drop, slice_index, slice_get};
ghost use Rattle.std.specs.Str.{IsCharBoundary};
ghost use Rattle.mime_search.specs.Rests.{first_position, before_byte, after_byte};

use crate::class::{BLOCK, Class};
use crate::search::{first_stop, first_stop_at_end, stops_in_block};
use std::marker::Model;

/// Returns the position of the first `byte` at or after `from`, or the length if there is none. This function isn't
/// inlined: most searches end in their first or last block.
#[cold]
#[inline(never)]
fn position_far(text: &[u8], from: usize, byte: u8) -> usize
    requires { from ≤ length text.now }
    ensures { result ≡ from + first_position byte (drop from text.now) }
{
    first_stop(text, from, &Class::of(byte, byte))
}

/// Returns the position of the first `byte`, or the length if there is none. This function searches byte by byte. It
/// isn't inlined: few strings with parameters are shorter than a block.
#[inline(never)]
fn position_by_one(text: &[u8], byte: u8) -> usize
    ensures { result ≡ first_position byte text.now }
{
    let mut position = 0;
    while position < text.len() {
        if text[position] == byte {
            return position;
        }
        position += 1;
    }
    position
}

/// The rest of a string, together with the whole string. If the rest is shorter than a block, but the string isn't, the
/// string's last block is searched, without a loop.
#[derive(Drop)]
pub struct Rest<'a> {
    whole: &'a str,
    text: &'a str,
}

impl<'a> Model for Rest<'a> {
    ghost use Rattle.std.specs.Prelude.{List, ℕ};
    ghost use Rattle.mime_search.specs.Rests.{IsRestOf};

    ghost Value = { List ℕ };

    ghost view = { λ end. end.text.now };

    ghost invariant = { λ end. IsRestOf end.text.now end.whole.now };
}

impl<'a> Rest<'a> {
    /// Returns the rest of a string from position `from` on.
    #[inline(always)]
    pub fn of(whole: &'a str, from: usize) -> Rest<'a>
        requires { IsCharBoundary whole.now from }
        ensures { result ≡ drop from whole.entry.now }
    {
        Rest {
            whole,
            text: &whole[from..],
        }
    }

    /// Returns the rest as a string.
    #[inline(always)]
    pub fn text(&self) -> &'a str
        ensures { result.now ≡ self.now }
    {
        self.text
    }

    /// Returns the length of the rest, in bytes.
    #[inline(always)]
    pub fn len(&self) -> usize
        ensures { result ≡ length self.now }
    {
        self.text.len()
    }

    /// Returns `true` if the rest begins with `byte`.
    #[inline(always)]
    pub fn begins_with(&self, byte: u8) -> bool
        ensures begins { IsTrue result ↔ (slice_get self.now 0 ≡ Some byte) }
        ensures boundary { IsTrue result → byte < 128 → IsCharBoundary self.now 1 }
    {
        !self.text.is_empty() && self.text.as_bytes()[0] == byte
    }

    /// Returns the part of the rest from position `from` on.
    #[inline(always)]
    pub fn after(&self, from: usize) -> Rest<'a>
        requires { IsCharBoundary self.now from }
        ensures { result ≡ drop from self.now }
    {
        Rest {
            whole: self.whole,
            text: &self.text[from..],
        }
    }

    /// Returns the position of the first `byte`, counted from 0 in the rest, or the rest's length if there is none.
    #[inline(always)]
    pub fn position_of(&self, byte: u8) -> usize
        ensures { result ≡ first_position byte self.now }
    {
        let text = self.text.as_bytes();
        let class = Class::of(byte, byte);
        if text.len() >= BLOCK {
            let stops = stops_in_block(text, 0, &class);
            if stops == 0 {
                return position_far(text, BLOCK, byte);
            }
            return stops.trailing_zeros() as usize;
        }
        let whole = self.whole.as_bytes();
        if whole.len() < BLOCK {
            return position_by_one(text, byte);
        }
        let from = whole.len() - text.len();
        first_stop_at_end(whole, from, &class) - from
    }

    /// Returns the text before the ASCII byte at `position`, and the rest after this byte. If `position` is the rest's
    /// end, returns the whole rest and an empty rest.
    #[inline(always)]
    pub fn split_around(&self, position: usize) -> (&'a str, Rest<'a>)
        requires within { position ≤ length self.now }
        requires ascii { position < length self.now → slice_index self.now position < 128 }
        ensures before { result.0.now ≡ take position self.now }
        ensures after { result.1 ≡ drop (position + 1) self.now }
    {
        let text = self.text();
        let dropped = (position < text.len()) as usize;
        (&text[..position], self.after(position + dropped))
    }

    /// Returns the text before the first `byte`, which must be ASCII, and the rest after this byte. If the rest has no
    /// such byte, returns the whole rest and an empty rest.
    #[inline(always)]
    pub fn split_at_first(&self, byte: u8) -> (&'a str, Rest<'a>)
        requires ascii { byte < 128 }
        ensures before { result.0.now ≡ before_byte byte self.now }
        ensures after { result.1 ≡ after_byte byte self.now }
    {
        self.split_around(self.position_of(byte))
    }
}
