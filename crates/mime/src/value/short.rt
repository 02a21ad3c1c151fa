//! A short kept text, which is stored in the `Mime` itself, so neither making nor cloning it allocates.

ghost use Rattle.std.specs.Prelude.{◌≡◌, ◌<◌, ◌≤◌, ◌-◌, IfSome, None, Some, IsUtf8, length, take, drop, slice_get, replicate};
ghost use Rattle.mime_search.specs.Differences.{DifferAt};
ghost use Rattle.mime.specs.Bytes.{semicolon_byte};
ghost use Rattle.mime.specs.Values.{lowered};
ghost use Rattle.mime.specs.Inner.Scanning.{HasPositions};
ghost use Rattle.mime.specs.Inner.KeptText.{kept_text_of, with_pairs_lowered};

use crate::scan::Positions;
use crate::value::kept::{has_capital, lowercase_text};
use mime_search::{BLOCK, copy_text, difference_from};
use std::marker::Model;

/// The maximum length of a short text, in bytes.
pub(crate) const SHORT: usize = 40;

/// The size of the buffer in which a short text is lowercased: a multiple of 16, so that whole vectors are lowercased.
const PADDED: usize = 48;

/// A text of at most `SHORT` bytes: the first `len` of `bytes`. All other bytes are zeros.
#[derive(Drop)]
pub(crate) struct ShortText {
    len: u32,
    bytes: [u8; SHORT],
}

impl Model for ShortText {
    ghost use Rattle.std.specs.Prelude.{ℕ, ◌≡◌, ◌≤◌, ◌-◌, List, take, drop, replicate, IsUtf8};

    ghost Value = { List ℕ };

    ghost view = { λ short. take short.len short.bytes };

    ghost invariant = { λ it. (it.len ≤ 40) × IsUtf8 (take it.len it.bytes) × (drop it.len it.bytes ≡ replicate (40 - it.len) 0) };
}

/// Copies `text` to `out`, which must have the same length. If `by_length` is `true`, the code for each length is inlined.
#[inline(always)]
fn copy(out: &mut [u8], text: &str, by_length: bool)
    requires { length out.old ≡ length text.now }
    ensures { out.new ≡ text.now }
{
    if by_length {
        copy_text(out, text.as_bytes());
    } else {
        out.copy_from_slice(text.as_bytes());
    }
}

/// Returns the bytes of a text, followed by zeros.
#[inline(always)]
fn padded(text: &str, by_length: bool) -> [u8; PADDED]
    requires { length text.now ≤ SHORT }
    ensures text { take (length text.now) result ≡ text.now }
    ensures zeros { drop (length text.now) result ≡ replicate (48 - length text.now) 0 }
{
    let mut bytes = [0; PADDED];
    copy(&mut bytes[..text.len()], text, by_length);
    bytes
}

/// Lowercases a block of which the bytes from position `len` on are zeros. If `by_length` is `true`, at most 16 bytes are lowercased as one
/// block, not three.
#[inline(always)]
fn lowercase_block(block: &mut [u8; PADDED], len: usize, by_length: bool)
    requires { drop len block.old ≡ replicate (48 - len) 0 }
    ensures { block.new ≡ lowered block.old }
{
    if by_length && len <= BLOCK {
        block[..BLOCK].make_ascii_lowercase();
    } else {
        block.make_ascii_lowercase();
    }
}

/// Lowercases the text at the start of `block`, but only its parts that ignore case. `count` pairs follow position `semicolon`.
#[inline(always)]
fn lowercase_pairs(block: &mut [u8; PADDED], text: &str, semicolon: usize, count: usize)
    requires short { length text.now ≤ SHORT }
    requires same { take (length text.now) block.old ≡ text.now }
    requires parted { slice_get text.now semicolon ≡ Some semicolon_byte }
    requires some { 0 < count }
    ensures lowered { take (length text.now) block.new ≡ with_pairs_lowered count semicolon text.now }
    ensures rest { drop (length text.now) block.new ≡ drop (length text.now) block.old }
{
    if has_capital(block) {
        lowercase_text(&mut block[..text.len()], text, semicolon, count);
    }
}

impl ShortText {
    /// Returns the text.
    #[inline(always)]
    pub(crate) fn as_str(&self) -> &str
        ensures { result.now ≡ self.now }
    {
        // SAFETY: the invariant says that these bytes are valid UTF-8.
        unsafe { str::from_utf8_unchecked(&self.bytes[..self.len as usize]) }
    }

    /// Returns a copy of the text.
    #[inline(always)]
    pub(crate) fn copy(&self) -> ShortText
        ensures { result ≡ self.now }
    {
        ShortText {
            len: self.len,
            bytes: self.bytes,
        }
    }

    /// Returns the first position at which two texts differ, or `None` if they are the same. The zeros after the texts
    /// are compared, too. If only the lengths differ, returns `SHORT`.
    #[inline(always)]
    pub(crate) fn first_difference(&self, other: &ShortText) -> Option<usize>
        ensures same { result ≡ None → self.now ≡ other.now }
        ensures none { self.now ≡ other.now → result ≡ None }
        ensures differ { IfSome result (λ at. at < length self.now → at < length other.now → DifferAt self.now other.now 0 at) }
    {
        let (bytes, others) = (&self.bytes, &other.bytes);
        if let Some(at) = difference_from(bytes, others, 0) {
            return Some(at);
        }
        if let Some(at) = difference_from(bytes, others, 16) {
            return Some(at);
        }
        // The last block begins within the block before it.
        if let Some(at) = difference_from(bytes, others, SHORT - 16) {
            return Some(at);
        }
        if self.len == other.len {
            None
        } else {
            Some(SHORT)
        }
    }

    /// Returns the first `len` bytes of `block` as a short text.
    #[inline(always)]
    fn of(block: &[u8; PADDED], len: usize) -> ShortText
        requires short { len ≤ SHORT }
        requires utf8 { IsUtf8 (take len block.now) }
        requires zeros { drop len block.now ≡ replicate (48 - len) 0 }
        ensures { result ≡ take len block.now }
    {
        let mut bytes = [0; SHORT];
        bytes.copy_from_slice(&block[..SHORT]);
        ShortText {
            len: len as u32,
            bytes,
        }
    }

    /// Returns a string as a short text.
    #[inline(always)]
    pub(crate) fn copied(text: &str) -> ShortText
        requires { length text.now ≤ SHORT }
        ensures { result ≡ text.now }
    {
        let mut bytes = [0; SHORT];
        bytes[..text.len()].copy_from_slice(text.as_bytes());
        ShortText {
            len: text.len() as u32,
            bytes,
        }
    }

    /// Returns a string in lowercase as a short text.
    #[inline(always)]
    fn lowercased(text: &str, by_length: bool) -> ShortText
        requires { length text.now ≤ SHORT }
        ensures { result ≡ lowered text.now }
    {
        let mut bytes = padded(text, by_length);
        lowercase_block(&mut bytes, text.len(), by_length);
        ShortText::of(&bytes, text.len())
    }

    /// Returns the kept text, of at most `SHORT` bytes, of an accepted string without parameters. An empty parameter list is dropped. If
    /// `by_length` is `true`, the text is copied and lowercased by code for its length. This takes fewer instructions in `from_str`, but
    /// more in `MimeIter`.
    #[inline(always)]
    pub(crate) fn essence(text: &str, positions: Positions, by_length: bool) -> ShortText
        requires accepted { HasPositions text.now positions }
        requires short { length (kept_text_of positions.pair_count positions.semicolon text.now) ≤ SHORT }
        requires none { positions.pair_count ≡ 0 }
        ensures { result ≡ kept_text_of positions.pair_count positions.semicolon text.now }
    {
        let end = positions.semicolon.unwrap_or(text.len());
        ShortText::lowercased(&text[..end], by_length)
    }

    /// Returns the kept text of an accepted string that has at most `SHORT` bytes and a parameter. Only the parts that
    /// ignore case are lowercased.
    #[inline(always)]
    pub(crate) fn with_pairs(text: &str, positions: Positions) -> ShortText
        requires accepted { HasPositions text.now positions }
        requires short { length text.now ≤ SHORT }
        requires some { 0 < positions.pair_count }
        ensures { result ≡ kept_text_of positions.pair_count positions.semicolon text.now }
    {
        let Some(semicolon) = positions.semicolon else {
            unreachable!()
        };
        // The block is filled here, not by `padded`, so that it isn't moved before it is lowercased.
        let mut block = [0; PADDED];
        block[..text.len()].copy_from_slice(text.as_bytes());
        lowercase_pairs(&mut block, text, semicolon, positions.pair_count);
        ShortText::of(&block, text.len())
    }
}
