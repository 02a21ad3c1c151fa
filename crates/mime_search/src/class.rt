//! Classes of bytes, at which searches stop.

ghost use Rattle.std.specs.Prelude.{◌≡◌, ◌<◌, ◌^◌, ◌==◌, ◌||◌, not, ℕ};
ghost use Rattle.mime_search.specs.Classes.{is_stop, outside, stops};

use std::simd::prelude::*;

/// The number of bytes of a block, which are compared at once.
pub const BLOCK: usize = 16;

/// An inclusive range of bytes: its first byte, and its last.
#[derive(Clone, Copy)]
pub struct Range(pub u8, pub u8);

/// A search stops at the bytes in three ranges or, unless `inside`, at all others. Before a byte is compared with `folded`, the bits of
/// `fold` are set in the byte. If `fold` is 32, a `folded` of `a` to `z` includes the capitals.
#[derive(Clone, Copy)]
pub struct Class {
    pub fold: u8,
    pub folded: Range,
    pub second: Range,
    pub third: Range,
    /// Whether a search stops at the bytes in the ranges.
    pub inside: bool,
}

/// All bytes except those that most tokens consist of: letters, digits, hyphens and dots.
pub static TOKEN_STOPS: Class = Class {
    fold: 0x20,
    folded: Range(b'a', b'z'),
    second: Range(b'0', b'9'),
    third: Range(b'-', b'.'),
    inside: false,
};

/// All bytes except the printable ASCII bytes of quoted text. So the tab is in the class, though quoted text may have it.
pub static TEXT_STOPS: Class = Class {
    fold: 0,
    folded: Range(b'#', b'['),
    second: Range(b']', b'~'),
    third: Range(b' ', b'!'),
    inside: false,
};

impl Class {
    /// Returns the class of two bytes.
    #[inline(always)]
    pub fn of(one: u8, other: u8) -> Class
        ensures { (b : ℕ) → is_stop result b ≡ (b == one || b == other) }
    {
        Class {
            fold: 0,
            folded: Range(one, one),
            second: Range(other, other),
            third: Range(other, other),
            inside: true,
        }
    }

    /// Returns the class of all other bytes.
    #[inline(always)]
    pub fn others(&self) -> Class
        ensures { (b : ℕ) → is_stop result b ≡ not (is_stop self.now b) }
    {
        let inside = !self.inside;
        Class { inside, ..*self }
    }

    /// Returns `true` if a search stops at a byte.
    #[inline(always)]
    pub(crate) fn has(&self, byte: u8) -> bool
        ensures { result ≡ is_stop self.now byte }
    {
        let Class {
            fold,
            folded,
            second,
            third,
            inside,
        } = *self;
        let low = byte | fold;
        let outside = (low < folded.0 || low > folded.1)
            && (byte < second.0 || byte > second.1)
            && (byte < third.0 || byte > third.1);
        outside != inside
    }
}

/// Returns which of 16 bytes are outside the ranges of a class, as a bit mask. The lowest bit is for the first byte.
/// The comparisons are compiled to a few instructions for every processor. A table look-up with a shuffle needs fewer,
/// but is compiled to a loop for the oldest x86-64 processors, for which the library for C is built.
#[inline(always)]
fn outside_in_lanes(bytes: u8x16, class: &Class) -> u64
    ensures mask { result ≡ outside class.now bytes }
    ensures few { result < 2 ^ 16 }
{
    let Class {
        fold,
        folded,
        second,
        third,
        ..
    } = *class;
    let low = bytes | u8x16::splat(fold);
    let no_folded = low.simd_lt(u8x16::splat(folded.0)) | low.simd_gt(u8x16::splat(folded.1));
    let no_second = bytes.simd_lt(u8x16::splat(second.0)) | bytes.simd_gt(u8x16::splat(second.1));
    let no_third = bytes.simd_lt(u8x16::splat(third.0)) | bytes.simd_gt(u8x16::splat(third.1));
    (no_folded & no_second & no_third).to_bitmask()
}

/// Returns which of 16 bytes stop a search, as a bit mask.
#[inline(always)]
pub(crate) fn stops_in_lanes(bytes: u8x16, class: &Class) -> u64
    ensures mask { result ≡ stops class.now bytes }
    ensures few { result < 2 ^ 16 }
{
    let outside = outside_in_lanes(bytes, class);
    if class.inside {
        0xFFFF - outside
    } else {
        outside
    }
}
