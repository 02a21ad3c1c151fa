//! The first difference between two strings.

ghost use Rattle.std.specs.Prelude.{◌≡◌, ◌+◌, ◌<◌, ◌≤◌, ℕ, IfSome, None, length, slice_index};
ghost use Rattle.mime_search.specs.Differences.{DifferAt};

use crate::class::BLOCK;
use std::simd::prelude::*;

/// Returns the position in two strings at which the blocks that begin at `at` first differ, or `None` if they are equal.
#[inline(always)]
pub fn difference_from(a: &[u8], b: &[u8], at: usize) -> Option<usize>
    requires room { at + BLOCK ≤ length a.now }
    requires other_room { at + BLOCK ≤ length b.now }
    ensures none { result ≡ None → (k : ℕ) → at ≤ k → k < at + BLOCK → slice_index a.now k ≡ slice_index b.now k }
    ensures some { IfSome result (DifferAt a.now b.now at) }
{
    let differ = u8x16::from_slice(&a[at..])
        .simd_ne(u8x16::from_slice(&b[at..]))
        .to_bitmask();
    if differ == 0 {
        None
    } else {
        Some(at + differ.trailing_zeros() as usize)
    }
}
