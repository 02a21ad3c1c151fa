//! Copies short strings without a call.

ghost use Rattle.std.specs.Prelude.{◌≡◌, ◌+◌, ◌<◌, ◌≤◌, length};

use std::simd::Simd;

/// Copies `bytes` to `out`: the first `N` bytes and the last `N`, which may overlap.
#[inline(always)]
fn copy_ends<const N: usize>(out: &mut [u8], bytes: &[u8])
    requires same { length out.old ≡ length bytes.now }
    requires room { N ≤ length bytes.now }
    requires reach { length bytes.now ≤ N + N }
    ensures { out.new ≡ bytes.now }
{
    let last = bytes.len() - N;
    Simd::<u8, N>::from_slice(bytes).copy_to_slice(out);
    Simd::<u8, N>::from_slice(&bytes[last..]).copy_to_slice(&mut out[last..]);
}

/// Copies `bytes`, a long string, to `out`. This function isn't inlined: few strings are long.
#[inline(never)]
fn copy_long(out: &mut [u8], bytes: &[u8])
    requires { length out.old ≡ length bytes.now }
    ensures { out.new ≡ bytes.now }
{
    out.copy_from_slice(bytes);
}

/// Copies `bytes`, fewer than 8, to `out`.
#[inline(always)]
fn copy_few(out: &mut [u8], bytes: &[u8])
    requires same { length out.old ≡ length bytes.now }
    requires few { length bytes.now < 8 }
    ensures { out.new ≡ bytes.now }
{
    // Most names and values have at least 4 bytes.
    if bytes.len() >= 4 {
        copy_ends::<4>(out, bytes);
    } else if bytes.len() >= 2 {
        copy_ends::<2>(out, bytes);
    } else if bytes.len() == 1 {
        out[0] = bytes[0];
    }
}

/// Copies `bytes`, at least 16, to `out`.
#[inline(always)]
fn copy_blocks(out: &mut [u8], bytes: &[u8])
    requires same { length out.old ≡ length bytes.now }
    requires block { 16 ≤ length bytes.now }
    ensures { out.new ≡ bytes.now }
{
    if bytes.len() < 32 {
        copy_ends::<16>(out, bytes);
    } else if bytes.len() <= 64 {
        copy_ends::<32>(out, bytes);
    } else {
        copy_long(out, bytes);
    }
}

/// Copies `bytes` to `out`, which must have the same length. For short strings, this function needs fewer instructions
/// than `copy_from_slice`.
#[inline(always)]
pub fn copy_bytes(out: &mut [u8], bytes: &[u8])
    requires { length out.old ≡ length bytes.now }
    ensures { out.new ≡ bytes.now }
{
    if bytes.len() < 8 {
        copy_few(out, bytes);
    } else if bytes.len() < 16 {
        copy_ends::<8>(out, bytes);
    } else {
        copy_blocks(out, bytes);
    }
}

/// Copies `bytes` to `out`, which must have the same length. This function tests first for at least 16 bytes, which most media types have.
/// `copy_bytes` tests first for fewer than 8, which most names and values of parameters have.
#[inline(always)]
pub fn copy_text(out: &mut [u8], bytes: &[u8])
    requires { length out.old ≡ length bytes.now }
    ensures { out.new ≡ bytes.now }
{
    if bytes.len() < 16 {
        copy_bytes(out, bytes);
    } else {
        copy_blocks(out, bytes);
    }
}
