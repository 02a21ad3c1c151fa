//! The content of a quoted string: what it means, and how a value is written.

ghost use Rattle.std.specs.Prelude.{◌≡◌, ◌++◌, ◌≤◌, ◌+◌, ◌&&◌, OnOk, IsOk, is_ok, if◌then◌else◌, length, nat_lt, not, slice_index, drop};
ghost use Rattle.std.specs.Prelude.{string_bytes};
ghost use Rattle.std.specs.{List.prefix_len, Vec.vec_items, Vec.vec_len, Vec.vec_capacity};
ghost use Rattle.mime_http.specs.{Forms.is_plain, Unescaped.unescaped, Written.escaped};

use mime_search::{Class, copy_meant, first_stop};
use std::alloc::AllocError;

/// Appends to a buffer what a parameter's value means: a backslash and the byte after it mean that byte (RFC 9110, 5.6.4). The value `a\"b`
/// of `a/b; p="a\"b"` means `a"b`. A value without backslashes means itself. This allocates at most once, and doesn't allocate if the
/// buffer has capacity for `value.len()` more bytes.
///
/// # Errors
/// Returns `AllocError` if memory runs out, which never happens if the buffer has that capacity. After an error the buffer is unchanged.
pub fn unescape(value: &str, buffer: &mut Vec<u8>) -> Result<(), AllocError>
    ensures meant { vec_items buffer.new ≡ (if is_ok result then vec_items buffer.old ++ unescaped value.now else vec_items buffer.old) }
    ensures room { vec_len buffer.old + length value.now ≤ vec_capacity buffer.old → IsOk result }
{
    let start = buffer.len();
    buffer.extend_from_slice(value.as_bytes())?;
    let len = copy_meant(&mut buffer[start..], value.as_bytes());
    buffer.truncate(start + len);
    Ok(())
}

/// The form in which a value is written (RFC 9110, 5.6.4 and 5.6.6).
#[derive(Clone, Copy)]
pub(crate) enum Form {
    /// The value itself, which is a token.
    Token,
    /// The value in quotes.
    Quoted,
    /// The value in quotes, with a backslash before each quote and each backslash.
    Escaped,
}

/// Returns `true` if a quote or a backslash is at `pos`.
#[inline(always)]
fn is_special_at(value: &[u8], pos: usize) -> bool
    ensures { result ≡ (nat_lt pos (length value.now) && not (is_plain (slice_index value.now pos))) }
{
    pos < value.len() && (value[pos] == b'"' || value[pos] == b'\\')
}

/// Returns the position of the first quote or backslash at or after `from`, or the value's length if there is none.
#[inline(always)]
#[tactic(auto, using(crate::proofs::Contents::plain_found))]
pub(crate) fn special_from(value: &[u8], from: usize) -> usize
    requires { from ≤ length value.now }
    ensures special { result ≡ from + prefix_len is_plain (drop from value.now) }
    ensures within { result ≤ length value.now }
{
    // These tests are faster than the search if another quote or backslash follows soon.
    if is_special_at(value, from) {
        return from;
    }
    if from < value.len() && is_special_at(value, from + 1) {
        return from + 1;
    }
    first_stop(value, from, &Class::of(b'"', b'\\'))
}

/// Adds the content of a quoted string that means a value: `\"x` for `"x` (RFC 9110, 5.6.4).
pub(crate) fn push_escaped(text: &mut String, value: &str) -> Result<(), AllocError>
    ensures { OnOk result (string_bytes text.new ≡ string_bytes text.old ++ escaped value.now) }
{
    let bytes = value.as_bytes();
    let mut from = 0;
    let mut at = special_from(bytes, 0);
    while at < bytes.len() {
        if from < at {
            text.push_str(&value[from..at])?;
        }
        text.push_str(if bytes[at] == b'\\' { "\\\\" } else { "\\\"" })?;
        from = at + 1;
        at = special_from(bytes, from);
    }
    text.push_str(&value[from..])
}
