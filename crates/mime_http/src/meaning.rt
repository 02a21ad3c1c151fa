//! Compares what two values mean.

ghost use Rattle.std.specs.Prelude.{◌≡◌, ◌≢◌, ◌<◌, [], ◌∷◌, IfSome, MatchOption, bytes_eq, length};
ghost use Rattle.mime_http.specs.Unescaped.{unescaped};

use mime_search::{BLOCK, Class, first_stop};

/// Returns the first byte that a value means and the rest of the value, or `None` if the value means no byte.
#[inline(always)]
fn split_first(value: &[u8]) -> Option<(u8, &[u8])>
    ensures meant { MatchOption result (unescaped value.now ≡ []) (λ first. unescaped value.now ≡ first.0 ∷ unescaped first.1.now) }
    ensures shorter { IfSome result (λ first. length first.1.now < length value.now) }
{
    match value {
        [b'\\', paired @ ..] => match paired {
            [byte, rest @ ..] => Some((*byte, rest)),
            [] => None,
        },
        [byte, rest @ ..] => Some((*byte, rest)),
        [] => None,
    }
}

/// Returns `true` if two different values mean the same. This function isn't inlined, since few ranges need it.
#[inline(never)]
fn differ_but_mean_the_same(value: &[u8], other: &[u8]) -> bool
    requires { value.now ≢ other.now }
    ensures { result ≡ bytes_eq (unescaped value.now) (unescaped other.now) }
{
    // Long values may begin alike. A search for a backslash is then faster than the loop. If the longer value has none, the other value
    // means as many bytes only if it has none either.
    let longer = if value.len() < other.len() {
        other
    } else {
        value
    };
    if longer.len() >= BLOCK && first_stop(longer, 0, &Class::of(b'\\', b'\\')) == longer.len() {
        return false;
    }
    let mut left = value;
    let mut other_left = other;
    while let Some((byte, rest)) = split_first(left) {
        match split_first(other_left) {
            Some((other_byte, other_rest)) if byte == other_byte => {
                left = rest;
                other_left = other_rest;
            }
            _ => return false,
        }
    }
    split_first(other_left).is_none()
}

/// Returns `true` if two values of parameters mean the same, as `\x` and `x` do: a backslash and the byte after it mean that byte (RFC
/// 9110, 5.6.4). This doesn't allocate. This function isn't inlined, so that a value whose name differs isn't read.
#[inline(never)]
pub(crate) fn mean_the_same(value: &str, other: &str) -> bool
    ensures { result ≡ bytes_eq (unescaped value.now) (unescaped other.now) }
{
    // Most values are equal, or differ in one of the first bytes.
    value == other || differ_but_mean_the_same(value.as_bytes(), other.as_bytes())
}
