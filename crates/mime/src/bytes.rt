//! The classes of a media type's bytes (RFC 7231, 3.1.1.1; RFC 7230, 3.2.6).

ghost use Rattle.std.specs.Prelude.{◌≡◌};
ghost use Rattle.mime.specs.Inner.ByteClasses.{is_token_except_plus, token_bytes, is_ascii_not_token};
ghost use Rattle.mime.specs.Grammar.{is_space};
ghost use Rattle.mime.specs.Bytes.{is_token_byte, is_quoted_byte, is_quoted_text_byte};

/// A byte that no media type contains.
const N: u8 = 0;

/// A quote or a backslash, which may follow a backslash in a quoted string, but isn't quoted text.
const B: u8 = 1;

/// Any other ASCII byte that may occur in a quoted string, but not in a token.
const Q: u8 = 2;

/// A byte of a character that isn't ASCII. It may occur in a quoted string, but not in a token.
const U: u8 = 3;

/// The plus, which may occur in a token, and may precede a suffix.
const P: u8 = 4;

/// Any other byte that may occur in a token.
const T: u8 = 5;

/// The kind of each byte. Bytes of kind `B` or later may follow a backslash, bytes of kind `Q` or later may be quoted
/// text, and bytes of kind `P` or later may occur in a token.
static KINDS: [u8; 256] = [
    N, N, N, N, N, N, N, N, N, Q, N, N, N, N, N, N, N, N, N, N, N, N, N, N, N, N, N, N, N, N, N, N,
    Q, T, B, T, T, T, T, T, Q, Q, T, P, Q, T, T, Q, T, T, T, T, T, T, T, T, T, T, Q, Q, Q, Q, Q, Q,
    Q, T, T, T, T, T, T, T, T, T, T, T, T, T, T, T, T, T, T, T, T, T, T, T, T, T, T, Q, B, Q, T, T,
    T, T, T, T, T, T, T, T, T, T, T, T, T, T, T, T, T, T, T, T, T, T, T, T, T, T, T, Q, T, Q, T, N,
    U, U, U, U, U, U, U, U, U, U, U, U, U, U, U, U, U, U, U, U, U, U, U, U, U, U, U, U, U, U, U, U,
    U, U, U, U, U, U, U, U, U, U, U, U, U, U, U, U, U, U, U, U, U, U, U, U, U, U, U, U, U, U, U, U,
    U, U, U, U, U, U, U, U, U, U, U, U, U, U, U, U, U, U, U, U, U, U, U, U, U, U, U, U, U, U, U, U,
    U, U, U, U, U, U, U, U, U, U, U, U, U, U, U, U, U, U, U, U, U, U, U, U, U, U, U, U, U, U, U, U,
];

/// Returns `true` if a byte may occur in a token: a type, a subtype, a parameter's name or an unquoted value (tchar of
/// RFC 7230, 3.2.6). `is_token(b'+')` is true, and `is_token(b' ')` is false.
#[inline(always)]
pub fn is_token(b: u8) -> bool
    ensures { result ≡ is_token_byte b }
{
    KINDS[b as usize] >= P
}

/// Returns `true` if a byte may occur in a token and isn't a plus.
#[inline(always)]
pub(crate) fn is_token_except_plus(b: u8) -> bool
    ensures { result ≡ is_token_except_plus b }
{
    KINDS[b as usize] == T
}

/// Returns `true` if a byte may occur in a token. For a plus, returns `with_plus`.
#[inline(always)]
pub(crate) fn is_in_token(b: u8, with_plus: bool) -> bool
    ensures { result ≡ token_bytes with_plus b }
{
    if with_plus {
        is_token(b)
    } else {
        is_token_except_plus(b)
    }
}

/// Returns `true` if a byte is a space or a tab, which may precede a parameter and follow a quoted string.
#[inline(always)]
pub(crate) fn is_space(b: u8) -> bool
    ensures { result ≡ is_space b }
{
    b == b' ' || b == b'\t'
}

/// Returns `true` if a byte is an ASCII character that can't begin a media type, such as a comma or a space.
#[inline(always)]
pub(crate) fn is_separator(b: u8) -> bool
    ensures { result ≡ is_ascii_not_token b }
{
    KINDS[b as usize] < U
}

/// Returns `true` if a byte may follow a backslash in a quoted string (the second byte of a quoted-pair of RFC 7230,
/// 3.2.6): the tab, and any byte from 32 to 255 except 127. `is_quoted_byte(b'"')` is true.
#[inline(always)]
pub fn is_quoted_byte(b: u8) -> bool
    ensures { result ≡ is_quoted_byte b }
{
    KINDS[b as usize] >= B
}

/// Returns `true` if a byte may occur in a quoted string without a backslash before it (qdtext of RFC 7230, 3.2.6): any
/// byte that may follow a backslash, except the quote and the backslash. `is_quoted_text_byte(b';')` is true.
#[inline(always)]
pub fn is_quoted_text_byte(b: u8) -> bool
    ensures { result ≡ is_quoted_text_byte b }
{
    KINDS[b as usize] >= Q
}
