//! The lines of an input, and their marks.

ghost use Rattle.std.specs.Prelude.{◌≡◌, ◌≤◌, ◌==◌, ◌||◌, false, length, option_map, IfOk};
ghost use Rattle.std.specs.{Char.is_ascii_digit, List.prefix_len, Vec.vec_items};
ghost use Rattle.mime_http.specs.{HttpList.trim_start, Lacks.begins};
ghost use Rattle.mime_headers.specs.Line.{begins_sign, escape_len, is_folded, is_sign, plain_lines, signed, text_with};
ghost use Rattle.mime_headers.specs.Line.{without_escapes, without_returns};
ghost use Rattle.mime_headers.specs.Inner.{lines_now};

use mime_io::first_line;
use std::alloc::{AllocError, Global};

/// What is made, unless memory runs out.
pub(crate) type Made<T> = Result<T, AllocError>;

/// Returns `true` if bytes begin with a label, ignoring ASCII case.
pub(crate) fn begins(label: &[u8], bytes: &[u8]) -> bool
    ensures { result ≡ begins label.now bytes.now }
{
    bytes.len() >= label.len() && bytes[..label.len()].eq_ignore_ascii_case(label)
}

/// Returns `true` if a line begins with white space, and so continues a field.
pub(crate) fn is_folded(line: &[u8]) -> bool
    ensures { result ≡ is_folded line.now }
{
    matches!(line, [b' ' | b'\t', ..])
}

/// Returns a line without the white space at its start.
pub(crate) fn trim_start(line: &[u8]) -> &[u8]
    ensures text { result.now ≡ trim_start line.now }
    ensures within { length result.now ≤ length line.now }
{
    let mut rest = line;
    while is_folded(rest) {
        rest = &rest[1..];
    }
    rest
}

/// Returns the number of digits and semicolons at the start of bytes.
fn codes_len(bytes: &[u8]) -> usize
    ensures len { result ≡ prefix_len (λ b. is_ascii_digit b || b == 59) bytes.now }
    ensures within { result ≤ length bytes.now }
{
    for (at, byte) in bytes.iter().enumerate() {
        if !byte.is_ascii_digit() && *byte != b';' {
            return at;
        }
    }
    bytes.len()
}

/// Returns the number of bytes of the escape at the start of these bytes, or 0 if there is none.
fn escape_len(bytes: &[u8]) -> usize
    ensures { result ≡ escape_len bytes.now }
{
    let Some(rest) = bytes.strip_prefix(b"\x1B[") else {
        return 0;
    };
    let len = codes_len(rest);
    if matches!(&rest[len..], [b'm' | b'K', ..]) {
        return len + 3;
    }
    0
}

/// Returns `true` if one of the bytes is ESC, with which an escape begins. The loop has no early exit, so that several bytes are tested at
/// a time.
fn has_escape(bytes: &[u8]) -> bool
    ensures { result ≡ false → without_escapes bytes.now ≡ bytes.now }
{
    let mut found = false;
    for byte in bytes {
        found |= *byte == b'\x1B';
    }
    found
}

/// Returns bytes without the escapes with which terminals print colours, such as `ESC [1;31m`.
pub(crate) fn without_escapes(alloc: Global, bytes: Vec<u8>) -> Made<Vec<u8>>
    ensures { IfOk result (λ plain. vec_items plain ≡ without_escapes (vec_items bytes)) }
{
    if !has_escape(&bytes) {
        return Ok(bytes);
    }
    let mut plain = Vec::new(alloc);
    let mut passed = 0;
    for (at, &byte) in bytes.iter().enumerate() {
        if passed > 0 {
            passed -= 1;
            continue;
        }
        let len = escape_len(&bytes[at..]);
        if len == 0 {
            plain.push(byte)?;
        }
        passed = len.saturating_sub(1);
    }
    Ok(plain)
}

/// Returns a line without the carriage returns at its end.
fn without_returns(line: &[u8]) -> &[u8]
    ensures { result.now ≡ without_returns line.now }
{
    let mut end = line.len();
    while end > 0 {
        if line[end - 1] != b'\r' {
            break;
        }
        end -= 1;
    }
    &line[..end]
}

/// Returns the lines of an input without line endings and a byte order mark, and without the last line if the input is cut off.
pub(crate) fn plain_lines(alloc: Global, input: &[u8], is_cut: bool) -> Made<Vec<&[u8]>>
    ensures { IfOk result (λ lines. lines_now lines ≡ plain_lines is_cut input.now) }
{
    let mut rest = input.strip_prefix(b"\xEF\xBB\xBF").unwrap_or(input);
    let mut lines = Vec::new(alloc);
    while let Some((line, more)) = first_line(rest) {
        lines.push(without_returns(line))?;
        rest = more;
    }
    if is_cut {
        let _last = lines.pop();
    }
    Ok(lines)
}

/// Returns `true` if a mark is a sign, and not an indentation.
pub(crate) fn is_sign(mark: &[u8]) -> bool
    ensures { result ≡ is_sign mark.now }
{
    matches!(mark, [b'<' | b'>', ..])
}

/// Returns `true` if bytes begin with a sign: `<` or `>`, before a space or at the end.
#[tactic(auto, unfolding(crate::specs::Line::begins_sign))]
fn begins_sign(bytes: &[u8]) -> bool
    ensures { result ≡ begins_sign bytes.now }
{
    matches!(bytes, [b'<' | b'>'] | [b'<' | b'>', b' ', ..])
}

/// Returns a line's first sign, and what follows the sign and the space after it.
pub(crate) fn signed(line: &[u8]) -> Option<(&[u8], &[u8])>
    ensures { option_map (λ it. (it.0.now, it.1.now)) result ≡ signed line.now }
{
    let mut rest = line;
    while let Some((_, more)) = rest.split_first() {
        if begins_sign(rest) {
            return Some((&rest[..1], &more[more.len().min(1)..]));
        }
        rest = more;
    }
    None
}

/// Returns what follows a mark in a line, or `None` if the line doesn't have this mark.
pub(crate) fn text_with<'a>(mark: &[u8], line: &'a [u8]) -> Option<&'a [u8]>
    ensures { option_map (λ text. text.now) result ≡ text_with mark.now line.now }
{
    if is_sign(mark) {
        let (sign, text) = signed(line)?;
        return (sign == mark).then_some(text);
    }
    if begins(mark, line) {
        Some(&line[mark.len()..])
    } else {
        None
    }
}
