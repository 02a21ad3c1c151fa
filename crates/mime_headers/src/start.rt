//! Start lines: request lines and status lines.

ghost use Rattle.std.specs.Prelude.{◌≡◌, ◌==◌, ◌&&◌, not, length, map, option_map};
ghost use Rattle.std.specs.{Char.is_ascii_digit, List.before_first, List.after_first, List.list_all};
ghost use Rattle.mime.specs.{Bytes.is_token_byte, Grammar.is_token};
ghost use Rattle.mime_headers.specs.Line.{mark_before};
ghost use Rattle.mime_headers.specs.Start.{from_version, has_authority, is_request_line, is_start, is_target, is_version};
ghost use Rattle.mime_headers.specs.Start.{kind_after, kind_in, kind_of, kind_of_field, kind_of_status, kind_within};

use crate::line::{begins, signed, trim_start};
use mime_search::{Class, first_stop};

/// The kind of a head.
#[derive(Clone, Copy, PartialEq, Eq, Debug)]
pub(crate) enum Kind {
    /// Fields without a start line, such as those of a mail.
    Fields,
    Request,
    /// A response with a code from 100 to 199, after which another response follows (RFC 9110, 15.2).
    Interim,
    /// Any other response.
    Final,
}

/// Returns what is before the first space, and what follows it. Without a space, returns all bytes and an empty slice.
pub(crate) fn split_word(bytes: &[u8]) -> (&[u8], &[u8])
    ensures before { result.0.now ≡ before_first (λ b. b == 32) bytes.now }
    ensures after { result.1.now ≡ after_first (λ b. b == 32) bytes.now }
{
    let at = first_stop(bytes, 0, &Class::of(b' ', b' '));
    (&bytes[..at], &bytes[(at + 1).min(bytes.len())..])
}

/// Returns `true` if all bytes may be in a token (RFC 9110, 5.6.2).
pub(crate) fn are_token_bytes(bytes: &[u8]) -> bool
    ensures { result ≡ list_all is_token_byte bytes.now }
{
    bytes.iter().all(|byte| mime::is_token(*byte))
}

/// Returns `true` if bytes are an HTTP version, such as `HTTP/1.1` or `HTTP/2`.
#[tactic(auto, unfolding(crate::specs::Start::is_version))]
fn is_version(bytes: &[u8]) -> bool
    ensures { result ≡ is_version bytes.now }
{
    let end = bytes.strip_prefix(b"HTTP/");
    matches!(end, Some([b'0'..=b'9'] | [b'0'..=b'9', b'.', b'0'..=b'9']))
}

/// Returns `true` if bytes have a colon before `//`, or a colon that only digits follow.
fn has_authority(bytes: &[u8]) -> bool
    ensures { result ≡ has_authority bytes.now }
{
    for (at, byte) in bytes.iter().enumerate() {
        let rest = &bytes[at + 1..];
        if *byte == b':' && (begins(b"//", rest) || is_port(rest)) {
            return true;
        }
    }
    false
}

/// Returns `true` if all bytes are digits.
fn are_digits(bytes: &[u8]) -> bool
    ensures { result ≡ list_all is_ascii_digit bytes.now }
{
    bytes.iter().all(|byte| byte.is_ascii_digit())
}

/// Returns `true` if bytes are a port: digits, and at least one.
fn is_port(bytes: &[u8]) -> bool
    ensures { result ≡ (not (length bytes.now == 0) && list_all is_ascii_digit bytes.now) }
{
    !bytes.is_empty() && are_digits(bytes)
}

/// Returns `true` if bytes are a request-target, such as `/a`, `http://a/b`, `a:80` or `*` (RFC 9112, 3.2).
fn is_target(bytes: &[u8]) -> bool
    ensures { result ≡ is_target bytes.now }
{
    begins(b"/", bytes) || bytes == b"*".as_slice() || has_authority(&bytes[bytes.len().min(1)..])
}

/// Returns `true` if bytes are a token.
fn is_token(bytes: &[u8]) -> bool
    ensures { result ≡ is_token bytes.now }
{
    !bytes.is_empty() && are_token_bytes(bytes)
}

/// Returns `true` if a text is a request line, such as `GET / HTTP/1.1`.
#[tactic(auto, unfolding(crate::specs::Start::is_request_line))]
fn is_request_line(text: &[u8]) -> bool
    ensures { result ≡ is_request_line text.now }
{
    let (method, rest) = split_word(text);
    let (target, version) = split_word(rest);
    is_token(method) && is_target(target) && is_version(version)
}

/// Returns the kind of a response by its status and what may follow it, such as `200 OK`.
fn kind_of_status(text: &[u8]) -> Option<Kind>
    ensures { result ≡ kind_of_status text.now }
{
    let (status, _) = split_word(text);
    if !matches!(status, [b'0'..=b'9', b'0'..=b'9', b'0'..=b'9']) {
        return None;
    }
    if begins(b"1", status) {
        return Some(Kind::Interim);
    }
    Some(Kind::Final)
}

/// Returns the kind of the head that a text begins, or `None` if the text is no start line.
pub(crate) fn kind_of(text: &[u8]) -> Option<Kind>
    ensures { result ≡ kind_of text.now }
{
    let (version, rest) = split_word(text);
    // Most lines that aren't start lines have no space: this is only faster.
    if rest.is_empty() {
        return None;
    }
    if is_version(version) {
        return kind_of_status(rest);
    }
    is_request_line(text).then_some(Kind::Request)
}

/// Returns what begins with the first `HTTP/` of a text, ignoring ASCII case, or an empty slice without it.
fn from_version(text: &[u8]) -> &[u8]
    ensures { result.now ≡ from_version text.now }
{
    let mut rest = text;
    while let Some((_, more)) = rest.split_first() {
        if begins(b"HTTP/", rest) {
            break;
        }
        rest = more;
    }
    rest
}

/// Returns the kind of a response by the status after a label, or `None` if a text doesn't begin with the label and a status.
fn kind_after(label: &[u8], text: &[u8]) -> Option<Kind>
    ensures { result ≡ kind_after label.now text.now }
{
    if !begins(label, text) {
        return None;
    }
    kind_of_status(trim_start(&text[label.len()..]))
}

/// Returns the kind of a response by a field with its status, such as `Status: 200 OK` or `:status: 200`.
fn kind_of_field(text: &[u8]) -> Option<Kind>
    ensures { result ≡ kind_of_field text.now }
{
    match kind_after(b"status:", text) {
        Some(kind) => Some(kind),
        None => kind_after(b":status:", text),
    }
}

/// Returns the kind of the head that a line begins from its first `HTTP/` on. Most lines don't have it.
#[tactic(auto, unfolding(crate::specs::Start::is_request_line, crate::specs::Start::is_version))]
fn kind_from_version(line: &[u8]) -> Option<Kind>
    ensures { result ≡ kind_of (from_version line.now) }
{
    match from_version(line) {
        [] => None,
        text => kind_of(text),
    }
}

/// Returns the kind of a response by a line of pasted fields that has a status line from its first `HTTP/` on, or such a field.
fn kind_in(line: &[u8]) -> Option<Kind>
    ensures { result ≡ kind_in line.now }
{
    match kind_from_version(line) {
        Some(kind) => Some(kind),
        None => kind_of_field(trim_start(line)),
    }
}

/// Returns the kind of a response by the first line that tells it, or `None` if no line does.
pub(crate) fn kind_within(lines: &[&[u8]]) -> Option<Kind>
    ensures { result ≡ kind_within (map (λ line. line.now) lines.now) }
{
    for line in lines {
        if let Some(kind) = kind_in(line) {
            return Some(kind);
        }
    }
    None
}

/// Returns the mark before a start line in a line: its indentation, unless it needs a sign, or its sign. Returns `None` if the line has no
/// start line.
pub(crate) fn start_mark(line: &[u8], needs_sign: bool) -> Option<&[u8]>
    ensures { option_map (λ mark. mark.now) result ≡ mark_before is_start needs_sign line.now }
{
    let indented = trim_start(line);
    if kind_of(indented).is_some() {
        return if needs_sign {
            None
        } else {
            Some(&line[..line.len() - indented.len()])
        };
    }
    let (sign, text) = signed(line)?;
    kind_of(text).is_some().then_some(sign)
}
