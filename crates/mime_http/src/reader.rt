//! Reads a header's value in one pass, according to HTTP's own grammar (RFC 9110, 8.3.1 and 5.6.6), and writes it anew.

ghost use Rattle.std.specs.Prelude.{◌≡◌, ◌<◌, ◌≤◌, ◌+◌, ◌-◌, ◌^◌, ◌++◌, ◌≢◌, true, false, ℕ, List, [], ◌∷◌, codes, drop, length};
ghost use Rattle.std.specs.Prelude.{slice_index, slice_range, MatchResult};
ghost use Rattle.std.specs.List.{prefix_len};
ghost use Rattle.mime.specs.Bytes.{is_token_byte, is_quoted_byte, is_quoted_text_byte, equals_byte, quote_byte};
ghost use Rattle.mime.specs.Grammar.{is_space};
ghost use Rattle.mime_search.specs.{Classes.IsStart, declared.class.TheConstants.TOKEN_STOPS};
ghost use Rattle.mime_http.specs.Reader.{Parts, RoomHolds, IsClosedAt, IsEssenceAt, IsFaultFrom, IsParameterAt, IsStringFault};
ghost use Rattle.mime_http.specs.Reader.{after_semicolon};
ghost use Rattle.mime_http.specs.Reader.{answer_at, answer_of, before_semicolon, fault_at, in_value, read, rejected, text_of_parts};

use crate::list::spaces_end;
use mime::{ParseError, is_quoted_byte, is_quoted_text_byte, is_token};
use mime_search::{Start, TEXT_STOPS, TOKEN_STOPS, copy_bytes, first_stop_far, search_start};

/// The number of bytes of a run that are tested one by one, before the rest of the run is searched in blocks.
const LONG: usize = 16;

/// Returns the position of the first byte at or after `from` that may not occur in a token, or the value's length if there is none.
#[inline(always)]
pub(crate) fn token_end_far(value: &[u8], from: usize) -> usize
    requires { from ≤ length value.now }
    ensures end { result ≡ from + prefix_len is_token_byte (drop from value.now) }
    ensures within { result ≤ length value.now }
{
    let mut at = from;
    while at < value.len() && is_token(value[at]) {
        at += 1;
        if (at - from) % LONG == 0 {
            at = first_stop_far(value, at, &TOKEN_STOPS);
        }
    }
    at
}

/// Returns `true` if a token byte is at `pos`.
#[inline(always)]
fn is_token_at(value: &[u8], pos: usize) -> bool
    ensures yes { result ≡ true → (pos < length value.now) × (is_token_byte (slice_index value.now pos) ≡ true) }
    ensures no { result ≡ false → pos < length value.now → is_token_byte (slice_index value.now pos) ≡ false }
{
    pos < value.len() && is_token(value[pos])
}

/// Returns the same position as `token_end_far`. `start` says which of the value's first bytes are in `TOKEN_STOPS`.
#[inline(always)]
fn token_end(value: &[u8], start: Start, from: usize) -> usize
    requires within { from ≤ length value.now }
    requires start { IsStart TOKEN_STOPS value.now start }
    ensures end { result ≡ from + prefix_len is_token_byte (drop from value.now) }
    ensures within { result ≤ length value.now }
{
    let at = start.stop_from(from);
    if is_token_at(value, at) {
        return token_end_far(value, at + 1);
    }
    at
}

/// Returns `true` if the byte at a position is `byte`.
#[inline(always)]
fn is_at(value: &[u8], pos: usize, byte: u8) -> bool
    ensures yes { result ≡ true → (pos < length value.now) × (slice_index value.now pos ≡ byte) }
    ensures no { result ≡ false → pos < length value.now → slice_index value.now pos ≢ byte }
{
    pos < value.len() && value[pos] == byte
}

/// Returns the fault of a value that can't be read past a position: `missing` if the position is the value's end, or else the byte there.
fn fault_at(value: &[u8], pos: usize, missing: ParseError) -> ParseError
    requires { pos ≤ length value.now }
    ensures { result ≡ fault_at value.now pos missing }
{
    if pos == value.len() {
        return missing;
    }
    ParseError::InvalidToken {
        pos,
        byte: value[pos],
    }
}

/// Returns the position of the quote that closes the quoted string that `from` is in, or the fault.
fn string_end(value: &[u8], from: usize) -> Result<usize, ParseError>
    requires { from ≤ length value.now }
    ensures { MatchResult result (IsClosedAt value.now from) (IsStringFault value.now from) }
{
    let mut at = from;
    while at < value.len() {
        let byte = value[at];
        if byte == b'"' {
            return Ok(at);
        }
        if byte == b'\\' {
            let paired = at + 1;
            if paired == value.len() || !is_quoted_byte(value[paired]) {
                return Err(fault_at(value, paired, ParseError::MissingQuote));
            }
            at = paired + 1;
        } else if is_quoted_text_byte(byte) {
            at += 1;
            if (at - from) % LONG == 0 {
                at = first_stop_far(value, at, &TEXT_STOPS);
            }
        } else {
            return Err(ParseError::InvalidToken { pos: at, byte });
        }
    }
    Err(ParseError::MissingQuote)
}

/// The bytes of a parameter that are written: from its name up to `first`, and from `begin` up to `last`. `end` is the position after the
/// parameter.
#[derive(Clone, Copy)]
struct Spans {
    first: usize,
    begin: usize,
    last: usize,
    end: usize,
}

/// Returns the parameter whose value is the quoted string that begins at `quote`, or the fault.
fn string_at(value: &[u8], start: Start, quote: usize) -> Result<Spans, ParseError>
    requires within { quote < length value.now }
    requires quote { slice_index value.now quote ≡ quote_byte }
    requires start { IsStart TOKEN_STOPS value.now start }
    ensures { MatchResult result
        (λ spans. (spans.first ≡ quote) × ((name : List ℕ) → IsParameterAt value.now name (λ parts. in_value parts name []) quote spans))
        (λ fault. (name : List ℕ) → IsFaultFrom value.now (λ parts. in_value parts name []) quote fault) }
{
    let begin = quote + 1;
    let plain = token_end(value, start, begin);
    let close = match string_end(value, plain) {
        Ok(close) => close,
        Err(fault) => return Err(fault),
    };
    let end = close + 1;
    if begin < plain && plain == close {
        // A token needs no quotes.
        return Ok(Spans {
            first: quote,
            begin,
            last: close,
            end,
        });
    }
    Ok(Spans {
        first: quote,
        begin: quote,
        last: end,
        end,
    })
}

/// Returns the parameter whose value begins at a position, or the fault.
fn value_at(value: &[u8], start: Start, begin: usize) -> Result<Spans, ParseError>
    requires within { begin ≤ length value.now }
    requires start { IsStart TOKEN_STOPS value.now start }
    ensures { MatchResult result
        (λ spans. (spans.first ≡ begin) × ((name : List ℕ) → IsParameterAt value.now name (λ parts. in_value parts name []) begin spans))
        (λ fault. (name : List ℕ) → IsFaultFrom value.now (λ parts. in_value parts name []) begin fault) }
{
    if is_at(value, begin, b'"') {
        return string_at(value, start, begin);
    }
    let end = token_end(value, start, begin);
    if end == begin {
        return Err(fault_at(value, begin, ParseError::MissingValue));
    }
    Ok(Spans {
        first: begin,
        begin,
        last: end,
        end,
    })
}

/// Returns the parameter whose name begins at a position, or the fault.
fn parameter_at(value: &[u8], start: Start, name: usize) -> Result<Spans, ParseError>
    requires within { name < length value.now }
    requires token { is_token_byte (slice_index value.now name) ≡ true }
    requires start { IsStart TOKEN_STOPS value.now start }
    ensures { MatchResult result
        (λ spans. (text : List ℕ) × (text ++ (equals_byte ∷ []) ≡ slice_range value.now name spans.first)
        × IsParameterAt value.now text after_semicolon name spans)
        (IsFaultFrom value.now after_semicolon name) }
{
    let equals = token_end(value, start, name + 1);
    if !is_at(value, equals, b'=') {
        return Err(fault_at(value, equals, ParseError::MissingEqual));
    }
    value_at(value, start, equals + 1)
}

/// Returns the positions at which the essence of a value begins and ends, or the fault.
fn essence(value: &[u8], start: Start) -> Result<(usize, usize), ParseError>
    requires { IsStart TOKEN_STOPS value.now start }
    ensures { MatchResult result (λ ends. IsEssenceAt value.now ends.0 ends.1) (λ fault. answer_of value.now ≡ rejected fault) }
{
    let top = spaces_end(value, 0);
    let slash = token_end(value, start, top);
    if slash == top {
        return Err(fault_at(value, top, ParseError::MissingSlash));
    }
    if !is_at(value, slash, b'/') {
        return Err(fault_at(value, slash, ParseError::MissingSlash));
    }
    let sub = slash + 1;
    let end = token_end(value, start, sub);
    if end == sub {
        return Err(fault_at(value, sub, ParseError::MissingSubtype));
    }
    Ok((top, end))
}

/// Returns the position of the last semicolon in a row of semicolons that begins at `from`, or `from` if no semicolon is there. This
/// function isn't inlined, since few values have empty parameters.
#[inline(never)]
fn last_semicolon(value: &[u8], from: usize) -> usize
    requires { from ≤ length value.now }
    ensures least { from ≤ result }
    ensures within { result ≤ length value.now }
    ensures other { from < result → is_space (slice_index value.now result) ≡ false }
    ensures same { (parts : Parts) → answer_at value.now (before_semicolon parts) from
        ≡ answer_at value.now (before_semicolon parts) result }
{
    let mut at = from;
    while is_at(value, at, b';') && is_at(value, at + 1, b';') {
        at += 1;
    }
    at
}

/// Writes bytes into the buffer `room` at position `len`, if they fit. Returns the position after them, whether or not they fit.
fn put(room: &mut [u8], len: usize, bytes: &[u8]) -> usize
    requires { len + length bytes.now < 2 ^ 64 }
    ensures holds { (text : List ℕ) → RoomHolds room.old len text → RoomHolds room.new result (text ++ bytes.now) }
    ensures len { result ≡ len + length bytes.now }
    ensures room { length room.new ≡ length room.old }
{
    let end = len + bytes.len();
    if end <= room.len() {
        copy_bytes(&mut room[len..end], bytes);
    }
    end
}

/// Writes a semicolon, a space, and the `spans` of the parameter whose name begins at `name`, as `put` does.
fn put_parameter(room: &mut [u8], len: usize, value: &[u8], name: usize, spans: Spans) -> usize
    requires least { name ≤ spans.first }
    requires apart { spans.first ≤ spans.begin }
    requires some { spans.begin ≤ spans.last }
    requires within { spans.last ≤ length value.now }
    requires fits { len + 2 + (spans.last - name) < 2 ^ 64 }
    ensures holds { (text : List ℕ) → RoomHolds room.old len text
        → RoomHolds room.new result (text ++ (codes "; " ++ (slice_range value.now name spans.first
        ++ slice_range value.now spans.begin spans.last))) }
    ensures len { result ≤ len + 2 + (spans.last - name) }
    ensures room { length room.new ≡ length room.old }
{
    let len = put(room, len, b"; ");
    if spans.first == spans.begin {
        return put(room, len, &value[name..spans.last]);
    }
    let len = put(room, len, &value[name..spans.first]);
    put(room, len, &value[spans.begin..spans.last])
}

/// Writes the media type of a value anew into the buffer `room`: its essence, and its parameters as `with_parameter` writes those that it
/// keeps. Returns the length of the whole text, or the fault of a value that HTTP doesn't allow. If `room` is shorter than the text, the
/// text in it isn't complete. This doesn't allocate.
pub(crate) fn write_anew(value: &[u8], room: &mut [u8]) -> Result<usize, ParseError>
    ensures answer { MatchResult result
        (λ len. (parts : Parts) × (answer_of value.now ≡ read parts) × RoomHolds room.new len (text_of_parts parts))
        (λ fault. answer_of value.now ≡ rejected fault) }
    ensures room { length room.new ≡ length room.old }
{
    let start = search_start(value, &TOKEN_STOPS);
    let (begin, end) = match essence(value, start) {
        Ok(essence) => essence,
        Err(fault) => return Err(fault),
    };
    let mut len = put(room, 0, &value[begin..end]);
    let mut at = spaces_end(value, end);
    while at < value.len() {
        let byte = value[at];
        if byte != b';' {
            return Err(ParseError::InvalidToken { pos: at, byte });
        }
        at = spaces_end(value, at + 1);
        if is_token_at(value, at) {
            let spans = match parameter_at(value, start, at) {
                Ok(spans) => spans,
                Err(fault) => return Err(fault),
            };
            len = put_parameter(room, len, value, at, spans);
            at = spaces_end(value, spans.end);
        } else {
            at = last_semicolon(value, at);
        }
    }
    Ok(len)
}
