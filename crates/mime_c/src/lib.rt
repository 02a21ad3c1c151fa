//! The proved calls of include/mime.h, for programs that aren't in Rattle.
//!
//! No call keeps a pointer or any state. Each call returns a number, its answer. Strings are written into the caller's buffer, each with a
//! 0 at its end. The files `Strings`, `Answers`, `HeaderAnswers` and `ParameterAnswers` of `Rattle.mime_c.specs` define the strings and the
//! answers. include/mime.h describes them in plain words.
#![tactic(auto)]

ghost use Rattle.std.specs.Prelude.{◌≡◌, ◌+◌, ◌*◌, ◌<◌, ◌≤◌, [], ◌∷◌, length, IfOk, IfErr, IsOk};
ghost use Rattle.std.specs.Str.{IsUtf8};
ghost use Rattle.mime.specs.Values.{Reads};
ghost use Rattle.mime.specs.Faults.{Explains};
ghost use Rattle.mime.specs.CutLaws.{IsRead};
ghost use Rattle.mime_c.specs.Strings.{string_of, strings, parts_of, texts_of, overwritten};
ghost use Rattle.mime_c.specs.Writing.{Writes};
ghost use Rattle.mime_c.specs.Answers.{number_of, number_of_error, found_of_error, found_of, TextExplains, ReadsTo, ListsTo, Compares};
ghost use Rattle.mime_c.specs.Answers.{AreWritten};
ghost use Rattle.mime_http.specs.{HttpFaults.HttpExplains, HttpList.trimmed, HttpList.Header, HttpList.IsHeader};
ghost use Rattle.mime_http.specs.Ranges.{weight_of};
ghost use Rattle.mime_http.specs.Weight.{four_digits};
ghost use Rattle.mime_c.specs.HeaderAnswers.{HeaderReadsTo, OfValue, range_texts, AcceptsTo, header_lines, HaveNoEntry};
ghost use Rattle.mime_c.specs.HeaderAnswers.{OfOffers, BestIs, OrderIs};

pub mod laws;
mod parameter;

use mime::{Bad, Mime, MimeIter, ParseError};
use mime_http::{Accept, FieldError, content_type_after, trimmed_text, weight_of};
use mime_search::text_of;
use std::alloc::{AllocError, Global};

// The answers of all calls. include/mime.h has the same names and numbers, and describes them.
const MIME_OK: u32 = 0;

const MIME_MISSING_SLASH: u32 = 1;

const MIME_MISSING_SUBTYPE: u32 = 2;

const MIME_MISSING_EQUAL: u32 = 3;

const MIME_MISSING_VALUE: u32 = 4;

const MIME_MISSING_QUOTE: u32 = 5;

const MIME_INVALID_BYTE: u32 = 6;

const MIME_NO_MEMORY: u32 = 7;

const MIME_NOT_UTF8: u32 = 8;

const MIME_NO_ROOM: u32 = 9;

const MIME_NOT_ACCEPTABLE: u32 = 10;

const MIME_BAD_OFFER: u32 = 11;

const MIME_NO_BOUNDARY: u32 = 12;

const MIME_BAD_PARAMETER: u32 = 13;

// The first byte of each string of `mime_list`: `MIME_GOOD` before a media type, and `MIME_BAD` before a bad piece.
const MIME_GOOD: u8 = b'+';

const MIME_BAD: u8 = b'-';

/// The numbers that `mime_read` and `mime_content_type` find besides the strings. Lengths and positions are in bytes, positions from 0. A
/// field that an answer doesn't set is 0.
#[repr(C)]
#[derive(Clone, Copy)]
pub struct MimeFound {
    /// The number of bytes written.
    pub length: usize,
    /// The number of parameters.
    pub params: usize,
    /// The position in the buffer of the last string, the media type as it is printed.
    pub printed: usize,
    /// The position of the slash in the essence.
    pub slash: usize,
    /// The end of the subtype in the essence: the position of a suffix's plus, or of the 0 after the essence.
    pub subtype_end: usize,
    /// The position in the text of the invalid byte, or of the first byte that isn't part of valid UTF-8.
    pub pos: usize,
    /// The invalid byte.
    pub byte: u8,
}

/// A `MimeFound` in which nothing is set.
const NOTHING: MimeFound = MimeFound {
    length: 0,
    params: 0,
    printed: 0,
    slash: 0,
    subtype_end: 0,
    pos: 0,
    byte: 0,
};

/// Returns the answer for a fault.
fn number_of(fault: &ParseError) -> u32
    ensures { result ≡ number_of fault.now }
{
    match fault {
        ParseError::MissingSlash => MIME_MISSING_SLASH,
        ParseError::MissingSubtype => MIME_MISSING_SUBTYPE,
        ParseError::MissingEqual => MIME_MISSING_EQUAL,
        ParseError::MissingValue => MIME_MISSING_VALUE,
        ParseError::MissingQuote => MIME_MISSING_QUOTE,
        ParseError::InvalidToken { .. } => MIME_INVALID_BYTE,
        ParseError::NoMemory => MIME_NO_MEMORY,
    }
}

/// Returns the answer for an error in reading a text or a header's value.
fn number_of_error(error: &FieldError) -> u32
    ensures { result ≡ number_of_error error.now }
{
    match error {
        FieldError::NotUtf8 { .. } => MIME_NOT_UTF8,
        FieldError::Invalid(fault) => number_of(fault),
        FieldError::NoMemory => MIME_NO_MEMORY,
    }
}

/// Returns what is found for an error in reading a text or a header's value: how much is UTF-8, or the invalid byte and its position.
fn found_of_error(error: &FieldError) -> MimeFound
    ensures { result ≡ found_of_error error.now }
{
    match error {
        FieldError::NotUtf8 { pos } => MimeFound {
            pos: *pos,
            ..NOTHING
        },
        FieldError::Invalid(ParseError::InvalidToken { pos, byte }) => MimeFound {
            pos: *pos,
            byte: *byte,
            ..NOTHING
        },
        FieldError::Invalid(_) | FieldError::NoMemory => NOTHING,
    }
}

/// Converts a text or a header's value to a string.
#[inline(always)]
fn string(text: &[u8]) -> Result<&str, FieldError>
    ensures text { IfOk result (λ string. IsUtf8 text.now × (string.now ≡ text.now)) }
    ensures explained { IfErr result (λ error. TextExplains text.now error × HttpExplains text.now error) }
{
    match text_of(text) {
        Ok(string) => Ok(string),
        Err(pos) => Err(FieldError::NotUtf8 { pos }),
    }
}

/// Reads the whole of a text as one media type.
#[inline(always)]
fn read(alloc: Global, text: &[u8]) -> Result<Mime, FieldError>
    ensures read { IfOk result (λ mime. IsUtf8 text.now × Reads text.now mime.media) }
    ensures explained { IfErr result (λ error. TextExplains text.now error) }
{
    let text = match string(text) {
        Ok(text) => text,
        Err(error) => return Err(error),
    };
    match Mime::from_str(alloc, text) {
        Ok(mime) => Ok(mime),
        Err(error) => Err(FieldError::Invalid(*error.fault())),
    }
}

/// Copies bytes to a position, and returns the position after them.
fn copy(out: &mut [u8], at: usize, bytes: &[u8]) -> usize
    requires { at + length bytes.now ≤ length out.old }
    ensures end { result ≡ at + length bytes.now }
    ensures writes { Writes out.old at bytes.now out.new result }
{
    let end = at + bytes.len();
    mime_search::copy_text(&mut out[at..end], bytes);
    end
}

/// Writes a text and a 0 at a position, and returns the position after them.
#[tactic(auto, using(crate::proofs::Writing::ended_before))]
fn put(out: &mut [u8], at: usize, text: &str) -> usize
    requires { at + length text.now < length out.old }
    ensures { Writes out.old at (string_of text.now) out.new result }
{
    // The 0 is written first, which takes fewer instructions.
    out[at + text.len()] = 0;
    let end = copy(out, at, text.as_bytes());
    end + 1
}

/// Writes the parts of a media type at a position, and returns the position after them.
#[inline(always)]
fn put_parts(out: &mut [u8], at: usize, mime: &Mime) -> usize
    requires { at + length (strings (parts_of mime.now.media)) ≤ length out.old }
    ensures { Writes out.old at (strings (parts_of mime.now.media)) out.new result }
{
    let mut end = put(out, at, mime.essence_str());
    for (name, value) in mime.params() {
        end = put(out, end, name.as_str());
        end = put(out, end, value.as_str());
    }
    end
}

/// Writes the strings of a media type to the start of `out`, and sets what is found.
#[inline(always)]
fn put_texts(out: &mut [u8], found: &mut MimeFound, mime: &Mime)
    requires read { IsRead mime.now.media }
    requires room { length (strings (texts_of mime.now.media)) ≤ length out.old }
    ensures bytes { out.new ≡ overwritten (strings (texts_of mime.now.media)) out.old }
    ensures found { found.new ≡ found_of mime.now.media }
{
    let printed = put_parts(out, 0, mime);
    // Each field is set by itself, which takes less than setting the whole struct.
    found.length = put(out, printed, mime.as_str());
    found.params = mime.params().size_hint().0;
    found.printed = printed;
    found.slash = mime.type_().as_str().len();
    found.subtype_end = found.slash + 1 + mime.subtype().as_str().len();
    found.pos = 0;
    found.byte = 0;
}

/// Sets `found` for an error in reading a text or a header's value, and returns its answer.
fn put_error(found: &mut MimeFound, error: &FieldError) -> u32
    ensures answer { result ≡ number_of_error error.now }
    ensures found { found.new ≡ found_of_error error.now }
{
    *found = found_of_error(error);
    number_of_error(error)
}

/// Reads a value that `mime` rejects with this fault, and writes what `mime_content_type` writes. This function isn't inlined, so that the
/// code for values that `mime` accepts stays short.
#[inline(never)]
fn put_after(
    alloc: Global,
    value: &str,
    fault: ParseError,
    out: &mut [u8],
    found: &mut MimeFound,
) -> u32
    requires fault { Explains (trimmed value.now) fault }
    requires room { 3 * length value.now + 2 ≤ length out.old }
    ensures { OfValue value.now (λ found. (out.old, found)) (AreWritten out.old) result (out.new, found.new) }
{
    match content_type_after(alloc, value, fault) {
        Ok(mime) => {
            put_texts(out, found, &mime);
            MIME_OK
        }
        Err(error) => put_error(found, &error),
    }
}

/// Reads the whole of `text` as one media type (RFC 7231, 3.1.1.1). Writes its parts and its printed text to `out`, which must have at
/// least `2 * text.len() + 2` bytes, and sets `found`. Returns `MIME_OK`, or another answer of include/mime.h if it wrote nothing.
#[unsafe(no_mangle)]
#[tactic(auto, using(crate::proofs::Room::texts_fit))]
pub extern "C" fn mime_read(
    alloc: Global,
    text: &[u8],
    out: &mut [u8],
    found: &mut MimeFound,
) -> u32
    ensures { ReadsTo text.now out.old result (out.new, found.new) }
{
    if out.len() / 2 <= text.len() {
        *found = NOTHING;
        return MIME_NO_ROOM;
    }
    let text = match string(text) {
        Ok(text) => text,
        Err(error) => return put_error(found, &error),
    };
    match Mime::from_str(alloc, text) {
        Ok(mime) => {
            put_texts(out, found, &mime);
            MIME_OK
        }
        Err(error) => put_error(found, &FieldError::Invalid(*error.fault())),
    }
}

/// Reads the value of a header such as `Content-Type` as one media type (RFC 9110, 8.3.1). Writes the same strings as `mime_read` to
/// `out`, which must have at least `3 * value.len() + 2` bytes, and sets `found`. Returns `MIME_OK`, or another answer of include/mime.h if
/// it wrote nothing.
#[unsafe(no_mangle)]
pub extern "C" fn mime_content_type(
    alloc: Global,
    value: &[u8],
    out: &mut [u8],
    found: &mut MimeFound,
) -> u32
    ensures { HeaderReadsTo value.now out.old result (out.new, found.new) }
{
    if (out.len() + 1) / 3 <= value.len() {
        *found = NOTHING;
        return MIME_NO_ROOM;
    }
    let text = match string(value) {
        Ok(text) => text,
        Err(error) => return put_error(found, &error),
    };
    match Mime::from_str(alloc, trimmed_text(text)) {
        Ok(mime) => {
            put_texts(out, found, &mime);
            MIME_OK
        }
        Err(error) => put_after(alloc, text, *error.fault(), out, found),
    }
}

/// Writes an item of a list at a position, and returns the position after the item. `mark` is the item's first byte.
#[tactic(auto, using(crate::proofs::Writing::both_written))]
fn put_item(out: &mut [u8], at: usize, mark: u8, text: &str) -> usize
    requires { at + length (mark ∷ text.now) < length out.old }
    ensures { Writes out.old at (string_of (mark ∷ text.now)) out.new result }
{
    let next = copy(out, at, &[mark]);
    put(out, next, text)
}

/// Finds the media types in `text`, as `MimeIter` does. Writes a string for each media type and each bad piece to `out`, which must have at
/// least `2 * text.len()` bytes, and sets `length` to the number of bytes written. Returns `MIME_OK`, or sets `length` to 0 and returns
/// another answer of include/mime.h. For an `Accept` header, use `mime_accept`.
#[unsafe(no_mangle)]
#[tactic(auto, using(crate::specs::Answers::has_no_room, crate::specs::Answers::has_room, crate::specs::Answers::is_not_text))]
pub extern "C" fn mime_list(alloc: Global, text: &[u8], out: &mut [u8], length: &mut usize) -> u32
    ensures { ListsTo text.now out.old result (out.new, length.new) }
{
    *length = 0;
    if out.len() / 2 < text.len() {
        return MIME_NO_ROOM;
    }
    let Ok(text) = text_of(text) else {
        return MIME_NOT_UTF8;
    };
    let mut at = 0;
    for item in MimeIter::new(alloc, text) {
        match item {
            Ok(mime) => at = put_item(out, at, MIME_GOOD, mime.as_str()),
            Err(Bad::Piece(piece)) => at = put_item(out, at, MIME_BAD, piece),
            Err(Bad::NoMemory) => return MIME_NO_MEMORY,
        }
    }
    *length = at;
    MIME_OK
}

/// Sets `equal` to 1 if two texts are read as equal media types (RFC 7231, 3.1.1.1), and otherwise to 0. Returns `MIME_OK`, or the reason
/// why a text isn't read. `Text/Plain;charset="UTF-8"` and `text/plain; charset=utf-8` are equal.
#[unsafe(no_mangle)]
pub extern "C" fn mime_equal(alloc: Global, one: &[u8], other: &[u8], equal: &mut u8) -> u32
    ensures { Compares one.now other.now result equal.new }
{
    *equal = 0;
    let first = match read(alloc, one) {
        Ok(mime) => mime,
        Err(error) => return number_of_error(&error),
    };
    let second = match read(alloc, other) {
        Ok(mime) => mime,
        Err(error) => return number_of_error(&error),
    };
    *equal = u8::from(first == second);
    MIME_OK
}

/// Returns the four decimal digits of a number below 10,000, in ASCII.
fn four_digits(n: u16) -> [u8; 4]
    ensures { result ≡ four_digits n }
{
    [
        b'0' + (n / 1000) as u8,
        b'0' + (n / 100 % 10) as u8,
        b'0' + (n / 10 % 10) as u8,
        b'0' + (n % 10) as u8,
    ]
}

/// Writes the strings of a range at a position, and returns the position after them.
fn put_range(out: &mut [u8], at: usize, range: &Mime) -> usize
    requires { at + length (strings (range_texts range.now.media)) ≤ length out.old }
    ensures { Writes out.old at (strings (range_texts range.now.media)) out.new result }
{
    let digits = four_digits(weight_of(range));
    let end = copy(out, at, &digits);
    let end = copy(out, end, b"\0");
    let end = put_parts(out, end, range);
    put(out, end, "")
}

/// Reads a line of an `Accept` header (RFC 9110, 12.5.1), and writes the strings of each range to `out`, which must have at least
/// `3 * text.len() + 3` bytes. The strings of a range are its weight (four digits, in thousandths), its parts, and an empty string. Sets
/// `length` to the number of bytes written, and `bad` to the number of bad entries. Returns `MIME_OK`, `MIME_NO_ROOM` or `MIME_NO_MEMORY`.
#[unsafe(no_mangle)]
pub extern "C" fn mime_accept(
    alloc: Global,
    text: &[u8],
    out: &mut [u8],
    length: &mut usize,
    bad: &mut usize,
) -> u32
    ensures { AcceptsTo text.now out.old result (out.new, length.new, bad.new) }
{
    *length = 0;
    *bad = 0;
    if out.len() / 3 <= text.len() {
        return MIME_NO_ROOM;
    }
    let Ok((accept, entries)) = Accept::from_line_counting_bad(alloc, text) else {
        return MIME_NO_MEMORY;
    };
    let mut at = 0;
    for range in accept.ranges() {
        at = put_range(out, at, range);
    }
    *length = at;
    *bad = entries.count;
    MIME_OK
}

/// Reads an `Accept` header of one line, or of no line if `is_there` is false. Bad entries aren't kept.
fn accepted(alloc: Global, is_there: bool, line: &[u8]) -> Result<Accept, AllocError>
    ensures header { IfOk result (λ accept. (header : Header) × IsHeader (header_lines is_there line.now) header
        × (accept.ranges ≡ header.ranges)) }
    ensures nothing { HaveNoEntry (header_lines is_there line.now) → IsOk result }
{
    let lines = [line];
    // This is one line, or none.
    Accept::from_lines_without_bad(alloc, &lines[..usize::from(is_there)])
}

/// Reads a list of offers, and an `Accept` header of one line, or of no line if `is_there` is false.
///
/// # Errors
/// Returns `MIME_BAD_OFFER` and the position of the first offer that isn't a media type, or `MIME_NO_MEMORY` and 0.
#[inline(always)]
fn read_header_and_offers(
    alloc: Global,
    is_there: bool,
    accept: &[u8],
    offers: &[u8],
) -> Result<(Accept, Accept), (u32, usize)>
    ensures read { IfOk result (λ read. (header offered : Header) × IsHeader (header_lines is_there accept.now) header
        × IsHeader (offers.now ∷ []) offered × (offered.bad ≡ []) × (read.0.ranges ≡ header.ranges) × (read.1.ranges ≡ offered.ranges)) }
    ensures stopped { IfErr result (λ stop.
        OfOffers is_there accept.now offers.now (λ at. at) (λ ranges offered answer at. ⊥) stop.0 stop.1) }
{
    let Ok((offered, entries)) = Accept::from_line_counting_bad(alloc, offers) else {
        return Err((MIME_NO_MEMORY, 0));
    };
    if let Some(first) = entries.first {
        return Err((MIME_BAD_OFFER, first));
    }
    match accepted(alloc, is_there, accept) {
        Ok(header) => Ok((header, offered)),
        Err(AllocError) => Err((MIME_NO_MEMORY, 0)),
    }
}

/// Chooses the best offer of a list, such as `text/html, application/json`, for an `Accept` header (RFC 9110, 12.5.1). Sets `best` to the
/// offer's position in the list, from 0. If `is_there` is false, the request has no such header, and accepts everything. Returns `MIME_OK`,
/// `MIME_NOT_ACCEPTABLE`, `MIME_NO_MEMORY`, or `MIME_BAD_OFFER`. With `MIME_BAD_OFFER`, `best` is the position of the first offer that
/// isn't a media type.
#[unsafe(no_mangle)]
pub extern "C" fn mime_best(
    alloc: Global,
    is_there: bool,
    accept: &[u8],
    offers: &[u8],
    best: &mut usize,
) -> u32
    ensures { BestIs is_there accept.now offers.now result best.new }
{
    *best = 0;
    let (header, offered) = match read_header_and_offers(alloc, is_there, accept, offers) {
        Ok(read) => read,
        Err((answer, bad)) => {
            *best = bad;
            return answer;
        }
    };
    match header.best(offered.ranges()) {
        Some(at) => {
            *best = at;
            MIME_OK
        }
        None => MIME_NOT_ACCEPTABLE,
    }
}

/// Writes the positions of the acceptable offers of a list to the start of `order`, the best first (RFC 9110, 12.5.1). Sets `count` to
/// their number. Compares offers as `mime_best` does. Returns `MIME_OK`, or another answer of include/mime.h if it wrote nothing: with
/// `MIME_BAD_OFFER`, `count` is the position of the first offer that isn't a media type, and with any other it is 0.
#[unsafe(no_mangle)]
pub extern "C" fn mime_order(
    alloc: Global,
    is_there: bool,
    accept: &[u8],
    offers: &[u8],
    order: &mut [usize],
    count: &mut usize,
) -> u32
    ensures { OrderIs is_there accept.now offers.now order.old result (order.new, count.new) }
{
    *count = 0;
    let (header, offered) = match read_header_and_offers(alloc, is_there, accept, offers) {
        Ok(read) => read,
        Err((answer, bad)) => {
            *count = bad;
            return answer;
        }
    };
    let Ok(positions) = header.order(alloc, offered.ranges()) else {
        return MIME_NO_MEMORY;
    };
    if positions.is_empty() {
        return MIME_NOT_ACCEPTABLE;
    }
    if positions.len() > order.len() {
        return MIME_NO_ROOM;
    }
    order[..positions.len()].copy_from_slice(&positions);
    *count = positions.len();
    MIME_OK
}
