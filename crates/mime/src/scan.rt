//! Scans a string in one pass: finds the positions of its parts, or the reason why it is rejected.
//!
//! A function that reads a part also reads the byte that ends it, and returns that byte, or `None` at the end of the string.

ghost use Rattle.std.specs.Prelude.{◌+◌, ◌-◌, ◌<◌, ◌≤◌, ◌^◌, length};
ghost use Rattle.mime.specs.Bytes.{is_quoted_text_byte};
ghost use Rattle.mime.specs.Grammar.{is_space};
ghost use Rattle.mime.specs.Inner.ByteClasses.{token_bytes, is_ascii_not_token};
ghost use Rattle.mime.specs.Inner.Scanning.{Passes, PassesContent, PassesSubtype, ScansList, Scans, ScansAfter};

mod fault;
mod reader;

use crate::bytes::{
    is_in_token, is_quoted_byte, is_quoted_text_byte, is_separator, is_space, is_token,
};
pub use crate::scan::fault::{FromStrError, ParseError};
pub(crate) use crate::scan::reader::{ByteReader, NEAR};

/// The positions of an accepted string's parts, in bytes from 0, and the number of its parameters. The order of the fields matters for
/// speed: a position would be copied in two parts if it were where another variant of `Scanned` has its byte.
#[derive(Clone, Copy)]
pub(crate) struct Positions {
    /// The position of the plus before the suffix.
    pub(crate) plus: Option<usize>,
    /// The position of the semicolon after the essence.
    pub(crate) semicolon: Option<usize>,
    pub(crate) slash: usize,
    pub(crate) pair_count: usize,
}

/// The result of one pass over a string.
#[derive(Clone, Copy)]
pub(crate) enum Scanned {
    /// The string is accepted, and its parts have these positions.
    Accepted(Positions),
    /// The string ends too early, and this fault says what is missing.
    Unfinished(ParseError),
    /// This byte, the last byte read, can't continue a media type. The bytes before it aren't a media type.
    Stopped(u8),
    /// This byte, the last byte read, can't continue a media type. The bytes before it are a media type, whose parts
    /// have these positions. The byte is the last field, so that the positions are at the same place as in `Accepted`.
    Followed(Positions, u8),
}

/// Reads the rest of a token, and returns the byte that ends it. A plus ends the token, too, unless `with_plus` is true.
#[inline(always)]
fn token(reader: &mut ByteReader<'_>, with_plus: bool) -> Option<u8>
    ensures { Passes (token_bytes with_plus) reader.old reader.new result }
{
    if let Some(known) = reader.known_stop() {
        if !is_in_token(known, with_plus) {
            return Some(known);
        }
    }
    let end = reader.near_end();
    while reader.is_before(end) {
        let byte = reader.next_byte();
        if !is_in_token(byte, with_plus) {
            return Some(byte);
        }
    }
    while let Some(stop) = reader.next_far(with_plus) {
        if !is_in_token(stop, with_plus) {
            return Some(stop);
        }
    }
    None
}

/// Reads optional white space (OWS of RFC 7230, 3.2.3: spaces and tabs), and returns the byte that ends it.
#[tactic(auto, using(crate::proofs::ScanLemmas::Passing::passing_more))]
#[inline(always)]
fn spaces(reader: &mut ByteReader<'_>) -> Option<u8>
    ensures { Passes is_space reader.old reader.new result }
{
    while let Some(byte) = reader.next() {
        if !is_space(byte) {
            return Some(byte);
        }
    }
    None
}

/// Reads quoted text (qdtext of RFC 7230, 3.2.6), and returns the byte that ends it.
#[tactic(auto, using(crate::proofs::ScanLemmas::Passing::passing_more))]
#[inline(always)]
fn quoted_text(reader: &mut ByteReader<'_>) -> Option<u8>
    ensures { Passes is_quoted_text_byte reader.old reader.new result }
{
    while let Some(byte) = reader.next() {
        if !is_quoted_text_byte(byte) {
            return Some(byte);
        }
    }
    None
}

/// Reads a quoted string's content, and returns the byte that ends it: the first quote that isn't in a quoted pair, or
/// a byte that may not occur in a quoted string.
#[inline(always)]
fn content(reader: &mut ByteReader<'_>) -> Option<u8>
    ensures { PassesContent reader.old reader.new result }
{
    // The first quoted text may be long.
    reader.skip_quoted_text();
    let mut stop = quoted_text(reader);
    while stop == Some(b'\\') {
        let paired = reader.next()?;
        if !is_quoted_byte(paired) {
            return Some(paired);
        }
        stop = quoted_text(reader);
    }
    stop
}

/// Reads a subtype's bytes after the first. Returns the position of the last plus among them, if any, and the byte that
/// ends the subtype. `from` is the reader's count at the start of the string.
#[inline(always)]
fn subtype(reader: &mut ByteReader<'_>, from: u128) -> (Option<usize>, Option<u8>)
    requires begun { from < reader.old.count }
    requires fits { reader.old.count + length reader.old.left ≤ from + 2 ^ 64 }
    ensures { PassesSubtype (reader.old.count - from) reader.old reader.new result }
{
    reader.look_further();
    // 0 means that no plus has been read yet: position 0 is in the type.
    let mut plus = 0;
    let mut stop = token(reader, false);
    while stop == Some(b'+') {
        plus = reader.position(from) + reader.skip_pluses(plus != 0);
        stop = token(reader, false);
    }
    (if plus == 0 { None } else { Some(plus) }, stop)
}

/// Reads the parameter list after a semicolon. `before` has the earlier parts' positions, and a `pair_count` of 0.
#[inline(always)]
pub(crate) fn parameters(reader: &mut ByteReader<'_>, before: Positions) -> Scanned
    requires { before.pair_count + length reader.old.left < 2 ^ 64 }
    ensures { ScansList before reader.old reader.new result }
{
    let mut positions = before;
    loop {
        let Some(first) = spaces(reader) else {
            return Scanned::Accepted(positions);
        };
        if !is_token(first) {
            return Scanned::Followed(positions, first);
        }
        match token(reader, true) {
            None => return Scanned::Unfinished(ParseError::MissingEqual),
            Some(b'=') => {}
            Some(byte) => return Scanned::Stopped(byte),
        }
        let Some(first) = reader.next() else {
            return Scanned::Unfinished(ParseError::MissingValue);
        };
        let stop = if first == b'"' {
            match content(reader) {
                None => return Scanned::Unfinished(ParseError::MissingQuote),
                Some(b'"') => {}
                Some(byte) => return Scanned::Stopped(byte),
            }
            spaces(reader)
        } else if is_token(first) {
            token(reader, true)
        } else {
            return Scanned::Stopped(first);
        };
        positions.pair_count += 1;
        match stop {
            None => return Scanned::Accepted(positions),
            Some(b';') => {}
            Some(byte) => return Scanned::Followed(positions, byte),
        }
    }
}

/// Reads ASCII characters that can't begin a media type, and returns the byte after them.
#[tactic(auto, using(crate::proofs::ScanLemmas::Passing::passing_more))]
#[inline(always)]
pub(crate) fn separators(reader: &mut ByteReader<'_>) -> Option<u8>
    ensures { Passes is_ascii_not_token reader.old reader.new result }
{
    while let Some(byte) = reader.next() {
        if !is_separator(byte) {
            return Some(byte);
        }
    }
    None
}

/// Reads the rest of a string after its first byte, `first`. Stops at the end, or after the first byte that can't continue a media type.
#[tactic(auto, using(crate::proofs::ScanLemmas::Passing::given_sum))]
#[inline(always)]
pub(crate) fn scan_after(first: u8, reader: &mut ByteReader<'_>) -> Scanned
    requires { 0 < reader.old.count }
    ensures { ScansAfter first reader.old reader.new result }
{
    let from = reader.count() - 1;
    if !is_token(first) {
        return Scanned::Stopped(first);
    }
    match token(reader, true) {
        None => return Scanned::Unfinished(ParseError::MissingSlash),
        Some(b'/') => {}
        Some(byte) => return Scanned::Stopped(byte),
    }
    let slash = reader.position(from);
    let Some(first) = reader.next() else {
        return Scanned::Unfinished(ParseError::MissingSubtype);
    };
    if !is_token(first) {
        return Scanned::Stopped(first);
    }
    let (plus, stop) = subtype(reader, from);
    let mut positions = Positions {
        slash,
        plus,
        semicolon: None,
        pair_count: 0,
    };
    match stop {
        None => return Scanned::Accepted(positions),
        Some(b';') => {}
        Some(byte) => return Scanned::Followed(positions, byte),
    }
    positions.semicolon = Some(reader.position(from));
    parameters(reader, positions)
}

/// Reads a string to its end, or up to and including the first byte that can't continue a media type.
#[inline(always)]
pub(crate) fn scan(reader: &mut ByteReader<'_>) -> Scanned
    ensures { Scans reader.old reader.new result }
{
    match reader.next() {
        None => Scanned::Unfinished(ParseError::MissingSlash),
        Some(first) => scan_after(first, reader),
    }
}
