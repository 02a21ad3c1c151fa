//! Reads the media type of a header's value from bytes.

ghost use Rattle.std.specs.Prelude.{◌≡◌, ◌≢◌, ◌≤◌, codes, length, Some, IfOk, IfErr, IfSome, IsOk};
ghost use Rattle.std.specs.Fmt.InlineText.{inline_text};
ghost use Rattle.std.specs.Str.{IsUtf8};
ghost use Rattle.mime.specs.Values.{IsAccepted, MediaType};
ghost use Rattle.mime.specs.Faults.{Explains};
ghost use Rattle.mime_http.specs.HttpMediaType.{HttpReads, IsHttpMediaType};
ghost use Rattle.mime_http.specs.HttpList.{trimmed, IsPrinted};
ghost use Rattle.mime_http.specs.HttpFaults.{HttpExplains, IsHttpFault, fault_position};
ghost use Rattle.mime_http.specs.{HttpPrinted.field_error_text, declared.value.FieldError.TheVariants.NotUtf8};

use crate::list::{is_space, trim_end, trim_start, trimmed};
use crate::reader::write_anew;
use mime::{Mime, ParseError};
use mime_search::text_of;
use std::alloc::{AllocError, Global};
use std::error::Error;
use std::fmt;
use std::fmt::{InlineText, Write};

/// The reason why a header's value isn't read as a media type. Positions are in bytes, from 0, in the value that was passed.
#[derive(Clone, Copy, PartialEq, Eq, Debug)]
pub enum FieldError {
    /// The value isn't valid UTF-8. Nothing was allocated.
    NotUtf8 {
        /// The position of the first byte that isn't valid UTF-8: the bytes before it are the longest valid prefix.
        pos: usize,
    },
    /// The value isn't a media type, and has this fault. The fault is never `ParseError::NoMemory`.
    Invalid(ParseError),
    /// Memory ran out. This is never returned for a value that isn't a media type, nor for a value that is printed in at most 40 bytes.
    NoMemory,
}

/// Returns the text that is printed for `NotUtf8`, at most 54 bytes. The caller's formatter isn't used: its width would pad the number.
fn not_utf8_text(pos: usize) -> Result<InlineText<64>, fmt::Error>
    ensures { IfOk result (λ text. inline_text text ≡ field_error_text (NotUtf8 pos)) }
{
    let mut text = InlineText::new();
    write!(text, "the value isn't UTF-8 at position {pos}")?;
    Ok(text)
}

/// Prints `mime parse error: ` and the fault, `the value isn't UTF-8 at position ` and `pos`, or `memory ran out`. Ignores a width and a
/// precision.
impl fmt::Display for FieldError {
    ghost output = { λ error. Some (field_error_text error) };

    ghost styled_output = { λ error spec. Some (field_error_text error) };

    fn fmt<W: fmt::Write>(&self, f: &mut fmt::Formatter<W>) -> fmt::Result {
        match self {
            FieldError::NotUtf8 { pos } => f.write_str(not_utf8_text(*pos)?.as_str()),
            FieldError::Invalid(fault) => {
                f.write_str("mime parse error: ")?;
                fmt::Display::fmt(fault, f)
            }
            FieldError::NoMemory => f.write_str("memory ran out"),
        }
    }
}

impl Error for FieldError {}

/// An `AllocError` becomes `NoMemory`, so a function that reads values and allocates can use `?` for both.
impl From<AllocError> for FieldError {
    ghost use Rattle.mime_http.specs.declared.value.FieldError.{FieldError};

    ghost from_gives = { λ _ error. error ≡ FieldError.NoMemory };

    fn from(_error: AllocError) -> FieldError {
        FieldError::NoMemory
    }
}

impl FieldError {
    /// Returns the position of the byte at fault, or the value's length if a part is missing at its end or memory ran out. `value` is the
    /// value that was passed. A caret after as many spaces marks the fault of an ASCII value: position 7 of `   a/b c`.
    pub fn position(&self, value: &[u8]) -> usize
        ensures { result ≡ fault_position value.now self.now }
    {
        match self {
            FieldError::NotUtf8 { pos } => *pos,
            FieldError::Invalid(ParseError::InvalidToken { pos, .. }) => *pos,
            _ => value.len(),
        }
    }
}

/// Returns a header's value without the white space around it (RFC 9110, 5.5), as [`trimmed`](crate::trimmed) does for bytes: `a/b` for
/// ` a/b `.
#[inline(always)]
pub fn trimmed_text(value: &str) -> &str
    ensures { result.now ≡ trimmed value.now }
{
    let left = trimmed(value.as_bytes());
    // SAFETY: white space is ASCII.
    unsafe { str::from_utf8_unchecked(left) }
}

/// Returns the fault of a value if it follows from `fault`, which `mime` returned for the trimmed value. A byte at fault for `mime` is at
/// fault for HTTP, too, unless the byte is white space or a semicolon. A part that is missing for `mime` is missing for HTTP, too, unless
/// white space follows that can't continue it. This function isn't inlined, so that it uses none of the caller's registers.
#[inline(never)]
fn same_fault(value: &[u8], fault: ParseError) -> Option<ParseError>
    ensures { Explains (trimmed value.now) fault → IfSome result (λ same. IsHttpFault value.now same) }
{
    let text = trim_start(value);
    match fault {
        ParseError::InvalidToken { pos, byte } if !is_space(byte) && byte != b';' => {
            let pos = (value.len() - text.len()).checked_add(pos)?;
            Some(ParseError::InvalidToken { pos, byte })
        }
        ParseError::InvalidToken { .. } | ParseError::NoMemory => None,
        // White space doesn't close a quoted string.
        ParseError::MissingQuote => Some(fault),
        _ if trim_end(text).len() < text.len() => None,
        _ => Some(fault),
    }
}

/// Reads a value that `mime` rejects by writing it anew into `room`. This allocates only if more than 40 bytes are printed: a block for
/// them, unless they fit in `room`, and one for the media type.
#[inline(never)]
fn read_into(alloc: Global, value: &str, room: &mut [u8]) -> Result<Mime, FieldError>
    requires room { 40 ≤ length room.now }
    ensures http { ¬ (IsAccepted (trimmed value.now))
        → IfOk result (λ mime. HttpReads value.now mime.media × IsPrinted value.now mime.media) }
    ensures explained { ¬ (IsAccepted (trimmed value.now)) → IfErr result (λ error. HttpExplains value.now error) }
{
    let len = match write_anew(value.as_bytes(), room) {
        Ok(len) => len,
        Err(fault) => return Err(FieldError::Invalid(fault)),
    };
    if len > room.len() {
        let Ok(mut text) = vec![in alloc; 0u8; len] else {
            return Err(FieldError::NoMemory);
        };
        return read_into(alloc, value, &mut text);
    }
    // SAFETY: the text that is written anew for a value in UTF-8 is UTF-8.
    let text = unsafe { str::from_utf8_unchecked(&room[..len]) };
    match Mime::from_str(alloc, text) {
        Ok(mime) => Ok(mime),
        Err(_) => Err(FieldError::NoMemory),
    }
}

/// Reads a header's value that [`Mime::from_str`] rejects, as [`content_type`] does. `fault` is the fault that `Mime::from_str` returned
/// for the [`trimmed_text`] of the value, or `NoMemory`. With another fault, the result says nothing about the value.
///
/// `content_type` calls `Mime::from_str` first, and then this function. A program that does so itself uses what `Mime::from_str` returned
/// directly, so it moves a media type once less. It also learns which values only HTTP allows: `text/html ; charset=utf-8`, for which
/// `fault` is an `InvalidToken` at position 9, is one of them, and is read as `text/html; charset=utf-8`.
///
/// # Errors
/// Returns the error that `content_type` returns for the value.
#[inline(always)]
pub fn content_type_after(alloc: Global, value: &str, fault: ParseError) -> Result<Mime, FieldError>
    // If `fault` is the fault of the value without the white space around it, the result is that of `content_type`.
    ensures http { Explains (trimmed value.now) fault
        → IfOk result (λ mime. HttpReads value.now mime.media × IsPrinted value.now mime.media) }
    ensures explained { Explains (trimmed value.now) fault → IfErr result (λ error. HttpExplains value.now error) }
{
    match fault {
        // Most values that only HTTP allows have one of these bytes where `mime` rejects them.
        ParseError::InvalidToken {
            byte: b' ' | b'\t' | b';',
            ..
        } => {}
        ParseError::NoMemory => return Err(FieldError::NoMemory),
        _ => {
            if let Some(fault) = same_fault(value.as_bytes(), fault) {
                return Err(FieldError::Invalid(fault));
            }
        }
    }
    // The result is matched and made anew, so that the caller reserves no stack for it if `mime` accepts the value.
    match read_into(alloc, value, &mut [0; 128]) {
        Ok(mime) => Ok(mime),
        Err(error) => Err(error),
    }
}

/// Reads the value of a header such as `Content-Type` as a media type, from bytes as they are received (RFC 9110, 8.3.1, with 5.6.3, 5.6.4
/// and 5.6.6). Accepts each value in UTF-8 that the grammar in these sections allows, even with white space around semicolons
/// and with empty parameters. White space around the value is allowed, too. A non-ASCII value that isn't UTF-8 (obs-text) is rejected.
///
/// A request may have only one `Content-Type` line. Treat two such lines as an error, since programs differ in which line they use. A body
/// without a `Content-Type` may be treated as `application/octet-stream` (8.3).
///
/// The white space around the value is removed. A value that [`Mime::from_str`] then accepts is read as it is. Any other value is printed
/// anew: its essence, and its parameters as [`with_parameter`](crate::with_parameter) writes those that it keeps. So
/// ` text/html ;; charset="utf-8"` is printed as `text/html; charset=utf-8`. The values of parameters keep their backslashes.
///
/// This doesn't allocate if the value is rejected, or if at most 40 bytes are printed. Otherwise, it allocates one block. If more than 128
/// bytes are printed anew, it allocates two, and frees one of the two.
///
/// # Errors
/// Returns `NotUtf8` if the value isn't valid UTF-8. Returns `Invalid` with the fault if the value isn't a media type. The fault's position
/// counts from the start of `value`: 7 for `   a/b c`. Returns `NoMemory` if memory runs out, which never happens for a value that isn't a
/// media type, nor for a value that is printed in at most 40 bytes.
#[inline(always)]
pub fn content_type(alloc: Global, value: &[u8]) -> Result<Mime, FieldError>
    // The result is the media type that HTTP defines.
    ensures http { IfOk result (λ mime. IsUtf8 value.now × HttpReads value.now mime.media) }
    // It is printed as the text that `IsPrinted` defines for the value.
    ensures kept { IfOk result (λ mime. IsPrinted value.now mime.media) }
    // An error is the position at which the value isn't UTF-8, its fault, or `NoMemory`.
    ensures explained { IfErr result (λ error. HttpExplains value.now error) }
    // So a value in UTF-8 that HTTP allows is read, unless memory runs out.
    ensures accepted { IsUtf8 value.now → IsHttpMediaType value.now → IfErr result (λ error. error ≡ FieldError.NoMemory) }
    // `*/*` is always read, and so is a value that is printed in at most 40 bytes.
    ensures star { value.now ≡ codes "*/*" → IsOk result }
    ensures short { (media : MediaType) → IsUtf8 value.now → HttpReads value.now media → IsPrinted value.now media → length media.kept ≤ 40
        → IsOk result }
    // Rejecting a value needs no memory.
    ensures rejected { ¬ (IsHttpMediaType value.now) → IfErr result (λ error. error ≢ FieldError.NoMemory) }
{
    let text = match text_of(value) {
        Ok(text) => text,
        Err(pos) => return Err(FieldError::NotUtf8 { pos }),
    };
    match Mime::from_str(alloc, trimmed_text(text)) {
        Ok(mime) => Ok(mime),
        Err(error) => content_type_after(alloc, text, *error.fault()),
    }
}
