//! The reason why a string is rejected, and how the reason is printed.

ghost use Rattle.std.specs.Prelude.{◌≡◌, IfOk, Some};
ghost use Rattle.std.specs.Fmt.InlineText.{inline_text};
ghost use Rattle.mime.specs.Printed.{fault_text};
ghost use Rattle.mime.specs.declared.scan.fault.ParseError.TheVariants.{InvalidToken};

use std::error::Error;
use std::fmt;
use std::fmt::{InlineText, Write};
use std::marker::Model;

/// The reason why a string isn't read as a media type (RFC 7231, 3.1.1.1).
#[derive(Clone, Copy, PartialEq, Eq, Debug)]
pub enum ParseError {
    /// The string ends in its type, as in `text`, or is empty: at least a `/` and a subtype are missing.
    MissingSlash,
    /// The string ends in its slash: a subtype is missing, as in `text/`.
    MissingSubtype,
    /// The string ends in a parameter's name: a `=` and a value are missing, as in `a/b;p`.
    MissingEqual,
    /// The string ends in a parameter's equals sign: a value is missing, as in `a/b;p=`.
    MissingValue,
    /// The string ends in an open quoted string: a closing `"` is missing, as in `a/b;p="x`. If the string ends in an
    /// unpaired backslash, as in `a/b;p="\`, the other byte of the quoted pair is missing, too.
    MissingQuote,
    /// The string has a byte that can't continue a media type, such as the space in `a b`. Some media type begins with
    /// the bytes before this byte, but none with the bytes up to and including it.
    InvalidToken {
        /// The position of the byte, in bytes from 0.
        pos: usize,
        /// The byte, which is the first of its character.
        byte: u8,
    },
    /// The string is a media type whose kept text has more than 40 bytes, and memory ran out.
    NoMemory,
}

/// Returns the text, of at most 69 bytes, that `InvalidToken { pos, byte }` prints. This function doesn't use the
/// caller's formatter, whose width would pad each number.
fn token_text(pos: usize, byte: u8) -> Result<InlineText<80>, fmt::Error>
    ensures { IfOk result (λ text. inline_text text ≡ fault_text (InvalidToken pos byte)) }
{
    let mut text = InlineText::new();
    write!(
        text,
        "an invalid token was encountered, {byte:X} at position {pos}"
    )?;
    Ok(text)
}

/// Prints what is missing, or the invalid byte in uppercase hexadecimal with its position in decimal, or that memory
/// ran out. A width and a precision are ignored.
///
/// The fault of `text/;` prints `an invalid token was encountered, 3B at position 5`.
impl fmt::Display for ParseError {
    ghost output = { λ fault. Some (fault_text fault) };

    ghost styled_output = { λ fault spec. Some (fault_text fault) };

    fn fmt<W: fmt::Write>(&self, f: &mut fmt::Formatter<W>) -> fmt::Result {
        f.write_str(match self {
            ParseError::MissingSlash => "a slash (/) was missing between the type and subtype",
            ParseError::MissingSubtype => "a subtype was missing behind the slash (/)",
            ParseError::MissingEqual => {
                "an equals sign (=) was missing between a parameter and its value"
            }
            ParseError::MissingValue => "a value was missing behind the equals sign (=)",
            ParseError::MissingQuote => "a quote (\") was missing from a parameter value",
            ParseError::InvalidToken { pos, byte } => {
                return f.write_str(token_text(*pos, *byte)?.as_str());
            }
            ParseError::NoMemory => "memory ran out",
        })
    }
}

impl Error for ParseError {}

/// The error of `Mime::from_str`: the reason why a string isn't read as a media type (RFC 7231, 3.1.1.1). The error of
/// `text` prints `mime parse error: a slash (/) was missing between the type and subtype`.
#[derive(Debug, Drop)]
pub struct FromStrError {
    fault: ParseError,
}

impl Model for FromStrError {
    ghost use Rattle.mime.specs.declared.scan.fault.ParseError.{ParseError};

    ghost Value = { ParseError };

    ghost view = { λ error. error.fault };
}

impl FromStrError {
    /// Creates an error with this fault.
    pub(crate) fn new(fault: ParseError) -> FromStrError
        ensures { result ≡ fault }
    {
        FromStrError { fault }
    }

    /// Returns the fault (RFC 7231, 3.1.1.1), with positions in bytes from 0. The fault of `text/;` is
    /// `InvalidToken { pos: 5, byte: b';' }`.
    pub fn fault(&self) -> &ParseError
        ensures { result.now ≡ self.now }
    {
        &self.fault
    }
}

/// Prints `mime parse error: ` and then the fault. A width and a precision are ignored.
impl fmt::Display for FromStrError {
    ghost use Rattle.mime.specs.Printed.{error_text};

    ghost output = { λ error. Some (error_text error) };

    ghost styled_output = { λ error spec. Some (error_text error) };

    fn fmt<W: fmt::Write>(&self, f: &mut fmt::Formatter<W>) -> fmt::Result {
        f.write_str("mime parse error: ")?;
        fmt::Display::fmt(self.fault(), f)
    }
}

impl Error for FromStrError {}
