//! A digest of results: a number that depends on all of them.

use mime::{Mime, Name, ParseError};
use mime_http::FieldError;
use std::hash::{FoldHasher, Hasher};

/// The digest of the results so far.
#[derive(Drop)]
pub(crate) struct Digest {
    hasher: FoldHasher,
}

impl Digest {
    pub(crate) fn new() -> Digest {
        Digest {
            hasher: FoldHasher::default(),
        }
    }

    #[inline]
    pub(crate) fn bytes(&mut self, bytes: &[u8]) {
        self.hasher.write(bytes);
    }

    #[inline]
    pub(crate) fn text(&mut self, text: &str) {
        self.bytes(text.as_bytes());
    }

    #[inline]
    pub(crate) fn number(&mut self, number: usize) {
        self.hasher.write(&(number as u64).to_le_bytes());
    }

    #[inline]
    pub(crate) fn flag(&mut self, flag: bool) {
        self.number(flag as usize);
    }

    /// Adds the essence of a media type, but not its text, since the start (docs/PERF.md) printed some values differently.
    #[inline]
    pub(crate) fn media_type(&mut self, mime: &Mime) {
        self.text(mime.essence_str());
    }

    /// Adds the result of a look-up.
    #[inline]
    pub(crate) fn found(&mut self, found: Option<Name<'_>>) {
        match found {
            Some(name) => {
                self.text(name.text);
                self.flag(name.ignores_case);
            }
            None => self.number(7),
        }
    }

    /// Adds the fault of a string.
    pub(crate) fn fault(&mut self, fault: &ParseError) {
        match fault {
            ParseError::MissingSlash => self.number(1),
            ParseError::MissingSubtype => self.number(2),
            ParseError::MissingEqual => self.number(3),
            ParseError::MissingValue => self.number(4),
            ParseError::MissingQuote => self.number(5),
            ParseError::InvalidToken { pos, byte } => {
                self.number(*pos);
                self.number(*byte as usize);
            }
            ParseError::NoMemory => self.number(6),
        }
    }

    /// Adds the error of a header's value.
    pub(crate) fn field_error(&mut self, error: &FieldError) {
        match error {
            FieldError::NotUtf8 { pos } => self.number(*pos),
            FieldError::Invalid(fault) => self.fault(fault),
            FieldError::NoMemory => self.number(8),
        }
    }

    pub(crate) fn finish(&self) -> u64 {
        self.hasher.finish()
    }
}
