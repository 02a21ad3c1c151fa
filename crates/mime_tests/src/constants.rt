//! The constants, and the rows about constants and bytes.

use crate::values::show_copy;
use mime::{
    Atom, Bad, FromStrError, KnownText, Mime, MimeIter, Name, Params, ParseError, TextKey,
    is_quoted_byte, is_quoted_text_byte, is_token,
};
use std::alloc::Global;
use std::fmt;
use std::fmt::Write;

/// Constants of `mime`, each with its identifier.
macro_rules! named {
    ($($constant:ident)*) => {
        &[$((stringify!($constant), mime::$constant)),*]
    };
}

/// The constant media types, each with its identifier. The last is the old spelling of `TEXT_JAVASCRIPT`.
pub(crate) static ATOMS: &[(&str, Atom)] = named!(
    STAR_STAR TEXT_STAR TEXT_PLAIN TEXT_PLAIN_UTF_8 TEXT_HTML TEXT_HTML_UTF_8 TEXT_CSS
    TEXT_CSS_UTF_8 TEXT_JAVASCRIPT TEXT_XML TEXT_EVENT_STREAM TEXT_CSV TEXT_CSV_UTF_8
    TEXT_TAB_SEPARATED_VALUES TEXT_TAB_SEPARATED_VALUES_UTF_8 TEXT_VCARD IMAGE_STAR IMAGE_JPEG
    IMAGE_GIF IMAGE_PNG IMAGE_BMP IMAGE_SVG FONT_WOFF FONT_WOFF2 APPLICATION_JSON
    APPLICATION_JAVASCRIPT APPLICATION_JAVASCRIPT_UTF_8 APPLICATION_WWW_FORM_URLENCODED
    APPLICATION_OCTET_STREAM APPLICATION_MSGPACK APPLICATION_PDF MULTIPART_FORM_DATA TEXT_JAVSCRIPT
);

/// The constant names, each with its identifier.
static NAMES: &[(&str, Name<'static>)] = named!(
    STAR TEXT IMAGE AUDIO VIDEO APPLICATION MULTIPART MESSAGE MODEL FONT PLAIN HTML XML JAVASCRIPT
    CSS CSV EVENT_STREAM VCARD JSON WWW_FORM_URLENCODED MSGPACK OCTET_STREAM PDF WOFF WOFF2
    FORM_DATA BMP GIF JPEG PNG SVG BASIC MPEG MP4 OGG CHARSET BOUNDARY UTF_8
);

/// Returns the value that a field stands for: the constant with this identifier, or else the media type that the field is read as.
pub(crate) fn value_of(alloc: Global, field: &str) -> Result<Mime, FromStrError> {
    match ATOMS.iter().find(|(identifier, _)| *identifier == field) {
        Some((_, atom)) => Ok(atom.mime()),
        None => Mime::from_str(alloc, field),
    }
}

/// Returns the constant name with an identifier, or `None` if there is none.
pub(crate) fn constant_name(field: &str) -> Option<Name<'static>> {
    let (_, name) = NAMES.iter().find(|(identifier, _)| *identifier == field)?;
    Some(*name)
}

/// A name as answers show it: the identifier of the constant that is equal to it, or its text in quotes.
#[derive(Clone, Copy)]
pub(crate) struct Shown<'a>(pub(crate) Name<'a>);

impl fmt::Debug for Shown<'_> {
    fn fmt<W: fmt::Write>(&self, f: &mut fmt::Formatter<W>) -> fmt::Result {
        match NAMES.iter().find(|(_, name)| *name == self.0) {
            Some((identifier, _)) => f.write_str(identifier),
            None => fmt::Debug::fmt(&self.0, f),
        }
    }
}

/// A trait for types whose values may be sent to other threads and shared between threads. An impl for a tuple with any other type doesn't
/// compile.
trait CrossesThreads: Send + Sync {}

impl CrossesThreads
    for (
        Mime,
        KnownText<'_>,
        Params<'_>,
        Name<'_>,
        Atom,
        MimeIter<'_>,
        Bad<'_>,
        TextKey<'_>,
        ParseError,
        FromStrError,
    ) {}

/// Shows the copies of the constant media types.
pub(crate) fn show_copies(out: &mut String) {
    for (_, atom) in ATOMS {
        show_copy(out, &atom.mime());
    }
}

/// Shows each byte, and whether it may occur in a token, in a quoted string without a backslash before it, and after a backslash.
pub(crate) fn show_bytes(out: &mut String) {
    for byte in 0..=255u8 {
        let classes = (
            is_token(byte),
            is_quoted_text_byte(byte),
            is_quoted_byte(byte),
        );
        let _ = writeln!(out, "{byte} {classes:?}");
    }
}
