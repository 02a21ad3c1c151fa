//! Reads, stores, compares and prints media types such as `text/plain; charset=utf-8` (RFC 7231, 3.1.1.1). This crate
//! is a port of the Rust crate `mime` 0.3. Contracts state its promises, and a prover checks them.
//!
//! [`Mime::from_str`] reads a media type from a string, [`MimeIter`] finds the media types in a string, and
//! [`mime_eq_str`] compares a media type with a string. There are 38 constant names such as [`CHARSET`], and 32
//! constant media types such as [`TEXT_PLAIN_UTF_8`]. [`laws`] states what is true of all values.
//!
//! To read HTTP headers, use `content_type` and `Accept` of the crate `mime_http`: HTTP allows white space and empty
//! parameters that this crate rejects.
//!
//! # Example
//! This function checks whether the charset of a media type is UTF-8:
//!
//! ```rust
//! use mime::{CHARSET, Mime, name_eq_str};
//!
//! /// Returns `true` if a media type has the charset UTF-8, as `TEXT/HTML; Charset="UTF-8"` has. Of two charsets the first counts.
//! pub fn is_utf8(mime: &Mime) -> bool {
//!     mime.get_param(CHARSET)
//!         .is_some_and(|charset| name_eq_str(&charset, "utf-8"))
//! }
//! ```
//!
//! # Errors
//! A string that isn't a media type is rejected with its fault, a [`ParseError`]. The fault is what is missing at the string's end, or else
//! the first byte that can't continue a media type. Positions count bytes from 0. [`MimeIter`] yields a piece that isn't a media type as
//! [`Bad::Piece`]. A bad entry doesn't affect the entries after it, unless it ends in an open quoted string. The last entry isn't yielded
//! if it is only the beginning of a media type, such as `text/`.
//!
//! # Memory
//! `Mime::from_str`, `MimeIter::new` and `KnownText::into_mime` take the allocator. Reading or making a media type whose
//! kept text has more than 40 bytes allocates at most once. So does each `clone` of this media type. If memory runs out,
//! an error is returned. Nothing else allocates. A kept text of at most 40 bytes is stored in the `Mime` itself.
//!
//! # Standards
//! The grammar follows RFC 7231 and RFC 7230, with the departures that docs/DIFFERENCES.md lists. RFC 9110 (8.3.1,
//! 5.6.4, 5.6.6) replaced these RFCs in 2022. RFC 9110 allows a missing parameter after any semicolon. This crate
//! allows it only after the last semicolon: it reads `a/b;`, but not `a/b;;p=x`.
//!
//! # Left out
//! This crate doesn't interpret media types. `mime_http` interprets ranges, weights, `Accept` and quoted pairs. A
//! recipe maps file extensions to media types. docs/DIFFERENCES.md lists the differences from the Rust crate and from
//! RFC 7231, crates/mime/CALLING.md lists every contract, and docs/RECIPES.md solves common tasks.
//!
//! This is version 1.0.0. README.md says what may change within 1.x.
#![tactic(auto)]

mod atoms;
mod bytes;
mod compare;
mod iter;
pub mod laws;
mod name;
mod scan;
mod value;

pub use crate::atoms::Atom::{
    APPLICATION_JAVASCRIPT, APPLICATION_JAVASCRIPT_UTF_8, APPLICATION_JSON, APPLICATION_MSGPACK,
    APPLICATION_OCTET_STREAM, APPLICATION_PDF, APPLICATION_WWW_FORM_URLENCODED, FONT_WOFF,
    FONT_WOFF2, IMAGE_BMP, IMAGE_GIF, IMAGE_JPEG, IMAGE_PNG, IMAGE_STAR, IMAGE_SVG,
    MULTIPART_FORM_DATA, STAR_STAR, TEXT_CSS, TEXT_CSS_UTF_8, TEXT_CSV, TEXT_CSV_UTF_8,
    TEXT_EVENT_STREAM, TEXT_HTML, TEXT_HTML_UTF_8, TEXT_JAVASCRIPT, TEXT_PLAIN, TEXT_PLAIN_UTF_8,
    TEXT_STAR, TEXT_TAB_SEPARATED_VALUES, TEXT_TAB_SEPARATED_VALUES_UTF_8, TEXT_VCARD, TEXT_XML,
};
pub use crate::atoms::{Atom, TEXT_JAVSCRIPT};
pub use crate::bytes::{is_quoted_byte, is_quoted_text_byte, is_token};
pub use crate::compare::mime_eq_str;
pub use crate::iter::{Bad, MimeIter};
pub use crate::name::constants::{
    APPLICATION, AUDIO, BASIC, BMP, BOUNDARY, CHARSET, CSS, CSV, EVENT_STREAM, FONT, FORM_DATA,
    GIF, HTML, IMAGE, JAVASCRIPT, JPEG, JSON, MESSAGE, MODEL, MP4, MPEG, MSGPACK, MULTIPART,
    OCTET_STREAM, OGG, PDF, PLAIN, PNG, STAR, SVG, TEXT, UTF_8, VCARD, VIDEO, WOFF, WOFF2,
    WWW_FORM_URLENCODED, XML,
};
pub use crate::name::{Name, ParamKey, TextKey, name_eq_str};
pub use crate::scan::{FromStrError, ParseError};
pub use crate::value::{KnownText, Mime, Params};
