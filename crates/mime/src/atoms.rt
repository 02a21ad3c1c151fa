//! The constant media types.

ghost use Rattle.std.specs.Fmt.{debug_str, styled_text};
ghost use Rattle.std.specs.Prelude.{◌≡◌, true, Some};
ghost use Rattle.mime.specs.Values.{Reads};
ghost use Rattle.mime.specs.Atoms.{atom_text};
ghost use Rattle.mime.specs.Inner.KeptText.{positions_in};

use crate::scan::Positions;
use crate::value::Mime;
use std::fmt;

/// A constant media type (RFC 7231, 3.1.1.1). [`Atom::mime`] returns it as a [`Mime`], and [`Atom::text`] as a string:
/// `TEXT_PLAIN.mime()` is the media type `text/plain`. An `Atom` can be matched and copied, and never allocates. A `match` needs an arm
/// for other constants, since a later version may have more. `Atom` doesn't implement `Ord`, but `Mime` does.
///
/// The crate root exports each variant, such as [`TEXT_PLAIN`](crate::TEXT_PLAIN), so that a `match` can name it:
///
/// ```rust
/// use mime::{Atom, IMAGE_PNG, TEXT_HTML, TEXT_HTML_UTF_8};
///
/// /// Returns the file extension of a constant media type, or `None` if this function knows no extension.
/// pub fn extension(atom: Atom) -> Option<&'static str> {
///     match atom {
///         TEXT_HTML | TEXT_HTML_UTF_8 => Some("html"),
///         IMAGE_PNG => Some("png"),
///         _ => None,
///     }
/// }
/// ```
///
/// IANA's registry of media types (RFC 6838) lists most of the constants. Constants with a `*` are media ranges (RFC 7231, 5.3.2).
#[derive(Clone, Copy, PartialEq, Eq, Hash)]
#[allow(non_camel_case_types)]
#[non_exhaustive]
pub enum Atom {
    /// `*/*`
    STAR_STAR,
    /// `text/*`
    TEXT_STAR,
    /// `text/plain`
    TEXT_PLAIN,
    /// `text/plain; charset=utf-8`
    TEXT_PLAIN_UTF_8,
    /// `text/html`
    TEXT_HTML,
    /// `text/html; charset=utf-8`
    TEXT_HTML_UTF_8,
    /// `text/css`
    TEXT_CSS,
    /// `text/css; charset=utf-8`
    TEXT_CSS_UTF_8,
    /// `text/javascript`
    TEXT_JAVASCRIPT,
    /// `text/xml`
    TEXT_XML,
    /// `text/event-stream`
    TEXT_EVENT_STREAM,
    /// `text/csv`
    TEXT_CSV,
    /// `text/csv; charset=utf-8`
    TEXT_CSV_UTF_8,
    /// `text/tab-separated-values`
    TEXT_TAB_SEPARATED_VALUES,
    /// `text/tab-separated-values; charset=utf-8`
    TEXT_TAB_SEPARATED_VALUES_UTF_8,
    /// `text/vcard`
    TEXT_VCARD,
    /// `image/*`
    IMAGE_STAR,
    /// `image/jpeg`
    IMAGE_JPEG,
    /// `image/gif`
    IMAGE_GIF,
    /// `image/png`
    IMAGE_PNG,
    /// `image/bmp`
    IMAGE_BMP,
    /// `image/svg+xml`
    IMAGE_SVG,
    /// `font/woff`
    FONT_WOFF,
    /// `font/woff2`
    FONT_WOFF2,
    /// `application/json`
    APPLICATION_JSON,
    /// `application/javascript`
    APPLICATION_JAVASCRIPT,
    /// `application/javascript; charset=utf-8`
    APPLICATION_JAVASCRIPT_UTF_8,
    /// `application/x-www-form-urlencoded`
    APPLICATION_WWW_FORM_URLENCODED,
    /// `application/octet-stream`
    APPLICATION_OCTET_STREAM,
    /// `application/msgpack`
    APPLICATION_MSGPACK,
    /// `application/pdf`
    APPLICATION_PDF,
    /// `multipart/form-data`
    MULTIPART_FORM_DATA,
}

/// The old spelling of [`TEXT_JAVASCRIPT`].
pub const TEXT_JAVSCRIPT: Atom = Atom::TEXT_JAVASCRIPT;

/// A constant's string, with the positions of its slash, and of its plus and its semicolon, if any.
type Row = (&'static str, usize, Option<usize>, Option<usize>);

/// The constants, in the order of the variants of [`Atom`].
static TABLE: [Row; 32] = [
    ("*/*", 1, None, None),
    ("text/*", 4, None, None),
    ("text/plain", 4, None, None),
    ("text/plain; charset=utf-8", 4, None, Some(10)),
    ("text/html", 4, None, None),
    ("text/html; charset=utf-8", 4, None, Some(9)),
    ("text/css", 4, None, None),
    ("text/css; charset=utf-8", 4, None, Some(8)),
    ("text/javascript", 4, None, None),
    ("text/xml", 4, None, None),
    ("text/event-stream", 4, None, None),
    ("text/csv", 4, None, None),
    ("text/csv; charset=utf-8", 4, None, Some(8)),
    ("text/tab-separated-values", 4, None, None),
    (
        "text/tab-separated-values; charset=utf-8",
        4,
        None,
        Some(25),
    ),
    ("text/vcard", 4, None, None),
    ("image/*", 5, None, None),
    ("image/jpeg", 5, None, None),
    ("image/gif", 5, None, None),
    ("image/png", 5, None, None),
    ("image/bmp", 5, None, None),
    ("image/svg+xml", 5, Some(9), None),
    ("font/woff", 4, None, None),
    ("font/woff2", 4, None, None),
    ("application/json", 11, None, None),
    ("application/javascript", 11, None, None),
    ("application/javascript; charset=utf-8", 11, None, Some(22)),
    ("application/x-www-form-urlencoded", 11, None, None),
    ("application/octet-stream", 11, None, None),
    ("application/msgpack", 11, None, None),
    ("application/pdf", 11, None, None),
    ("multipart/form-data", 9, None, None),
];

impl Atom {
    /// Returns the constant's string, and the positions of its parts.
    #[inline]
    fn constant(self) -> (&'static str, Positions)
        ensures text { result.0.now ≡ atom_text self }
        ensures positions { result.1 ≡ positions_in (atom_text self) }
    {
        let (text, slash, plus, semicolon) = TABLE[self as usize];
        let positions = Positions {
            slash,
            plus,
            semicolon,
            pair_count: semicolon.is_some() as usize,
        };
        (text, positions)
    }

    /// Returns the constant as a string: `text/plain` for `TEXT_PLAIN`.
    pub fn text(self) -> &'static str
        ensures { result.now ≡ atom_text self }
    {
        self.constant().0
    }

    /// Returns the constant as a media type (RFC 7231, 3.1.1.1). Neither this call nor cloning its result allocates.
    /// `TEXT_PLAIN_UTF_8.mime()` is equal to the media type read from `text/plain;charset="utf-8"`.
    pub fn mime(self) -> Mime
        ensures reads { Reads (atom_text self) result.media }
        ensures kept { result.media.kept ≡ atom_text self }
        ensures fixed { result.fixed ≡ true }
    {
        let (text, positions) = self.constant();
        Mime::fixed(text, positions)
    }
}

/// Prints the constant as a `str` is printed, padded to a width and truncated to a precision: `TEXT_PLAIN` prints `text/plain`.
impl fmt::Display for Atom {
    ghost output = { λ atom. Some (atom_text atom) };

    ghost styled_output = { λ atom spec. Some (styled_text spec (atom_text atom)) };

    fn fmt<W: fmt::Write>(&self, f: &mut fmt::Formatter<W>) -> fmt::Result {
        fmt::Display::fmt(self.text(), f)
    }
}

/// Prints the constant as a string in quotes: `TEXT_PLAIN` prints `"text/plain"`.
impl fmt::Debug for Atom {
    ghost debug_output = { λ atom. debug_str (atom_text atom) };

    fn fmt<W: fmt::Write>(&self, f: &mut fmt::Formatter<W>) -> fmt::Result {
        fmt::Debug::fmt(self.text(), f)
    }
}
