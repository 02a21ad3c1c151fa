//! Common names. Each ignores case, and has no ASCII capital.

use crate::name::Name;

/// Creates a name that has this text and ignores case.
macro_rules! name {
    ($text:literal) => {
        Name {
            text: $text,
            ignores_case: true,
        }
    };
}

/// Creates the list of these names.
macro_rules! names {
    ($($name:ident)*) => {
        [$($name),*]
    };
}

/// The type or subtype `*` of a media range, as in `text/*` (RFC 7231, 5.3.2).
pub const STAR: Name<'static> = name!("*");

/// The type `text`, as in `text/plain` (RFC 6838, 4.2.1).
pub const TEXT: Name<'static> = name!("text");

/// The type `image`, as in `image/png` (RFC 6838, 4.2.2).
pub const IMAGE: Name<'static> = name!("image");

/// The type `audio`, as in `audio/mpeg` (RFC 6838, 4.2.3).
pub const AUDIO: Name<'static> = name!("audio");

/// The type `video`, as in `video/mp4` (RFC 6838, 4.2.4).
pub const VIDEO: Name<'static> = name!("video");

/// The type `application`, as in `application/json` (RFC 6838, 4.2.5).
pub const APPLICATION: Name<'static> = name!("application");

/// The type `multipart`, as in `multipart/form-data` (RFC 6838, 4.2.6).
pub const MULTIPART: Name<'static> = name!("multipart");

/// The type `message`, as in `message/rfc822` (RFC 6838, 4.2.6).
pub const MESSAGE: Name<'static> = name!("message");

/// The type `model`, as in `model/mesh` (RFC 2077).
pub const MODEL: Name<'static> = name!("model");

/// The type `font`, as in `font/woff2` (RFC 8081).
pub const FONT: Name<'static> = name!("font");

/// The subtype `plain`, as in `text/plain` (RFC 2046, 4.1.3).
pub const PLAIN: Name<'static> = name!("plain");

/// The subtype `html`, as in `text/html` (RFC 2854).
pub const HTML: Name<'static> = name!("html");

/// The subtype or suffix `xml`, as in `text/xml` and `image/svg+xml` (RFC 7303).
pub const XML: Name<'static> = name!("xml");

/// The subtype `javascript`, as in `text/javascript` (RFC 9239).
pub const JAVASCRIPT: Name<'static> = name!("javascript");

/// The subtype `css`, as in `text/css` (RFC 2318).
pub const CSS: Name<'static> = name!("css");

/// The subtype `csv`, as in `text/csv` (RFC 4180).
pub const CSV: Name<'static> = name!("csv");

/// The subtype `event-stream`, as in `text/event-stream` (the HTML standard).
pub const EVENT_STREAM: Name<'static> = name!("event-stream");

/// The subtype `vcard`, as in `text/vcard` (RFC 6350).
pub const VCARD: Name<'static> = name!("vcard");

/// The subtype or suffix `json`, as in `application/json` (RFC 8259) and `application/problem+json` (RFC 6839, 3.1).
pub const JSON: Name<'static> = name!("json");

/// The subtype `x-www-form-urlencoded`, as in `application/x-www-form-urlencoded` (the URL standard).
pub const WWW_FORM_URLENCODED: Name<'static> = name!("x-www-form-urlencoded");

/// The subtype `msgpack`, as in `application/msgpack` (the MessagePack format).
pub const MSGPACK: Name<'static> = name!("msgpack");

/// The subtype `octet-stream`, as in `application/octet-stream` (RFC 2046, 4.5.1).
pub const OCTET_STREAM: Name<'static> = name!("octet-stream");

/// The subtype `pdf`, as in `application/pdf` (RFC 8118).
pub const PDF: Name<'static> = name!("pdf");

/// The subtype `woff`, as in `font/woff` (RFC 8081).
pub const WOFF: Name<'static> = name!("woff");

/// The subtype `woff2`, as in `font/woff2` (RFC 8081).
pub const WOFF2: Name<'static> = name!("woff2");

/// The subtype `form-data`, as in `multipart/form-data` (RFC 7578).
pub const FORM_DATA: Name<'static> = name!("form-data");

/// The subtype `bmp`, as in `image/bmp` (RFC 7903).
pub const BMP: Name<'static> = name!("bmp");

/// The subtype `gif`, as in `image/gif` (RFC 2046, 3).
pub const GIF: Name<'static> = name!("gif");

/// The subtype `jpeg`, as in `image/jpeg` (RFC 2046, 4.2).
pub const JPEG: Name<'static> = name!("jpeg");

/// The subtype `png`, as in `image/png` (the PNG specification).
pub const PNG: Name<'static> = name!("png");

/// The subtype `svg`, as in `image/svg+xml` (the SVG specification).
pub const SVG: Name<'static> = name!("svg");

/// The subtype `basic`, as in `audio/basic` (RFC 2046, 4.3).
pub const BASIC: Name<'static> = name!("basic");

/// The subtype `mpeg`, as in `audio/mpeg` (RFC 3003).
pub const MPEG: Name<'static> = name!("mpeg");

/// The subtype `mp4`, as in `video/mp4` (RFC 4337).
pub const MP4: Name<'static> = name!("mp4");

/// The subtype `ogg`, as in `audio/ogg` (RFC 5334).
pub const OGG: Name<'static> = name!("ogg");

/// The parameter name `charset`, as in `text/html; charset=utf-8` (RFC 7231, 3.1.1.2).
pub const CHARSET: Name<'static> = name!("charset");

/// The parameter name `boundary`, as in `multipart/form-data; boundary=x` (RFC 2046, 5.1.1).
pub const BOUNDARY: Name<'static> = name!("boundary");

/// The value `utf-8` of a `charset`, as in `text/html; charset=utf-8` (RFC 3629).
pub const UTF_8: Name<'static> = name!("utf-8");

/// All constant names, for the law `name_constants`. In the law's body, each name would add a step to the law's proof.
pub(crate) static NAMES: [Name<'static>; 38] = names!(
    STAR TEXT IMAGE AUDIO VIDEO APPLICATION MULTIPART MESSAGE MODEL FONT PLAIN HTML XML JAVASCRIPT
    CSS CSV EVENT_STREAM VCARD JSON WWW_FORM_URLENCODED MSGPACK OCTET_STREAM PDF WOFF WOFF2
    FORM_DATA BMP GIF JPEG PNG SVG BASIC MPEG MP4 OGG CHARSET BOUNDARY UTF_8
);
