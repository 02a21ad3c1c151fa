//! The calls for parameters. Two calls write what a parameter means, and one call writes a media type with a parameter.

ghost use Rattle.std.specs.Prelude.{◌≡◌, ◌<◌, length};
ghost use Rattle.mime_c.specs.Strings.{string_of, overwritten};
ghost use Rattle.mime_c.specs.ParameterAnswers.{BoundaryIs, UnescapesTo, SetsTo};

use crate::{
    MIME_BAD_PARAMETER, MIME_NO_BOUNDARY, MIME_NO_MEMORY, MIME_NO_ROOM, MIME_OK, copy,
    number_of_error,
};
use mime_http::{boundary, content_type, with_parameter};
use mime_search::{copy_meant, text_of};
use std::alloc::Global;

/// The maximum length of a boundary (RFC 2046, 5.1.1) with the 0 after it, in bytes.
const BOUNDARY_ROOM: usize = 71;

/// Writes a text and a 0 at the start of `out`, and returns the length of the text.
fn put_string(out: &mut [u8], text: &[u8]) -> usize
    requires { length text.now < length out.old }
    ensures bytes { out.new ≡ overwritten (string_of text.now) out.old }
    ensures size { result ≡ length text.now }
{
    out[text.len()] = 0;
    copy(out, 0, text)
}

/// Writes the boundary of a body whose `Content-Type` is `value` (RFC 2046, 5.1.1) to `out`, which must have at least 71 bytes. Sets `size`
/// to the number of bytes of the boundary. Returns `MIME_OK`, or another answer of include/mime.h if it wrote nothing.
#[unsafe(no_mangle)]
pub extern "C" fn mime_boundary(
    alloc: Global,
    value: &[u8],
    out: &mut [u8],
    size: &mut usize,
) -> u32
    ensures { BoundaryIs value.now out.old result (out.new, size.new) }
{
    *size = 0;
    if out.len() < BOUNDARY_ROOM {
        return MIME_NO_ROOM;
    }
    let mime = match content_type(alloc, value) {
        Ok(mime) => mime,
        Err(error) => return number_of_error(&error),
    };
    match boundary(alloc, &mime) {
        Ok(Some(found)) => {
            *size = put_string(out, &found);
            MIME_OK
        }
        Ok(None) => MIME_NO_BOUNDARY,
        Err(_) => MIME_NO_MEMORY,
    }
}

/// Writes the bytes that a parameter's value means (RFC 9110, 5.6.4) to `out`, which must have at least `value.len() + 1` bytes, and sets
/// `size` to their number. `a\"b` means `a"b`. Returns `MIME_OK`, or `MIME_NO_ROOM` if it wrote nothing.
#[unsafe(no_mangle)]
pub extern "C" fn mime_unescape(value: &[u8], out: &mut [u8], size: &mut usize) -> u32
    ensures { UnescapesTo value.now out.old result (out.new, size.new) }
{
    *size = 0;
    if out.len() <= value.len() {
        return MIME_NO_ROOM;
    }
    let end = copy_meant(out, value);
    copy(out, end, b"\0");
    *size = end;
    MIME_OK
}

/// Reads `text` as `mime_content_type` does, and writes the media type to `out` with a parameter of this `name` and `value`, which replaces
/// all parameters of the same name (RFC 9110, 5.6.6). `out` must have at least `2 * text.len() + name.len() + 2 * value.len() + 6` bytes.
/// Sets `size` to the number of bytes of the media type. Returns `MIME_OK`, or another answer of include/mime.h if it wrote nothing.
#[unsafe(no_mangle)]
pub extern "C" fn mime_set_parameter(
    alloc: Global,
    text: &[u8],
    name: &[u8],
    value: &[u8],
    out: &mut [u8],
    size: &mut usize,
) -> u32
    ensures { SetsTo text.now name.now value.now out.old result (out.new, size.new) }
{
    *size = 0;
    let most = 2 * text.len() as u128 + name.len() as u128 + 2 * value.len() as u128 + 6;
    if most > out.len() as u128 {
        return MIME_NO_ROOM;
    }
    let mime = match content_type(alloc, text) {
        Ok(mime) => mime,
        Err(error) => return number_of_error(&error),
    };
    let Ok(name) = text_of(name) else {
        return MIME_BAD_PARAMETER;
    };
    let Ok(value) = text_of(value) else {
        return MIME_BAD_PARAMETER;
    };
    match with_parameter(alloc, &mime, name, value) {
        Ok(Some(made)) => {
            *size = put_string(out, made.as_str().as_bytes());
            MIME_OK
        }
        Ok(None) => MIME_BAD_PARAMETER,
        Err(_) => MIME_NO_MEMORY,
    }
}
