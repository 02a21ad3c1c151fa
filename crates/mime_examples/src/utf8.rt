//! Tests whether a `Content-Type` has the charset UTF-8.

ghost use Rattle.std.specs.Prelude.{◌≡◌, ◌↔◌, IsTrue, IfOk, Some, codes};
ghost use Rattle.mime.specs.Values.{MediaType};
ghost use Rattle.mime_http.specs.HttpMediaType.{HttpReads};
ghost use Rattle.mime_http.specs.Ranges.{first_value};

use mime_http::{FieldError, content_type, first_value};
use std::alloc::Global;

/// Returns `true` if the value of a `Content-Type` has the charset UTF-8 (RFC 9110, 8.3.2), as `text/html ; Charset="UTF-8"` has, but not
/// `text/html; charset=utf8`. Of two charsets the first counts.
///
/// # Errors
/// Returns the errors of [`content_type`].
pub fn says_utf8(alloc: Global, value: &[u8]) -> Result<bool, FieldError>
    ensures { IfOk result (λ yes. (media : MediaType) × HttpReads value.now media
        × (IsTrue yes ↔ (first_value (codes "charset") media.pairs ≡ Some (codes "utf-8")))) }
{
    let mime = content_type(alloc, value)?;
    let charset = first_value(&mime, "charset");
    Ok(charset.is_some_and(|charset| charset.text == "utf-8"))
}
