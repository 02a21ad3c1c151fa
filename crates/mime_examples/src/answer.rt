//! Rejects every `Content-Type` except JSON.

ghost use Rattle.std.specs.Prelude.{◌≡◌, ◌≢◌, ◌↔◌, ◌⊎◌, Some, None, IfSome, IsSomeAnd, codes};
ghost use Rattle.std.specs.Str.{IsUtf8};
ghost use Rattle.mime.specs.Values.{MediaType};
ghost use Rattle.mime_http.specs.HttpMediaType.{HttpReads, IsHttpMediaType};

use mime_http::laws::one_http_reading;
use mime_http::{FieldError, content_type};
use std::alloc::Global;

/// Returns the status for a `Content-Type` with this error: 400 if the value isn't a media type in valid UTF-8 (RFC 9110, 15.5.1), and 503
/// if memory ran out (15.6.4).
pub fn status_of(error: &FieldError) -> u16
    ensures malformed { (result ≡ 400) ↔ (error.now ≢ FieldError.NoMemory) }
    ensures memory { (result ≡ 503) ↔ (error.now ≡ FieldError.NoMemory) }
{
    match error {
        FieldError::NotUtf8 { .. } | FieldError::Invalid(_) => 400,
        FieldError::NoMemory => 503,
    }
}

/// Returns the status that rejects a request because of its `Content-Type`, or `None` if the media type is `application/json`, whatever its
/// parameters are. The status is 415 for any other media type (RFC 9110, 15.5.16). With 415, send `Accept: application/json`, or
/// `Accept-Post: application/json` (W3C's Linked Data Platform 1.0, 7.1). [`status_of`] returns the status for an error.
pub fn refusal(alloc: Global, value: &[u8]) -> Option<u16>
    // Only JSON is accepted.
    ensures taken { result ≡ None
        → (media : MediaType) × HttpReads value.now media × (media.essence ≡ codes "application/json") }
    // A media type in valid UTF-8 never has the status 400.
    ensures malformed { result ≡ Some 400 → ¬ (IsUtf8 value.now × IsHttpMediaType value.now) }
    // Only a media type other than JSON has the status 415.
    ensures unsupported { result ≡ Some 415
        → (media : MediaType) × HttpReads value.now media × (media.essence ≢ codes "application/json") }
    // JSON is rejected only if memory runs out.
    ensures json { IsUtf8 value.now → (media : MediaType) → HttpReads value.now media → media.essence ≡ codes "application/json"
        → IfSome result (λ status. status ≡ 503) }
    // No other status is returned.
    ensures known { IfSome result (λ status. (status ≡ 400) ⊎ ((status ≡ 415) ⊎ (status ≡ 503))) }
{
    one_http_reading();
    match content_type(alloc, value) {
        Ok(mime) => {
            if mime.essence_str() == "application/json" {
                None
            } else {
                Some(415)
            }
        }
        Err(error) => Some(status_of(&error)),
    }
}

/// Returns the status that rejects a request with a body because of its `Content-Type`, or `None` if the media type is `application/json`.
/// A body without a `Content-Type` may be anything (RFC 9110, 8.3), so it is rejected with 415. Reply with 400 to a request with two
/// `Content-Type` lines, since programs differ in which line they use.
pub fn refusal_of_body(alloc: Global, content_type: Option<&[u8]>) -> Option<u16>
    ensures without { content_type.entry ≡ None → result ≡ Some 415 }
    ensures taken { result ≡ None → IsSomeAnd content_type.entry (λ value. (media : MediaType) × HttpReads value.now media
        × (media.essence ≡ codes "application/json")) }
    ensures malformed { result ≡ Some 400 → IsSomeAnd content_type.entry (λ value. ¬ (IsUtf8 value.now × IsHttpMediaType value.now)) }
    ensures json { IfSome content_type.entry (λ value. IsUtf8 value.now → (media : MediaType) → HttpReads value.now media
        → media.essence ≡ codes "application/json" → IfSome result (λ status. status ≡ 503)) }
{
    match content_type {
        Some(value) => refusal(alloc, value),
        None => Some(415),
    }
}
