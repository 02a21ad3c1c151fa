//! Chooses a body's reader without allocating.

ghost use Rattle.std.specs.Prelude.{◌≡◌, ◌==◌, ℕ, List, if◌then◌else◌, codes};
ghost use Rattle.std.specs.List.{before_first};
ghost use Rattle.std.specs.Str.{IsTrimAscii, bytes_eq};
ghost use Rattle.mime.specs.Bytes.{semicolon_byte};
ghost use Rattle.mime.specs.Values.{lowered};

use mime::{APPLICATION_JSON, APPLICATION_WWW_FORM_URLENCODED, TEXT_PLAIN};

/// Returns the text before the first semicolon of a `Content-Type`, trimmed. If the value is a media type, this text equals the essence,
/// ignoring ASCII case. The parameters aren't read, so they may be invalid: for `text/html; charset` the result is `text/html`.
pub fn essence_of(content_type: &str) -> &str
    ensures { IsTrimAscii (before_first (λ b. b == semicolon_byte) content_type.now) result.now }
{
    let before = match content_type.split_once(';') {
        Some((before, _)) => before,
        None => content_type,
    };
    before.trim_ascii()
}

/// Returns the reader of a body according to the essence of its `Content-Type`: `json`, `form` or `text`, or `bytes` for any other essence.
/// The parameters don't count. This doesn't allocate.
pub fn reader_of(content_type: &str) -> &'static str
    ensures { (essence : List ℕ) × IsTrimAscii (before_first (λ b. b == semicolon_byte) content_type.now) essence
        × (result.now ≡ (if bytes_eq (lowered essence) (codes "application/json") then codes "json" else
        if bytes_eq (lowered essence) (codes "application/x-www-form-urlencoded") then codes "form" else
        if bytes_eq (lowered essence) (codes "text/plain") then codes "text" else codes "bytes")) }
{
    let essence = essence_of(content_type);
    if essence.eq_ignore_ascii_case(APPLICATION_JSON.text()) {
        "json"
    } else if essence.eq_ignore_ascii_case(APPLICATION_WWW_FORM_URLENCODED.text()) {
        "form"
    } else if essence.eq_ignore_ascii_case(TEXT_PLAIN.text()) {
        "text"
    } else {
        "bytes"
    }
}
