//! Returns a media type as the value of a header.

ghost use Rattle.std.specs.Prelude.{◌≡◌};
ghost use Rattle.mime.specs.HeaderLaws.{AreHeaderBytes};

use mime::Mime;
use mime::laws::kept_is_safe;

/// Returns a media type as the value of `Content-Type` (RFC 9110, 8.3).
pub fn header_text(mime: &Mime) -> &str
    ensures text { result.now ≡ mime.now.media.kept }
    // The value has no line feed, no carriage return and no byte 0, so it can't inject anything into the response.
    ensures safe { AreHeaderBytes result.now }
{
    kept_is_safe();
    mime.as_str()
}
