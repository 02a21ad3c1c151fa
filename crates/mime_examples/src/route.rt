//! Tests whether a route accepts a body.

ghost use Rattle.std.specs.Prelude.{◌≡◌, is_some};
ghost use Rattle.mime_http.specs.Ranges.{closeness};

use mime::Mime;
use mime_http::covers;

/// Returns `true` if a route for a range accepts bodies of this media type. A route for `text/*` accepts `text/csv; charset=utf-8`. A route
/// for a range with a parameter besides `q` accepts only bodies whose media types have that parameter.
pub fn takes(range: &Mime, body: &Mime) -> bool
    ensures { result ≡ is_some (closeness body.now.media (0, range.now.media)) }
{
    covers(range, body)
}
