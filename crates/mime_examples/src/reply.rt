//! Makes the `Content-Type` of a reply.

ghost use Rattle.std.specs.Prelude.{◌≡◌, IfOk, IfSome, codes};
ghost use Rattle.mime.specs.Values.{MediaType, Reads, lowered};
ghost use Rattle.mime_http.specs.Written.{with_pair};

use mime::laws::one_reading;
use mime::{MULTIPART_FORM_DATA, Mime, TEXT_HTML};
use mime_http::{with_boundary, with_charset};
use std::alloc::{AllocError, Global};

/// Returns the media type of HTML in a charset: `text/html; charset=utf-8` for `utf-8`. Returns `None` if the charset isn't a token.
///
/// # Errors
/// Returns `AllocError` if memory runs out, as `form_with` does.
pub fn page_in(alloc: Global, charset: &str) -> Result<Option<Mime>, AllocError>
    ensures made { IfOk result (λ answer. IfSome answer (λ page. (html : MediaType) × Reads (codes "text/html") html
        × (page.media ≡ with_pair html (codes "charset") (lowered charset.now)))) }
    // For UTF-8, exactly `text/html; charset=utf-8` is printed.
    ensures printed { charset.now ≡ codes "utf-8"
        → IfOk result (λ answer. IfSome answer (λ page. page.media.kept ≡ codes "text/html; charset=utf-8")) }
{
    one_reading();
    with_charset(alloc, &TEXT_HTML.mime(), charset)
}

/// Returns the media type of a form with this boundary: `multipart/form-data; boundary=x` for `x`. Returns `None` if the string isn't a
/// boundary.
pub fn form_with(alloc: Global, boundary: &str) -> Result<Option<Mime>, AllocError>
    ensures { IfOk result (λ answer. IfSome answer (λ made. (form : MediaType) × Reads (codes "multipart/form-data") form
        × (made.media ≡ with_pair form (codes "boundary") boundary.now))) }
{
    with_boundary(alloc, &MULTIPART_FORM_DATA.mime(), boundary)
}
