//! Tests whether a client accepts HTML.

ghost use Rattle.std.specs.Prelude.{◌↔◌, ◌<◌, IsTrue, IfOk, map, codes};
ghost use Rattle.mime.specs.Values.{MediaType, Reads};
ghost use Rattle.mime_http.specs.HttpList.{Header, IsHeader};
ghost use Rattle.mime_http.specs.Ranges.{given_weight};

use mime::TEXT_HTML;
use mime_http::Accept;
use std::alloc::{AllocError, Global};

/// Returns `true` if HTML weighs more than 0 according to the lines of an `Accept` header (RFC 9110, 12.5.1), as for `text/*;q=0.3`, but
/// not for `text/html ; q=0, */*`.
///
/// # Errors
/// Returns `AllocError` if memory runs out.
pub fn accepts_html(alloc: Global, lines: &[&[u8]]) -> Result<bool, AllocError>
    ensures { IfOk result (λ accepts. (header : Header) × IsHeader (map (λ line. line.now) lines.now) header
        × (html : MediaType) × Reads (codes "text/html") html × (IsTrue accepts ↔ (0 < given_weight header.ranges html))) }
{
    let accept = Accept::from_lines(alloc, lines)?;
    Ok(accept.weight(&TEXT_HTML.mime()) > 0)
}
