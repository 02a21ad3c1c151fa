//! Orders all offers that a client accepts, the best first.

ghost use Rattle.std.specs.Prelude.{IfOk, map};
ghost use Rattle.std.specs.Vec.{vec_items};
ghost use Rattle.mime_http.specs.HttpList.{Header, IsHeader};
ghost use Rattle.mime_http.specs.Ranges.{AreInOrder};

use mime::Mime;
use mime_http::Accept;
use std::alloc::{AllocError, Global};

/// Returns the positions of the offers that the lines of a request's `Accept` header accept, the best first. If the first offer can't be
/// produced, try the next one.
///
/// # Errors
/// Returns `AllocError` if memory runs out.
pub fn in_order(alloc: Global, lines: &[&[u8]], offers: &[Mime]) -> Result<Vec<usize>, AllocError>
    ensures { IfOk result (λ order. (header : Header) × IsHeader (map (λ line. line.now) lines.now) header
        × AreInOrder header.ranges (map (λ offer. offer.media) offers.now) (vec_items order)) }
{
    let accept = Accept::from_lines(alloc, lines)?;
    accept.order(alloc, offers)
}
