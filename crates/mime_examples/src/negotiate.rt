//! Chooses the offer that a server sends.

ghost use Rattle.std.specs.Prelude.{◌≡◌, ◌⊎◌, ℕ, Err, Some, None, IfOk, IfErr, map, slice_get};
ghost use Rattle.mime_http.specs.HttpList.{Header, IsHeader};
ghost use Rattle.mime_http.specs.Ranges.{best_offer};

use mime::Mime;
use mime_http::Accept;
use std::alloc::Global;

/// Returns the best of a server's offers for the lines of a request's `Accept` header. The range `application/json; charset=utf-8` doesn't
/// cover `application/json`, so also offer JSON with the charset. Send `Vary: Accept` with the offer, or with 406, since caches need it
/// (RFC 9110, 12.5.5).
///
/// # Errors
/// Returns the status of the reply: 406 if the client accepts no offer (RFC 9110, 15.5.7), or 503 if memory ran out (15.6.4).
pub fn chosen<'o>(alloc: Global, lines: &[&[u8]], offers: &'o [Mime]) -> Result<&'o Mime, u16>
    ensures best { IfOk result (λ offer. (header : Header) × IsHeader (map (λ line. line.now) lines.now) header
        × (at : ℕ) × (best_offer header.ranges (map (λ offer. offer.media) offers.now) ≡ Some at)
        × (slice_get offers.now at ≡ Some offer.now)) }
    ensures none { result ≡ Err 406 → (header : Header) × IsHeader (map (λ line. line.now) lines.now) header
        × (best_offer header.ranges (map (λ offer. offer.media) offers.now) ≡ None) }
    ensures known { IfErr result (λ status. (status ≡ 406) ⊎ (status ≡ 503)) }
{
    let Ok(accept) = Accept::from_lines(alloc, lines) else {
        return Err(503);
    };
    match accept.best(offers) {
        Some(at) => Ok(&offers[at]),
        None => Err(406),
    }
}
