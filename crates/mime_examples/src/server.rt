//! Checks requests and chooses replies.

use mime::Mime;
use mime_http::{Accept, FieldError, content_type};
use std::alloc::Global;

/// Returns the status that rejects a body with this `Content-Type`, or `None` if the body is JSON. Send `Accept: application/json`
/// with 415, so that the client learns what to send (RFC 9110, 15.5.16).
pub fn refusal(alloc: Global, value: &[u8]) -> Option<u16> {
    match content_type(alloc, value) {
        Ok(mime) => (mime.essence_str() != "application/json").then_some(415),
        Err(FieldError::NoMemory) => Some(503),
        Err(_) => Some(400),
    }
}

/// Returns the offer to send for the lines of an `Accept` header, or 406 if no offer is acceptable, or 503 if memory runs out. Send
/// `Vary: Accept` with an offer and with 406: caches need it. A client that asks for `application/json; charset=utf-8` gets 406 unless
/// this is an offer, too.
pub fn chosen<'o>(alloc: Global, lines: &[&[u8]], offers: &'o [Mime]) -> Result<&'o Mime, u16> {
    let accept = Accept::from_lines(alloc, lines).map_err(|_| 503_u16)?;
    let best = accept.best(offers).ok_or(406_u16)?;
    Ok(&offers[best])
}
