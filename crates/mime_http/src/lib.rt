//! Reads and writes media types in HTTP headers for servers, as RFC 9110 defines them. This library uses `mime`, but also reads the values
//! that HTTP allows and `mime` rejects. Its promises are contracts that a prover checks.
//!
//! [`content_type`] reads the value of a header such as `Content-Type`. [`Accept`] reads the lines of an `Accept` header, weighs a server's
//! offers, and returns the best offer, or all acceptable offers in order. [`covers`] and [`weight_of`] examine a single range.
//! [`with_parameter`], [`with_charset`] and [`with_boundary`] write parameters. [`first_value`], [`boundary`] and [`unescape`] read them.
//! [`laws`] states facts about all values.
//!
//! [`content_type`] takes two steps, which a program can also take by itself: it calls [`Mime::from_str`] on the [`trimmed_text`], and goes
//! on with [`content_type_after`] if that is rejected.
//!
//! Some calls explain a choice to a person, as the program `mime_headers` does. [`rank_offers`] returns the range that decides each weight,
//! and [`lacked`] the parameter that keeps a range from deciding. [`first_entry`] and [`trimmed`] cut a line into its entries, so that a
//! report shows each. [`has_valid_weight`] and [`has_quoted_weight`] test whether HTTP allows an entry's `q`.
//!
//! # Example
//! A server checks two headers of a request. It accepts a body whose `Content-Type` is ` application/json ;; charset=utf-8`.
//!
//! ```rust
//! use mime::Mime;
//! use mime_http::{Accept, FieldError, content_type};
//! use std::alloc::Global;
//!
//! /// Returns the status that rejects a body with this `Content-Type`, or `None` if the body is JSON. Send `Accept: application/json`
//! /// with 415, so that the client learns what to send (RFC 9110, 15.5.16).
//! pub fn refusal(alloc: Global, value: &[u8]) -> Option<u16> {
//!     match content_type(alloc, value) {
//!         Ok(mime) => (mime.essence_str() != "application/json").then_some(415),
//!         Err(FieldError::NoMemory) => Some(503),
//!         Err(_) => Some(400),
//!     }
//! }
//!
//! /// Returns the offer to send for the lines of an `Accept` header, or 406 if no offer is acceptable, or 503 if memory runs out. Send
//! /// `Vary: Accept` with an offer and with 406: caches need it. A client that asks for `application/json; charset=utf-8` gets 406 unless
//! /// this is an offer, too.
//! pub fn chosen<'o>(alloc: Global, lines: &[&[u8]], offers: &'o [Mime]) -> Result<&'o Mime, u16> {
//!     let accept = Accept::from_lines(alloc, lines).map_err(|_| 503_u16)?;
//!     let best = accept.best(offers).ok_or(406_u16)?;
//!     Ok(&offers[best])
//! }
//! ```
//!
//! # Errors
//! A value that isn't a media type is rejected with its one fault. The fault is what is missing at the value's end, or the first byte that
//! can't continue a media type, with that byte's position in the value. White space may follow a media type, so in `a/b c` the `c` is at
//! fault. In `text `, the space is at fault. Positions count bytes from 0.
//!
//! # Standards
//! Values follow the grammar of RFC 9110 (8.3.1, 5.6.3, 5.6.4 and 5.6.6), and must be UTF-8: other non-ASCII bytes (obs-text) are rejected.
//! A parameter's value keeps its backslashes, as in `mime`. [`unescape`] writes what the value means.
#![tactic(auto)]

mod accept;
mod lacks;
pub mod laws;
mod list;
mod meaning;
mod multipart;
mod offers;
mod parameter;
mod quoted;
mod range;
mod ranking;
mod reader;
mod value;
mod weights;

pub use crate::accept::{Accept, BadEntries};
pub use crate::lacks::{has_quoted_weight, lacked};
pub use crate::list::trimmed;
pub use crate::multipart::{boundary, is_boundary};
pub use crate::parameter::{with_boundary, with_charset, with_parameter};
pub use crate::quoted::unescape;
pub use crate::range::{covers, first_value, weight_of};
pub use crate::ranking::{RankedOffer, first_entry, has_valid_weight, rank_offers};
pub use crate::value::{FieldError, content_type, content_type_after, trimmed_text};
