//! Ranks offers, in a file of its own: the start, which lacks `rank_offers`, orders them here (docs/PERF.md).

use mime::Mime;
use mime_http::{Accept, rank_offers};
use std::alloc::Global;

/// Returns how many offers are ranked, or 0 if memory runs out.
pub(crate) fn ranks(alloc: Global, accept: &Accept, offers: &[Mime]) -> usize {
    rank_offers(alloc, accept.ranges(), offers).map_or(0, |ranking| ranking.len())
}
