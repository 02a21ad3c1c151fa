//! Explains why an offer is chosen: ranks all offers, finds the range that decides each weight, and tests weights. Splits a line into
//! entries.

ghost use Rattle.std.specs.Prelude.{◌≡◌, ◌++◌, ◌∷◌, ◌==◌, ◌||◌, ◌&&◌, not, map, option_map, unwrap_or, true, codes, IfOk, MatchOption};
ghost use Rattle.std.specs.{Char.is_ascii_digit, List.list_all, Vec.vec_items};
ghost use Rattle.mime.specs.Bytes.{comma_byte};
ghost use Rattle.mime_http.specs.{HttpList.IsPiece, HttpList.BeginsPiece, Ranges.first_value, Ranking.is_qvalue, Ranking.IsRanking};

use crate::list::piece_end;
use crate::offers::ranked;
use crate::range::first_value;
use mime::Mime;
use std::alloc::{AllocError, Global};
use std::cmp::Reverse;

/// An offer with its weight and the range that decides the weight.
#[derive(Clone, Copy, PartialEq, Eq, Debug)]
pub struct RankedOffer {
    /// The offer's position among all offers, from 0.
    pub offer: usize,
    /// The offer's weight in thousandths, as [`Accept::weight`](crate::Accept::weight) returns it.
    pub weight: u16,
    /// The position, from 0, of the most specific range that covers the offer and so decides its weight, or `None` if no range covers it.
    pub range: Option<usize>,
}

/// Returns all offers, the best first, each with its weight and the range that decides the weight. Offers are compared as in
/// [`Accept::best`](crate::Accept::best), so the first is the best, unless it weighs 0. Each offer is compared with the ranges only once.
///
/// # Errors
/// Returns `AllocError` if memory runs out.
pub fn rank_offers(
    alloc: Global,
    ranges: &[Mime],
    offers: &[Mime],
) -> Result<Vec<RankedOffer>, AllocError>
    ensures { IfOk result (λ ranking. IsRanking (map (λ range. range.media) ranges.now)
        (map (λ offer. offer.media) offers.now) (vec_items ranking)) }
{
    let ranked = ranked(alloc, ranges, offers, 0)?;
    let offers = ranked.iter().map(|&(Reverse(rank), offer)| RankedOffer {
        offer,
        weight: rank.0,
        range: (rank.3 > 0).then(|| ranges.len().saturating_sub(rank.3)),
    });
    offers.collect(alloc)
}

/// Returns `true` if all bytes are digits. If `zeros_alone` is `true`, all must be zeros.
fn are_digits(zeros_alone: bool, bytes: &[u8]) -> bool
    ensures { result ≡ list_all (λ b. b == 48 || (not zeros_alone && is_ascii_digit b)) bytes.now }
{
    bytes.iter().all(|byte| *byte == b'0' || (!zeros_alone && byte.is_ascii_digit()))
}

/// Returns `true` if a value is a `qvalue` of RFC 9110 (12.4.2), such as `0.25`.
fn is_qvalue(bytes: &[u8]) -> bool
    ensures { result ≡ is_qvalue bytes.now }
{
    match bytes {
        [b'0' | b'1'] => true,
        [b'0', b'.', decimals @ ..] => decimals.len() < 4 && are_digits(false, decimals),
        [b'1', b'.', decimals @ ..] => decimals.len() < 4 && are_digits(true, decimals),
        _ => false,
    }
}

/// Returns `true` if a range has no weight, or one that RFC 9110 allows (12.4.2) or would allow without its quotes. Returns `false` for the
/// weights `high`, `1.5` and `0.0001`, though [`weight_of`](crate::weight_of) reads them. A quoted weight, `q="0.5"`, isn't told from
/// `q=0.5`, since the text of a range that was written anew has lost its quotes.
pub fn has_valid_weight(range: &Mime) -> bool
    ensures { result ≡ unwrap_or (option_map is_qvalue (first_value (codes "q") range.now.media.pairs)) true }
{
    match first_value(range, "q") {
        Some(weight) => is_qvalue(weight.text.as_bytes()),
        None => true,
    }
}

/// Returns the first entry of a header's line, with the white space around it, and the rest after its comma, which is `None` if no comma
/// ends the entry. A comma in a quoted string doesn't end an entry. This doesn't allocate.
pub fn first_entry(line: &[u8]) -> (&[u8], Option<&[u8]>)
    ensures { MatchOption result.1 ((line.now ≡ result.0.now) × BeginsPiece result.0.now)
        (λ rest. (line.now ≡ result.0.now ++ (comma_byte ∷ rest.now)) × IsPiece result.0.now) }
{
    let end = piece_end(line, 0);
    if end < line.len() {
        (&line[..end], Some(&line[end + 1..]))
    } else {
        (line, None)
    }
}
