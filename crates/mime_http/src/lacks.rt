//! Says which parameter keeps a range from deciding the weight of an offer, and whether a weight is written in quotes.

ghost use Rattle.std.specs.Prelude.{◌≡◌, false, find, length, not, option_map};
ghost use Rattle.mime_http.specs.{Lacks.begins, Lacks.is_quoted, Lacks.lacked, Lacks.specificity, Ranges.demanded, Ranges.has};

use crate::list::trim_start;
use crate::range::{has, is_demanded, named_parts, param_count};
use mime::{Mime, Name};

/// Returns the first parameter that a range demands and an offer lacks, or `None` if the offer has each.
fn first_lacked<'r>(range: &'r Mime, offer: &Mime) -> Option<(Name<'r>, Name<'r>)>
    ensures { option_map (λ item. (item.0.text.now, item.1.text.now)) result
        ≡ find (λ pair. not (has offer.now.media pair)) (demanded range.now.media.pairs) }
{
    for (name, value) in range.params() {
        if is_demanded(name.text) && !has(offer, name.text, value.text) {
            return Some((name, value));
        }
    }
    None
}

/// Returns the number of parameters that a range demands.
fn demanded_count(range: &Mime) -> usize
    ensures { result ≡ length (demanded range.now.media.pairs) }
{
    // Only for the proof: `most` bounds the count.
    let most = param_count(range);
    let mut count = 0;
    for (name, _) in range.params() {
        if is_demanded(name.text) {
            count += 1;
        }
    }
    count
}

/// Returns how many parts of an offer's essence a range names, and how many parameters it demands, or `None` if it doesn't match the
/// essence.
fn specificity(offer: &Mime, range: &Mime) -> Option<(u8, usize)>
    ensures { result ≡ specificity offer.now.media range.now.media }
{
    let named = named_parts(range, offer.essence_str(), offer.type_().text)?;
    Some((named, demanded_count(range)))
}

/// Returns the first parameter that a range demands and an offer lacks, if the range matches the offer's essence and is more specific than
/// `decider`, the range that decides the offer's weight, if there is one (RFC 9110, 12.5.1). [`covers`](crate::covers) defines which
/// parameters a range demands. The offer may lack further ones, too. For the range `text/html;level=1`, the decider `text/*` and the offer
/// `text/html`, this returns `level` and `1`.
pub fn lacked<'r>(
    range: &'r Mime,
    decider: Option<&Mime>,
    offer: &Mime,
) -> Option<(Name<'r>, Name<'r>)>
    ensures { option_map (λ item. (item.0.text.now, item.1.text.now)) result
        ≡ lacked range.now.media (option_map (λ decider. decider.now.media) decider.entry) offer.now.media }
{
    // Most ranges demand nothing.
    let parameter = first_lacked(range, offer)?;
    let one = specificity(offer, range)?;
    let other = decider.and_then(|decider| specificity(offer, decider));
    other.is_none_or(|other| one > other).then_some(parameter)
}

/// Returns `true` if bytes begin with a label, ignoring ASCII case.
fn begins(label: &[u8], bytes: &[u8]) -> bool
    ensures { result ≡ begins label.now bytes.now }
{
    bytes.len() >= label.len() && bytes[..label.len()].eq_ignore_ascii_case(label)
}

/// Returns `true` if the first `q` of an entry of an `Accept` header is written in quotes, as in `text/html;q="0.5"`. RFC 9110 (12.4.2) has
/// no quotes there, though [`weight_of`](crate::weight_of) reads them.
pub fn has_quoted_weight(entry: &[u8]) -> bool
    ensures { result ≡ is_quoted false false entry.now }
{
    let mut is_inside = false;
    let mut is_paired = false;
    for (at, &byte) in entry.iter().enumerate() {
        if !(is_inside || is_paired) && byte == b';' {
            let rest = trim_start(&entry[at + 1..]);
            if begins(b"q=", rest) {
                return begins(b"q=\"", rest);
            }
        }
        if byte == b'"' && !is_paired {
            is_inside = !is_inside;
        }
        is_paired = byte == b'\\' && !is_paired;
    }
    false
}
