//! Tests whether a range covers an offer, and how specific the range is.

ghost use Rattle.std.specs.Prelude.{◌≡◌, ◌++◌, Some, None, length, drop, option_map, is_some, if◌then◌else◌, codes, bytes_eq};
ghost use Rattle.std.specs.List.{list_all};
ghost use Rattle.mime.specs.{Items.name_text, Values.Reads};
ghost use Rattle.mime_http.specs.{Ranges.first_value, Ranges.weight_of, Ranges.named_parts, Ranges.has, Ranges.closeness};
ghost use Rattle.mime_http.specs.{Ranges.demanded, Ranges.is_demanded};

use crate::meaning::mean_the_same;
use crate::weights::{lone_weight, thousandths};
use mime::{Mime, Name};

/// Returns the value of the first parameter of this name, as it is written, or `None` if there is none: `utf-8` for `charset` in
/// `text/html; Charset=UTF-8; charset=x`. Names of parameters are in lowercase, so `name` must be, too. In a contract,
/// `first_value (codes "charset") mime.now.media.pairs` is this value.
#[inline(always)]
#[tactic(auto, using(crate::proofs::Demanded::first_is))]
pub fn first_value<'a>(mime: &'a Mime, name: &str) -> Option<Name<'a>>
    ensures { option_map name_text result ≡ first_value name.now mime.now.media.pairs }
{
    mime.get_param(Name {
        text: name,
        ignores_case: true,
    })
}

/// Returns the weight of a range in thousandths, or 1000 if the range has no `q` (RFC 9110, 12.4.2). The first `q` counts, quoted or not.
/// The weight is the number with which the value of `q` begins, at most 1, or 0 if it begins with no number: `.2` is 200, `2` is 1000, and
/// `high` and `\1` are 0.
pub fn weight_of(range: &Mime) -> u16
    ensures { result ≡ weight_of range.now.media }
{
    first_value(range, "q").map_or(1000, |weight| thousandths(weight.text.as_bytes()))
}

/// Returns `true` if a range is `*/*`, whatever its parameters. This function isn't inlined, so that the text of a range of another length
/// isn't read.
#[inline(never)]
fn is_star(range: &Mime) -> bool
    ensures { result ≡ bytes_eq range.now.media.essence (codes "*/*") }
{
    range.essence_str() == "*/*"
}

/// Returns `true` if a range names all subtypes of a type, as `text/*` does for `text`, whatever its parameters. Like `is_star`, it isn't
/// inlined.
#[inline(never)]
fn is_all_of(range: &Mime, type_: &str) -> bool
    ensures { result ≡ bytes_eq range.now.media.essence (type_.now ++ codes "/*") }
{
    range.essence_str().strip_suffix("/*") == Some(type_)
}

/// Returns `true` if a range has this essence. Like `is_star`, it isn't inlined.
#[inline(never)]
fn is_same(range: &Mime, essence: &str) -> bool
    ensures { result ≡ bytes_eq range.now.media.essence essence.now }
{
    range.essence_str() == essence
}

/// Returns how many parts of an offer's essence a range names: 0 for `*/*`, 1 for `text/*`, and 2 for `text/html`. Returns `None` if the
/// range doesn't match the essence. `type_` is the offer's type.
#[inline]
pub(crate) fn named_parts(range: &Mime, essence: &str, type_: &str) -> Option<u8>
    ensures { result ≡ (if bytes_eq range.now.media.essence (codes "*/*") then Some 0 else
        if bytes_eq range.now.media.essence (type_.now ++ codes "/*") then Some 1 else
        if bytes_eq range.now.media.essence essence.now then Some 2 else None) }
{
    // Most lengths differ, so the texts of most ranges aren't read.
    let len = range.essence_str().len();
    if len == 3 && is_star(range) {
        Some(0)
    } else if len == type_.len() + 2 && is_all_of(range, type_) {
        Some(1)
    } else if len == essence.len() && is_same(range, essence) {
        Some(2)
    } else {
        None
    }
}

/// Returns `true` if an offer has a parameter of this name whose value means the same as `value`.
#[tactic(auto, using(crate::proofs::Demanded::has_item))]
pub(crate) fn has(offer: &Mime, name: &str, value: &str) -> bool
    ensures { result ≡ has offer.now.media (name.now, value.now) }
{
    for (own, own_value) in offer.params() {
        if own.text == name && mean_the_same(own_value.text, value) {
            return true;
        }
    }
    false
}

/// Returns the number of a media type's parameters.
pub(crate) fn param_count(mime: &Mime) -> usize
    ensures { result ≡ length mime.now.media.pairs }
{
    mime.params().size_hint().0
}

/// Returns `true` if a range demands its parameters of this name: those other than `q`, before it and after it (RFC 9110, 12.5.1).
#[inline(always)]
pub(crate) fn is_demanded(name: &str) -> bool
    ensures { result ≡ is_demanded name.now }
{
    name != "q"
}

/// Returns the number of parameters that a range demands, and the range's weight. Returns `None` if the offer lacks one of these
/// parameters. This function isn't inlined, since most ranges have no parameters.
#[inline(never)]
fn demanded_among(range: &Mime, offer: &Mime) -> Option<(usize, u16)>
    ensures { result ≡ (if list_all (has offer.now.media) (demanded range.now.media.pairs)
        then Some (length (demanded range.now.media.pairs), weight_of range.now.media) else None) }
{
    // Only for the proof: `most` bounds the count.
    let most = param_count(range);
    let mut count = 0;
    let mut weight = None;
    for (name, value) in range.params() {
        if is_demanded(name.text) {
            if !has(offer, name.text, value.text) {
                return None;
            }
            count += 1;
        } else {
            weight = weight.or(Some(value.text.as_bytes()));
        }
    }
    Some((count, weight.map_or(1000, thousandths)))
}

/// Returns the part of a media type's kept text that follows the essence: the parameters, with the semicolon before them.
#[inline(always)]
pub(crate) fn after_essence(mime: &Mime) -> &[u8]
    ensures after { result.now ≡ drop (length mime.now.media.essence) mime.now.media.kept }
    ensures reads { Reads mime.now.media.kept mime.now.media }
{
    &mime.as_str().as_bytes()[mime.essence_str().len()..]
}

/// Returns how many parameters a range demands of an offer, and the range's weight in thousandths, or `None` if the offer lacks one of
/// these parameters. The range `text/html;level=1` demands one.
#[inline(always)]
pub(crate) fn demanded(range: &Mime, offer: &Mime) -> Option<(usize, u16)>
    ensures { result ≡ (if list_all (has offer.now.media) (demanded range.now.media.pairs)
        then Some (length (demanded range.now.media.pairs), weight_of range.now.media) else None) }
{
    if param_count(range) == 0 {
        return Some((0, 1000));
    }
    match lone_weight(after_essence(range)) {
        Some(weight) => Some((0, weight)),
        None => demanded_among(range, offer),
    }
}

/// Returns `true` if a range covers an offer (RFC 9110, 12.5.1). `text/*` covers `text/html`. `text/html;level=1` covers
/// `text/html;level=1`, but not `text/html`. The offer must have each parameter that the range demands: all except `q`, even those after
/// the `q`. Its value must mean the same. A backslash and the byte after it mean that byte. The case of a value matters, except for a
/// charset.
pub fn covers(range: &Mime, offer: &Mime) -> bool
    ensures { result ≡ is_some (closeness offer.now.media (0, range.now.media)) }
{
    named_parts(range, offer.essence_str(), offer.type_().text).is_some()
        && demanded(range, offer).is_some()
}
