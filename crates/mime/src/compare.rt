//! Compares a media type with a string, without allocating.

ghost use Rattle.std.specs.Prelude.{◌≡◌, ◌≢◌, ◌↔◌, IsTrue, Some, [], length, map, slice_get};
ghost use Rattle.mime.specs.Bytes.{semicolon_byte};
ghost use Rattle.mime.specs.Comparison.{TextIs};
ghost use Rattle.mime.specs.Difference.{reaches_value, DifferInValue};
ghost use Rattle.mime.specs.Inner.KeptText.{AreLowPairs, IsLowPair, lowered_pair};
ghost use Rattle.mime.specs.Inner.ComparedText.{StartsWithEssence, IsAcceptedAt};
ghost use Rattle.mime.specs.Values.{Reads, lowered};
ghost use Rattle.mime.specs.declared.compare.Compared.TheVariants.{Equal, Different};

use crate::bytes::is_space;
use crate::name::constants::CHARSET;
use crate::scan::{ByteReader, Positions, Scanned, parameters};
use crate::value::Mime;
use crate::value::pairs::Pairs;
use mime_search::{BLOCK, Rest, eq_ignore_ascii_case, first_difference_ignoring_case};

/// Returns `true` if two strings are equal ignoring ASCII case.
#[inline(always)]
fn eq_str_ignore_ascii_case(one: &str, other: &str) -> bool
    ensures { IsTrue result ↔ (lowered one.now ≡ lowered other.now) }
{
    eq_ignore_ascii_case(one.as_bytes(), other.as_bytes())
}

/// Returns `true` if a string has a semicolon at `position`, in bytes from 0.
#[inline(always)]
fn has_semicolon_at(text: &str, position: usize) -> bool
    ensures { IsTrue result ↔ (slice_get text.now position ≡ Some semicolon_byte) }
{
    position < text.len() && text.as_bytes()[position] == b';'
}

/// Returns `true` if `text` starts with `essence` and a semicolon, ignoring ASCII case.
#[inline]
fn starts_with_essence(essence: &str, text: &str) -> bool
    ensures { IsTrue result ↔ StartsWithEssence essence.now text.now }
{
    let end = essence.len();
    if !has_semicolon_at(text, end) {
        return false;
    }
    eq_ignore_ascii_case(essence.as_bytes(), &text.as_bytes()[..end])
}

/// Returns `true` if a string's parameter, `other_name` with `other_value`, equals a kept parameter, `name` with
/// `value`. Names are compared ignoring ASCII case, and so are the values of `charset`.
#[inline]
fn is_pair(name: &str, value: &str, other_name: &str, other_value: &str) -> bool
    requires { IsLowPair (name.now, value.now) }
    ensures { IsTrue result ↔ ((name.now, value.now) ≡ lowered_pair (other_name.now, other_value.now)) }
{
    if !eq_str_ignore_ascii_case(name, other_name) {
        return false;
    }
    if name == CHARSET.text {
        eq_str_ignore_ascii_case(value, other_value)
    } else {
        value == other_value
    }
}

/// Returns `true` if `pairs`, the parameters of a string, equal `kept`, the parameters of a kept text.
#[inline]
fn are_pairs(kept: Pairs<'_>, pairs: Pairs<'_>) -> bool
    requires { AreLowPairs kept }
    ensures { IsTrue result ↔ (kept.entry ≡ map lowered_pair pairs.entry) }
{
    let mut others = pairs;
    for (name, value) in kept {
        let Some((other_name, other_value)) = others.next() else {
            return false;
        };
        if !is_pair(name, value, other_name, other_value) {
            return false;
        }
    }
    others.next().is_none()
}

/// Returns `true` if a string with these `positions` has its first semicolon at `semicolon`, and `count` parameters.
#[inline(always)]
fn has_shape(positions: Positions, semicolon: usize, count: usize) -> bool
    ensures { IsTrue result ↔ ((positions.semicolon ≡ Some semicolon) × (positions.pair_count ≡ count)) }
{
    positions.semicolon == Some(semicolon) && positions.pair_count == count
}

/// Returns `true` if `s` is accepted and has as many parameters as `mime`. `s` must begin with the essence of `mime`
/// and a semicolon, ignoring ASCII case, so only the rest is scanned. This function isn't inlined: the scan needs many
/// registers.
#[inline(never)]
fn has_list_of(mime: &Mime, s: &str) -> bool
    requires reads { Reads mime.now.media.kept mime.now.media }
    requires begins { StartsWithEssence mime.now.media.essence s.now }
    ensures { IsTrue result ↔ IsAcceptedAt s.now (length mime.now.media.essence) (length mime.now.media.pairs) }
{
    let end = mime.essence_str().len();
    let list = Rest::of(s, end + 1);
    let mut reader = ByteReader::new(list.text(), end as u128 + 1, usize::MAX);
    match parameters(&mut reader, mime.before_list()) {
        Scanned::Accepted(positions) => has_shape(positions, end, mime.param_count()),
        _ => false,
    }
}

/// Returns `true` if a string is equal to a value with parameters. The essences are compared, then the parameters, and
/// then the string is scanned. If `equal_ignoring_case` is true, the string equals the kept text ignoring ASCII case,
/// so it is accepted, and isn't scanned. This function isn't inlined: few strings need it.
#[inline(never)]
fn eq_by_parts(mime: &Mime, s: &str, equal_ignoring_case: bool) -> bool
    requires reads { Reads mime.now.media.kept mime.now.media }
    requires some { mime.now.media.pairs ≢ [] }
    requires equal { IsTrue equal_ignoring_case → lowered mime.now.media.kept ≡ lowered s.now }
    ensures { IsTrue result ↔ TextIs mime.now.media s.now }
{
    let essence = mime.essence_str();
    if !starts_with_essence(essence, s) {
        return false;
    }
    let end = essence.len();
    if !are_pairs(
        mime.pairs(),
        Pairs::of_text(s, Some(end), mime.param_count()),
    ) {
        return false;
    }
    equal_ignoring_case || has_list_of(mime, s)
}

/// Returns `true` if a byte isn't a space, a tab or a quote. If this function returns `true` for both bytes at which
/// two strings first differ, ignoring ASCII case, the strings aren't read as equal values.
#[inline(always)]
fn reaches_value(byte: u8) -> bool
    ensures { result ≡ reaches_value byte }
{
    !(is_space(byte) || byte == b'"')
}

/// The result of comparing two strings ignoring ASCII case.
enum Compared {
    /// The strings are equal.
    Equal,
    /// The strings aren't read as equal values: they first differ at bytes other than space, tab and quote.
    Different,
    /// The comparison decides nothing: one string is shorter than a block, one is a prefix of the other, or they first
    /// differ at a space, tab or quote.
    Undecided,
}

/// Compares two strings up to their first difference, ignoring ASCII case.
#[inline(always)]
fn compare_texts(kept: &str, text: &str) -> Compared
    ensures equal { result ≡ Equal → lowered kept.now ≡ lowered text.now }
    ensures different { result ≡ Different → DifferInValue kept.now text.now }
{
    let kept = kept.as_bytes();
    let text = text.as_bytes();
    if kept.len().min(text.len()) < BLOCK {
        return Compared::Undecided;
    }
    match first_difference_ignoring_case(kept, text) {
        Some(at) if reaches_value(kept[at]) && reaches_value(text[at]) => Compared::Different,
        None if kept.len() == text.len() => Compared::Equal,
        _ => Compared::Undecided,
    }
}

/// Returns `true` if a string other than the kept text is equal to a value with parameters. The first difference
/// between the string and the kept text decides most calls. If the two are equal ignoring ASCII case, and the only
/// parameter is a charset after one space, the result is `true`. Otherwise the parts are compared. This function isn't
/// inlined: most strings are the kept text.
#[inline(never)]
fn eq_other_text(mime: &Mime, s: &str) -> bool
    requires { mime.now.media.pairs ≢ [] }
    ensures { IsTrue result ↔ TextIs mime.now.media s.now }
{
    match compare_texts(mime.as_str(), s) {
        Compared::Different => false,
        Compared::Equal => mime.pairs().is_lone_charset() || eq_by_parts(mime, s, true),
        Compared::Undecided => eq_by_parts(mime, s, false),
    }
}

/// Returns `true` if `s` is read as a value equal to `mime`, unless `s` has a semicolon and `mime` has no parameters
/// (RFC 7231, 3.1.1.1). The comparison doesn't allocate.
///
/// `TEXT/PLAIN;charset="UTF-8"; ` is equal to `TEXT_PLAIN_UTF_8.mime()`. But `text/plain;` isn't equal to
/// `TEXT_PLAIN.mime()`, though `text/plain;` is read as an equal value.
#[inline]
pub fn mime_eq_str(mime: &Mime, s: &str) -> bool
    ensures { IsTrue result ↔ TextIs mime.now.media s.now }
{
    let kept = mime.as_str();
    if mime.param_count() == 0 {
        return eq_str_ignore_ascii_case(kept, s);
    }
    // A string whose essence has a different length isn't equal.
    if !has_semicolon_at(s, mime.essence_str().len()) {
        return false;
    }
    kept == s || eq_other_text(mime, s)
}
