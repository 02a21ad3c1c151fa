//! Compares, hashes, clones and prints media types.

ghost use Rattle.std.specs.Prelude.{◌≡◌, ◌↔◌, IfSome, IsTrue, Some, true, length, refl};
ghost use Rattle.std.specs.Cmp.{partial_equiv_from_equiv, partial_order_from_total, on_equiv, on_total, eq_by_cmp_equiv};
ghost use Rattle.std.specs.Fmt.{debug_str, styled_text};
ghost use Rattle.std.specs.Cmp.Lexicographic.{slice_cmp};
ghost use Rattle.std.specs.Ordering.{eq_by_cmp, on, as_partial_cmp};
ghost use Rattle.mime.specs.Comparison.{Same, IsOrderOf, pair_cmp, media_cmp};
ghost use Rattle.mime.specs.Inner.HashInput.{media_input, media_input-same, pair_input};
ghost use Rattle.std.specs.List.{fold, flat_map};
ghost use Rattle.mime.specs.Inner.OrderLaws.{media_cmp_total, same_from_cmp};

use crate::value::pairs::Pairs;
use crate::value::{Mime, Text};
use std::alloc::AllocError;
use std::cmp::Ordering;
use std::fmt;
use std::hash::{Hash, Hasher};

/// Returns `true` if two values are equal. Their parts are compared, since the texts of equal values may differ, as
/// `p=x` and `p="x"` do. This function isn't inlined: most calls of `eq` return without calling it.
#[cold]
#[inline(never)]
fn same_parts(first: &Mime, second: &Mime) -> bool
    ensures { IsTrue result ↔ Same first.now.media second.now.media }
{
    first.essence_str() == second.essence_str() && first.pairs().eq(second.pairs())
}

/// Returns `true` if two values have the same kept text. Two short texts are compared in whole blocks.
#[inline(always)]
fn have_same_text(first: &Mime, second: &Mime) -> bool
    ensures same { IsTrue result → Same first.now.media second.now.media }
    ensures bare { length first.now.media.pairs ≡ 0 → Same first.now.media second.now.media → IsTrue result }
{
    match &first.text {
        Text::Owned(_) => {}
        Text::Short(text) => match &second.text {
            Text::Owned(_) => {}
            Text::Short(other) => return text.first_difference(other).is_none(),
        },
    }
    first.as_str() == second.as_str()
}

/// Returns `true` if two values have the same kept text, and both texts are allocated.
#[inline(always)]
fn have_same_owned_text(first: &Mime, second: &Mime) -> bool
    ensures { IsTrue result → Same first.now.media second.now.media }
{
    match &first.text {
        Text::Owned(text) => match &second.text {
            Text::Owned(other) => text.as_str() == other.as_str(),
            Text::Short(_) => false,
        },
        Text::Short(_) => false,
    }
}

/// Compares the parameters of two values. Like `same_parts`, this function isn't inlined.
#[inline(never)]
fn order_pairs(first: &Mime, second: &Mime) -> Ordering
    ensures { result ≡ slice_cmp pair_cmp first.now.media.pairs second.now.media.pairs }
{
    let pairs = first.pairs();
    let others = second.pairs();
    pairs.cmp(others)
}

/// Compares two values if their kept texts are short, and are equal or first differ within both essences. Otherwise returns `None`.
#[inline(always)]
fn order_short(first: &Mime, second: &Mime) -> Option<Ordering>
    ensures { IfSome result (λ order. order ≡ media_cmp first.now.media second.now.media) }
{
    // Every function tests a text's variant with such a `match`, so that the compiler recognizes repeated tests.
    let text = match &first.text {
        Text::Owned(_) => return None,
        Text::Short(text) => text,
    };
    let other = match &second.text {
        Text::Owned(_) => return None,
        Text::Short(other) => other,
    };
    let Some(at) = text.first_difference(other) else {
        // Equal texts are equal values.
        return Some(Ordering::Equal);
    };
    let essence = first.essence_str().as_bytes();
    let other_essence = second.essence_str().as_bytes();
    if at < essence.len() && at < other_essence.len() {
        return Some(essence[at].cmp(&other_essence[at]));
    }
    None
}

/// Two values are equal if they have the same essence, and the same parameters in the same order, as `a/b; p="x"` and
/// `A/B;P=x` have (RFC 7231, 3.1.1.1). Comparing doesn't allocate.
impl PartialEq for Mime {
    ghost eq = { on (λ mime. mime.media) (eq_by_cmp media_cmp) };

    ghost laws = { partial_equiv_from_equiv (on_equiv (λ mime. mime.media) (eq_by_cmp_equiv media_cmp_total)) };

    #[inline]
    fn eq(&self, other: &Mime) -> bool
        ensures computed { result ≡ eq_by_cmp media_cmp self.now.media other.now.media }
        ensures same { IsTrue result ↔ Same self.now.media other.now.media }
    {
        // Values with different numbers of parameters differ, and so do essences of different lengths. Neither test reads the texts.
        if self.param_count() != other.param_count() {
            return false;
        }
        if self.essence_str().len() != other.essence_str().len() {
            return false;
        }
        // Equal texts are equal values.
        if have_same_text(self, other) {
            return true;
        }
        // Without parameters, the kept text is the essence, so the essences differ.
        if self.param_count() == 0 {
            return false;
        }
        same_parts(self, other)
    }
}

impl Eq for Mime {
    ghost laws = { on_equiv (λ mime. mime.media) (eq_by_cmp_equiv media_cmp_total) };
}

impl PartialOrd for Mime {
    ghost partial_cmp = { as_partial_cmp (on (λ mime. mime.media) media_cmp) };

    ghost laws = { partial_order_from_total (on_total (λ mime. mime.media) media_cmp_total) };

    #[inline]
    fn partial_cmp(&self, other: &Mime) -> Option<Ordering> {
        Some(self.cmp(other))
    }
}

/// Values are ordered by the bytes of their essences, and then by their parameters. Parameters are compared pair by
/// pair, first by name and then by value. A list of parameters is before a longer list that begins with it. For
/// example, `a/b`, `a/b;p=1`, `a/b;p=2` and `a/c` are in order. Comparing doesn't allocate.
impl Ord for Mime {
    ghost cmp = { on (λ mime. mime.media) media_cmp };

    ghost total = { on_total (λ mime. mime.media) media_cmp_total };

    ghost matches_partial_cmp = { λ _ _. refl };

    ghost matches_eq = { λ _ _. refl };

    #[inline]
    fn cmp(&self, other: &Mime) -> Ordering
        ensures computed { result ≡ media_cmp self.now.media other.now.media }
        ensures order { IsOrderOf self.now.media other.now.media result }
    {
        if let Some(order) = order_short(self, other) {
            return order;
        }
        // Equal texts are equal values.
        if self.essence_end == other.essence_end && have_same_owned_text(self, other) {
            return Ordering::Equal;
        }
        let order = self.essence_str().cmp(other.essence_str());
        if order.is_ne() {
            return order;
        }
        // A value without parameters is before one with parameters.
        if self.param_count() == 0 || other.param_count() == 0 {
            return self.param_count().cmp(&other.param_count());
        }
        order_pairs(self, other)
    }
}

/// Feeds the names and the values of parameters to a hasher.
fn feed_pairs<H: Hasher>(pairs: Pairs<'_>, state: &mut H)
    ensures { state.new ≡ fold H.write state.old (flat_map pair_input pairs.entry) }
{
    for (name, value) in pairs {
        name.hash(state);
        value.hash(state);
    }
}

/// Feeds the parameters and the essence to a hasher. Equal values, such as `a/b; p="x"` and `A/B;P=x`, feed the same
/// bytes. No value feeds a prefix of the bytes that an unequal value feeds, so unequal keys `(Mime, String)` of a map
/// feed different bytes. The bytes may change between versions. Hashing doesn't allocate.
impl Hash for Mime {
    ghost hash_input = { λ mime. media_input mime.media };

    ghost respects_eq = { λ first second is. media_input-same first.media second.media (same_from_cmp first.media second.media is) };

    fn hash<H: Hasher>(&self, state: &mut H) {
        if self.param_count() != 0 {
            feed_pairs(self.pairs(), state);
        }
        self.essence_str().hash(state);
    }
}

/// Returns a copy with the same kept text, or `AllocError` if memory runs out. Cloning allocates at most once. If the
/// kept text has at most 40 bytes, cloning doesn't allocate.
impl Clone for Mime {
    ghost is_clone = { λ mime copy. copy ≡ mime };

    ghost is_infallible = { λ mime. mime.fixed ≡ true };

    fn clone(&self) -> Result<Mime, AllocError> {
        let text = match &self.text {
            Text::Owned(text) => Text::Owned(text.clone()?),
            Text::Short(text) => Text::Short(text.copy()),
        };
        Ok(Mime {
            places: self.places,
            text,
            essence_end: self.essence_end,
        })
    }
}

/// Prints the kept text as a `str` is printed, padded to a width and truncated to a precision: a media type read from
/// `Text/Plain;` prints `text/plain`.
impl fmt::Display for Mime {
    ghost output = { λ mime. Some mime.media.kept };

    ghost styled_output = { λ mime spec. Some (styled_text spec mime.media.kept) };

    fn fmt<W: fmt::Write>(&self, f: &mut fmt::Formatter<W>) -> fmt::Result {
        fmt::Display::fmt(self.as_str(), f)
    }
}

/// Prints the kept text in quotes, with escapes, as a `str` does: a media type read from `a/b;p="x"` prints `"a/b;p=\"x\""`.
impl fmt::Debug for Mime {
    ghost debug_output = { λ mime. debug_str mime.media.kept };

    fn fmt<W: fmt::Write>(&self, f: &mut fmt::Formatter<W>) -> fmt::Result {
        fmt::Debug::fmt(self.as_str(), f)
    }
}
