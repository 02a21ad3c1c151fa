//! The pairs of a parameter list, cut one by one from the left.

ghost use Rattle.std.specs.Iterator.{YieldsFirstBy, item_count, UpTo, at_most};
ghost use Rattle.std.specs.Iterator.SizeHint.{IsWithinCount};
ghost use Rattle.std.specs.Prelude.{ℕ, List, ◌≡◌, ◌≢◌, ◌↔◌, ◌<◌, ◌≤◌, ◌+◌, [], true, false, IsTrue, length, take, drop, slice_get, IfSome};
ghost use Rattle.std.specs.Prelude.{Some, None, option_map};
ghost use Rattle.mime_search.specs.Rests.{before_byte, after_byte, first_position};
ghost use Rattle.mime.specs.Inner.Pairs.{cut_of, cut_before, leading_spaces, without_spaces, cut_after_equals, has_equals, pairs_after};
ghost use Rattle.mime.specs.Inner.Pairs.{pair_seen};
ghost use Rattle.mime.specs.Bytes.{quote_byte, semicolon_byte, equals_byte};
ghost use Rattle.mime.specs.Inner.ComparedText.{IsLoneCharset};
ghost use Rattle.mime.specs.Inner.Quoted.{content_len, content_of, after_content};
ghost use Rattle.mime.specs.Inner.KeptText.{AreLowPairs};
ghost use Rattle.mime.specs.Items.{items_of, name_seen, IsLowIf, IsFirstAccepted};

use crate::name::constants::CHARSET;
use crate::name::{Name, ParamKey};
use mime_search::{Class, Rest, content_end, first_stop};
use std::marker::Model;

/// The first pair of a list, and the rest of the list after the pair's semicolon.
#[derive(Drop)]
pub(crate) struct Pair<'a> {
    pub(crate) name: &'a str,
    /// The position of the value in the list, in bytes from 0. A value in quotes begins after its opening quote.
    pub(crate) value_start: usize,
    /// The value without its quotes.
    pub(crate) value: &'a str,
    pub(crate) rest: Rest<'a>,
}

/// Returns the same as `content_len`. This function isn't inlined: few values have a backslash directly before their
/// first quote.
#[cold]
#[inline(never)]
fn content_len_past_quoted_pairs(text: &[u8]) -> usize
    ensures { result ≡ content_len text.now }
{
    content_end(text, 0)
}

/// Returns the length in bytes of the quoted content that `text` begins with: up to the first quote outside a quoted
/// pair, or else to the end of `text`. `quote` is the position of the first quote, or `text.len()` if there is none.
#[inline(always)]
fn content_len(text: &[u8], quote: usize) -> usize
    requires { quote ≡ first_position quote_byte text.now }
    ensures { result ≡ content_len text.now }
{
    if quote == 0 || text[quote - 1] != b'\\' {
        // No backslash precedes the quote, so it isn't in a quoted pair.
        return quote;
    }
    content_len_past_quoted_pairs(text)
}

/// Returns the number of leading spaces and tabs of a byte string. This function searches block by block. It isn't
/// inlined: few lists begin with more than one space.
#[cold]
#[inline(never)]
fn count_spaces(bytes: &[u8]) -> usize
    ensures { result ≡ leading_spaces bytes.now }
{
    first_stop(bytes, 0, &Class::of(b' ', b'\t').others())
}

/// Returns the rest after the first semicolon of `end`, or an empty rest if there is none. `end` usually begins with a
/// semicolon, or is empty.
#[inline(always)]
fn after_semicolon<'a>(end: Rest<'a>) -> Rest<'a>
    ensures { result ≡ after_byte semicolon_byte end.entry }
{
    if end.len() == 0 {
        return end;
    }
    if end.begins_with(b';') {
        return end.after(1);
    }
    end.split_at_first(b';').1
}

/// Returns the content of a quoted string, and the rest after its closing quote. `text` begins after the opening quote.
#[inline(always)]
fn cut_content<'a>(text: &Rest<'a>) -> (&'a str, Rest<'a>)
    ensures content { result.0.now ≡ content_of text.now }
    ensures after { result.1 ≡ after_content text.now }
{
    let length = content_len(text.text().as_bytes(), text.position_of(b'"'));
    text.split_around(length)
}

/// Returns a pair's value without its quotes. `end` begins after the equals sign, and isn't searched after the value.
#[inline(always)]
fn value_after<'a>(end: &Rest<'a>) -> &'a str
    ensures { (list : ℕ) → (name : List ℕ) → result.now ≡ (cut_after_equals list name end.now).value }
{
    if end.begins_with(b'"') {
        return cut_content(&end.after(1)).0;
    }
    end.split_at_first(b';').0
}

/// Returns the pair of a name and its value. `end` begins after the equals sign. `list` is the list's length in bytes.
#[inline(always)]
fn cut_value<'a>(list: usize, name: &'a str, end: &Rest<'a>) -> Pair<'a>
    requires { length end.now ≤ list }
    ensures name { result.name.now ≡ (cut_after_equals list name.entry.now end.now).name }
    ensures value_start { result.value_start ≡ (cut_after_equals list name.entry.now end.now).value_start }
    ensures value { result.value.now ≡ (cut_after_equals list name.entry.now end.now).value }
    ensures rest { result.rest ≡ (cut_after_equals list name.entry.now end.now).rest }
{
    if end.begins_with(b'"') {
        let content = end.after(1);
        let (value, others) = cut_content(&content);
        return Pair {
            name,
            value_start: list - content.len(),
            value,
            rest: after_semicolon(others),
        };
    }
    let (value, rest) = end.split_at_first(b';');
    Pair {
        name,
        value_start: list - end.len(),
        value,
        rest,
    }
}

/// Returns a list without its leading spaces and tabs. Each branch has its own call of `after`, so that in the first
/// two branches the number of skipped bytes is a constant.
#[inline(always)]
fn without_spaces<'a>(list: &Rest<'a>) -> Rest<'a>
    ensures { result ≡ without_spaces list.now }
{
    let bytes = list.text().as_bytes();
    if bytes.len() > 1 {
        if bytes[0] > b' ' {
            return list.after(0);
        }
        // Most lists begin with one space.
        if bytes[0] == b' ' && bytes[1] > b' ' {
            return list.after(1);
        }
    }
    list.after(count_spaces(bytes))
}

/// Cuts the first name and the white space before it off a list. Returns the name, and the rest after its equals sign.
#[inline(always)]
fn cut_name<'a>(list: &Rest<'a>) -> (&'a str, Rest<'a>)
    ensures name { result.0.now ≡ before_byte equals_byte (without_spaces list.now) }
    ensures rest { result.1 ≡ after_byte equals_byte (without_spaces list.now) }
{
    without_spaces(list).split_at_first(b'=')
}

/// Cuts the first `size` bytes off a list as its first name, if an equals sign or the end of the list follows them.
/// Otherwise returns `None`. The name itself may contain an equals sign.
#[inline(always)]
fn cut_name_of_size<'a>(list: &Rest<'a>, size: usize) -> Option<(&'a str, Rest<'a>)>
    ensures other { result ≡ None → first_position equals_byte list.now ≢ size }
    ensures least { IfSome result (λ cut. first_position equals_byte list.now ≤ size) }
    ensures name { IfSome result (λ cut. cut.0.now ≡ take size list.now) }
    ensures rest { IfSome result (λ cut. cut.1 ≡ drop (size + 1) list.now) }
{
    let bytes = list.text().as_bytes();
    if size < bytes.len() {
        if bytes[size] != b'=' {
            return None;
        }
        return Some(list.split_around(size));
    }
    if size != bytes.len() {
        return None;
    }
    Some(list.split_around(size))
}

/// Cuts the first pair off a list.
#[tactic(auto, unfolding(crate::specs::Inner::Pairs::cut_of))]
#[inline(always)]
fn cut<'a>(list: &Rest<'a>) -> Pair<'a>
    ensures name { result.name.now ≡ (cut_of list.now).name }
    ensures value_start { result.value_start ≡ (cut_of list.now).value_start }
    ensures value { result.value.now ≡ (cut_of list.now).value }
    ensures rest { result.rest ≡ (cut_of list.now).rest }
{
    let (name, rest) = cut_name(list);
    cut_value(list.len(), name, &rest)
}

/// Cuts the first pair off a list that has this number of other pairs. If there are none, the end of the value isn't
/// searched: the value is all that follows the equals sign.
#[inline(always)]
pub(crate) fn cut_before<'a>(list: &Rest<'a>, others: usize) -> Pair<'a>
    ensures name { result.name.now ≡ (cut_before others list.now).name }
    ensures value_start { result.value_start ≡ (cut_before others list.now).value_start }
    ensures value { result.value.now ≡ (cut_before others list.now).value }
    ensures rest { result.rest ≡ (cut_before others list.now).rest }
{
    if others != 0 {
        return cut(list);
    }
    let (name, end) = cut_name(list);
    Pair {
        name,
        value_start: list.len() - end.len(),
        value: end.text(),
        rest: end.after(end.len()),
    }
}

/// Returns `true` if a key accepts a parameter's name.
#[inline(always)]
fn is_accepted<K: ParamKey>(key: &K, name: &str) -> bool
    ensures { IsTrue result ↔ K.Accepts key.now name.now true }
{
    key.accepts(Name {
        text: name,
        ignores_case: true,
    })
}

/// Returns `true` if a byte string contains an equals sign. For a constant, the compiler computes the result.
#[inline(always)]
fn has_equals(bytes: &[u8]) -> bool
    ensures { result ≡ has_equals bytes.now }
{
    let mut found = false;
    for byte in bytes {
        found |= *byte == b'=';
    }
    found
}

/// The first name of a list, and the rest after its equals sign.
#[derive(Drop)]
struct FirstName<'a> {
    name: &'a str,
    end: Rest<'a>,
    /// Whether the key accepts the name.
    is_accepted: bool,
}

/// Cuts the first name and the white space before it off a list. If the list has only one name (`is_only`) and the key
/// has a text, no equals sign is searched for, since the key accepts only a name of the text's length. In this case the
/// result is `None` if the key doesn't accept the name.
#[inline(always)]
fn cut_name_for<'a, K: ParamKey>(list: &Rest<'a>, is_only: bool, key: &K) -> Option<FirstName<'a>>
    ensures other { result ≡ None → IsTrue is_only × ¬ (K.Accepts key.now (cut_of list.now).name true) }
    ensures name { IfSome result (λ first. first.name.now ≡ before_byte equals_byte (without_spaces list.now)) }
    ensures end { IfSome result (λ first. first.end ≡ after_byte equals_byte (without_spaces list.now)) }
    ensures accepted { IfSome result (λ first. IsTrue first.is_accepted ↔ K.Accepts key.now first.name.now true) }
{
    let list = without_spaces(list);
    if is_only && let Some(text) = key.text() {
        let Some((name, end)) = cut_name_of_size(&list, text.len()) else {
            return None;
        };
        if !is_accepted(key, name) || has_equals(text.as_bytes()) {
            return None;
        }
        let is_accepted = true;
        return Some(FirstName {
            name,
            end,
            is_accepted,
        });
    }
    let (name, end) = list.split_at_first(b'=');
    let is_accepted = is_accepted(key, name);
    Some(FirstName {
        name,
        end,
        is_accepted,
    })
}

/// An iterator over the pairs of a list, each a name and a value.
#[derive(Drop)]
pub(crate) struct Pairs<'a> {
    /// The list from the next pair on.
    list: Rest<'a>,
    /// The number of pairs left.
    left: usize,
}

impl<'a> Model for Pairs<'a> {
    ghost use Rattle.std.specs.Prelude.{List, ℕ};
    ghost use Rattle.mime.specs.Inner.Pairs.{pairs_within};

    ghost Value = { List (List ℕ × List ℕ) };

    ghost view = { λ pairs. pairs_within pairs.left pairs.list };
}

impl<'a> Pairs<'a> {
    /// Returns an iterator over no pairs.
    #[inline(always)]
    pub(crate) fn none() -> Pairs<'a>
        ensures { result ≡ [] }
    {
        Pairs {
            list: Rest::of("", 0),
            left: 0,
        }
    }

    /// Returns an iterator over the first `count` pairs of `text` after position `semicolon`, or over no pairs if
    /// `semicolon` is `None`.
    #[tactic(auto, using(crate::proofs::BytesLemmas::boundary_after))]
    #[inline(always)]
    pub(crate) fn of_text(text: &'a str, semicolon: Option<usize>, count: usize) -> Pairs<'a>
        requires { IfSome semicolon (λ at. slice_get text.now at ≡ Some semicolon_byte) }
        ensures { result ≡ pairs_after count semicolon text.now }
    {
        match semicolon {
            None => Pairs {
                list: Rest::of(text, text.len()),
                left: 0,
            },
            Some(at) => Pairs {
                list: Rest::of(text, at + 1),
                left: count,
            },
        }
    }

    /// Returns `true` if only one pair is left, and the list begins with ` charset=` or `charset=`.
    #[inline(always)]
    pub(crate) fn is_lone_charset(&self) -> bool
        ensures { IsTrue result → IsLoneCharset self.now }
    {
        let list = self.list.text().as_bytes();
        self.left == 1 && (list.starts_with(b" charset=") || list.starts_with(b"charset="))
    }

    /// Returns the value of the first pair whose name a key accepts, or `None` if the key accepts no name. If the key
    /// doesn't accept the last name, the value of this name isn't read.
    #[inline(always)]
    pub(crate) fn first_accepted<K: ParamKey>(self, key: &K) -> Option<Name<'a>>
        requires { AreLowPairs self }
        ensures found { IsFirstAccepted (K.Accepts key.now) (items_of self.entry) (option_map name_seen result) }
        ensures low { IfSome result (λ name. IsLowIf name.ignores_case name.text.now) }
    {
        let Pairs { mut list, mut left } = self;
        while left != 0 {
            let Some(first) = cut_name_for(&list, left == 1, key) else {
                return None;
            };
            if first.is_accepted {
                return Some(Name {
                    text: value_after(&first.end),
                    ignores_case: first.name == CHARSET.text,
                });
            }
            if left == 1 {
                return None;
            }
            list = cut_value(list.len(), first.name, &first.end).rest;
            left -= 1;
        }
        None
    }
}

impl<'a> Iterator for Pairs<'a> {
    type Item = (&'a str, &'a str);

    ghost next_gives = { YieldsFirstBy pair_seen (λ pairs. pairs) };

    ghost remaining = { item_count (λ pairs. pairs) };

    #[inline(always)]
    fn next(&mut self) -> Option<(&'a str, &'a str)> {
        if self.left == 0 {
            return None;
        }
        let pair = cut(&self.list);
        self.left -= 1;
        self.list = pair.rest;
        Some((pair.name, pair.value))
    }

    #[inline(always)]
    fn size_hint(&self) -> (usize, Option<usize>)
        ensures lower { IsWithinCount result.0 (at_most (length self.now)) }
        ensures upper { IfSome result.1 (UpTo (at_most (length self.now))) }
        ensures exact { result ≡ (length self.now, Some (length self.now)) }
    {
        (self.left, Some(self.left))
    }
}
