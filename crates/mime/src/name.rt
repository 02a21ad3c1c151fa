//! Names, which are parts of media types, and the keys that look up parameters.

ghost use Rattle.std.specs.Prelude.{◌≡◌, ◌↔◌, IsTrue, IfSome, List, ℕ, Bool, Some, true};
ghost use Rattle.std.specs.Fmt.{debug_str, styled_text};
ghost use Rattle.mime.specs.Names.{NameIs};
ghost use Rattle.mime.specs.Values.{lowered};

pub(crate) mod constants;

use mime_search::eq_ignore_ascii_case;
use std::fmt;

/// A part of a media type: a type, a subtype, a suffix, a parameter's name or its value (RFC 7231,
/// 3.1.1.1). The type of `Text/Plain` is `Name { text: "text", ignores_case: true }`, and equals [`TEXT`](crate::TEXT).
///
/// Two names are equal if they have the same text and the same flag `ignores_case`. Names are ordered by the bytes of
/// the text, and then by the flag, `false` first. To compare a name with a string, use [`name_eq_str`].
#[derive(Clone, Copy, PartialEq, Eq, PartialOrd, Ord, Hash)]
pub struct Name<'a> {
    /// The part's text. It has no ASCII capital if this crate returned the name and the name ignores case.
    pub text: &'a str,
    /// Whether ASCII case is ignored when the name is compared with a string.
    pub ignores_case: bool,
}

impl<'a> Name<'a> {
    /// Returns the name's text: `TEXT.as_str()` is `"text"`. The text has the lifetime `'a`, so it may outlive the `Name`.
    pub fn as_str(&self) -> &'a str
        ensures { result.now ≡ self.now.text.now }
    {
        self.text
    }
}

/// Prints the text as a `str` is printed, padded to a width and truncated to a precision: [`TEXT`](crate::TEXT) prints `text`.
impl fmt::Display for Name<'_> {
    ghost output = { λ name. Some name.text.now };

    ghost styled_output = { λ name spec. Some (styled_text spec name.text.now) };

    fn fmt<W: fmt::Write>(&self, f: &mut fmt::Formatter<W>) -> fmt::Result {
        fmt::Display::fmt(self.text, f)
    }
}

/// Prints the text in quotes, with escapes, as a `str` does: [`TEXT`](crate::TEXT) prints `"text"`.
impl fmt::Debug for Name<'_> {
    ghost debug_output = { λ name. debug_str name.text.now };

    fn fmt<W: fmt::Write>(&self, f: &mut fmt::Formatter<W>) -> fmt::Result {
        fmt::Debug::fmt(self.text, f)
    }
}

/// Returns `true` if a name is equal to the string `s`: ignoring ASCII case if the name ignores case, otherwise byte for byte (RFC 7231,
/// 3.1.1.1). `name_eq_str(&TEXT, "Text")` is true, but the boundary `ABC` isn't equal to `abc`. The comparison doesn't allocate.
#[inline]
pub fn name_eq_str(name: &Name<'_>, s: &str) -> bool
    ensures { IsTrue result ↔ NameIs name.now.text.now name.now.ignores_case s.now }
{
    name.text == s || name.ignores_case && eq_ignore_ascii_case(name.text.as_bytes(), s.as_bytes())
}

/// A key with which [`Mime::get_param`](crate::Mime::get_param) looks up a parameter by its name: a `&str`, a
/// [`TextKey`], a [`Name`], or a type of your own, whose `Accepts` says which names it accepts.
pub trait ParamKey: Drop {
    /// The names that the key accepts, by text and flag.
    ghost Accepts: { Self → List ℕ → Bool → Type 0 };

    /// Returns `true` if the key accepts a parameter's name: `TextKey("P")` accepts `p`. `get_param` passes the name in
    /// lowercase, with the flag `true`. If the key has a text, it may also pass other bytes, as many as the text has.
    fn accepts(&self, name: Name<'_>) -> bool
        ensures { IsTrue result ↔ Accepts self.now name.entry.text.now name.entry.ignores_case };

    /// Returns a text that every accepted name equals, ignoring ASCII case, such as `P` for `TextKey("P")`, or else `None`. The text makes
    /// a look-up faster, and doesn't change its result. The default implementation returns `None`.
    #[inline]
    fn text(&self) -> Option<&str>
        ensures { IfSome result (λ text. (name : List ℕ) → Accepts self.now name true → lowered name ≡ lowered text.now) }
    {
        None
    }
}

/// A key that accepts the names equal to this string, as [`name_eq_str`] compares them: `TextKey("Charset")` accepts
/// `charset` (names ignore case: RFC 7231, 3.1.1.1).
#[derive(Clone, Copy)]
pub struct TextKey<'k>(pub &'k str);

impl ParamKey for TextKey<'_> {
    ghost Accepts = { λ key name ignores_case. NameIs name ignores_case key.0.now };

    #[inline]
    fn accepts(&self, name: Name<'_>) -> bool {
        name_eq_str(&name, self.0)
    }

    #[inline]
    fn text(&self) -> Option<&str> {
        Some(self.0)
    }
}

/// A string is a key that accepts the same names as its [`TextKey`]: `"Charset"` accepts `charset`, so
/// `get_param("Charset")` returns `utf-8` for `text/html; charset=UTF-8` (names ignore case: RFC 7231, 3.1.1.1).
impl ParamKey for &str {
    ghost Accepts = { λ key name ignores_case. NameIs name ignores_case key.now };

    #[inline]
    fn accepts(&self, name: Name<'_>) -> bool {
        name_eq_str(&name, self)
    }

    #[inline]
    fn text(&self) -> Option<&str> {
        Some(self)
    }
}

/// A name is a key that accepts the names equal to it, in text and flag: [`CHARSET`](crate::CHARSET) accepts `charset`.
/// A `Name` with an ASCII capital, or with the flag `false`, finds no parameter.
impl ParamKey for Name<'_> {
    ghost Accepts = { λ key name ignores_case. (name ≡ key.text.now) × (ignores_case ≡ key.ignores_case) };

    #[inline]
    fn accepts(&self, name: Name<'_>) -> bool {
        name == *self
    }

    #[inline]
    fn text(&self) -> Option<&str> {
        Some(self.text)
    }
}
