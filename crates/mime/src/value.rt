//! Reads media types, and returns their parts and their parameters.

ghost use Rattle.std.specs.Prelude.{◌≡◌, ◌≤◌, true, IfOk, IfErr, IsOk, IfSome, codes, option_map, length, string_bytes};
ghost use Rattle.std.specs.List.{AllByRecursion};
ghost use Rattle.mime.specs.Values.{Reads, IsAccepted, lowered, type_of, subtype_of, suffix_of};
ghost use Rattle.mime.specs.Faults.{Explains};
ghost use Rattle.mime.specs.Items.{items_of, name_seen, name_text, IsLowIf, IsLowItem, IsFirstAccepted};
ghost use Rattle.mime.specs.Inner.Scanning.{HasPositions};
ghost use Rattle.mime.specs.Inner.KeptText.{IsKept, media_of, AreLowPairs, kept_text_of};
ghost use Rattle.mime.specs.Inner.ComparedText.{positions_before_list};
ghost use Rattle.mime.specs.Inner.Known.{IsKnown};
ghost use Rattle.mime.specs.Inner.KeptBytes.{bytes_of, is_fixed};

mod kept;
mod known;
pub(crate) mod pairs;
mod params;
mod places;
mod short;
mod traits;

use crate::name::{Name, ParamKey};
use crate::scan::{ByteReader, FromStrError, ParseError, Positions, Scanned, scan};
use crate::value::kept::{keep, kept_len, positions_in_kept};
pub use crate::value::known::KnownText;
use crate::value::pairs::Pairs;
pub use crate::value::params::Params;
use crate::value::places::Places;
use crate::value::short::{SHORT, ShortText};
use std::alloc::{AllocError, Global};
use std::marker::Model;

/// The kept text of a media type. A text of at most `SHORT` bytes is stored in the `Mime` itself. A longer text is allocated.
#[derive(Drop)]
enum Text {
    Owned(String),
    Short(ShortText),
}

impl Text {
    /// Returns a string as a kept text without spare capacity.
    #[inline(always)]
    fn of(alloc: Global, text: String) -> Result<Text, AllocError>
        ensures text { IfOk result (λ kept. bytes_of kept ≡ string_bytes text) }
        ensures short { length (string_bytes text) ≤ SHORT → IsOk result }
    {
        if text.len() <= SHORT {
            return Ok(Text::Short(ShortText::copied(&text)));
        }
        if text.capacity() == text.len() {
            return Ok(Text::Owned(text));
        }
        Ok(Text::Owned(String::from_str(alloc, &text)?))
    }

    #[inline(always)]
    fn as_str(&self) -> &str
        ensures { result.now ≡ bytes_of self.now }
    {
        match self {
            Text::Owned(text) => text.as_str(),
            Text::Short(text) => text.as_str(),
        }
    }
}

/// A media type, such as `text/plain; charset=utf-8` (RFC 7231, 3.1.1.1).
///
/// The text is stored as it was read, with two changes: type, subtype, parameter names and `charset` values are lowercased, and an empty
/// parameter list is dropped. `Text/Plain; P=X` is kept as `text/plain; p=X`, and `text/plain;` as `text/plain`.
#[derive(Drop)]
pub struct Mime {
    // Keep this order: an error's byte then shares a word with the text's tag, so whole words are moved.
    places: Places,
    text: Text,
    /// The end of the essence: the position of the semicolon after it, or the text's length if there is no parameter.
    essence_end: usize,
}

impl Model for Mime {
    ghost use Rattle.mime.specs.Values.{OwnedMedia};

    ghost Value = { OwnedMedia };

    ghost use Rattle.mime.specs.Inner.KeptBytes.{bytes_of, is_fixed};
    ghost use Rattle.mime.specs.Inner.KeptPlaces.{positions_at, IsKeptAt};
    ghost use Rattle.mime.specs.Inner.KeptText.{media_of};

    ghost view = { λ mime. record {
      media = media_of (bytes_of mime.text) (positions_at mime.places mime.essence_end);
      fixed = is_fixed mime.text;
    } };

    ghost invariant = { λ mime. IsKeptAt (bytes_of mime.text) mime.places mime.essence_end };
}

impl Mime {
    /// Reads a media type from the whole of `s` (RFC 7231, 3.1.1.1, with the departures that docs/DIFFERENCES.md lists). If `s` is a media
    /// type whose kept text has more than 40 bytes, this function allocates once, for this text. Otherwise it doesn't allocate.
    ///
    /// `TEXT/PLAIN; CHARSET=UTF-8; FOO=BAR` is kept as `text/plain; charset=utf-8; foo=BAR`, and `text/plain; ` as `text/plain`.
    ///
    /// # Errors
    /// Returns the fault of a string that isn't a media type. If something is missing at the string's end, the fault is `MissingSlash`,
    /// `MissingSubtype`, `MissingEqual`, `MissingValue` or `MissingQuote`: `MissingEqual` for `a/b;p`. Otherwise the fault is
    /// `InvalidToken`, with the first byte that can't continue a media type, and this byte's position in bytes from 0: 5 for `text/;`.
    /// Returns [`ParseError::NoMemory`] if memory runs out, which can happen only if the kept text has more than 40 bytes.
    pub fn from_str(alloc: Global, s: &str) -> Result<Mime, FromStrError>
        // The result is the value of the string.
        ensures read { IfOk result (λ mime. Reads s.now mime.media) }
        // An error is the fault of a rejected string, or says that memory ran out for an accepted string whose kept text
        // has more than 40 bytes.
        ensures explained { IfErr result (λ error. Explains s.now error) }
        // So an accepted string is read, or memory ran out.
        ensures accepted { IsAccepted s.now → IfErr result (λ error. error ≡ ParseError.NoMemory) }
        // `*/*` is always read, and fixed.
        ensures star { s.now ≡ codes "*/*" → IfOk result (λ mime. mime.fixed ≡ true) × IsOk result }
    {
        if s == "*/*" {
            return Ok(Mime::star());
        }
        let mut reader = ByteReader::by_blocks(s);
        let positions = match scan(&mut reader) {
            Scanned::Accepted(positions) => positions,
            Scanned::Unfinished(fault) => return Err(FromStrError::new(fault)),
            Scanned::Stopped(byte) | Scanned::Followed(_, byte) => {
                let pos = reader.position(0);
                return Err(FromStrError::new(ParseError::InvalidToken { pos, byte }));
            }
        };
        // Each branch for a short text returns, so that the text isn't moved where the branches join.
        if kept_len(s, positions) <= SHORT {
            if positions.pair_count == 0 {
                return Ok(Mime::of_short(s, positions, ShortText::essence(s, positions, true)));
            }
            return Ok(Mime::of_short(s, positions, ShortText::with_pairs(s, positions)));
        }
        Mime::of_accepted(alloc, s, positions)
    }

    /// Returns the media type of an accepted string whose parts have these positions. The only error is `NoMemory`.
    #[inline(always)]
    pub(crate) fn of_accepted(
        alloc: Global,
        s: &str,
        positions: Positions,
    ) -> Result<Mime, FromStrError>
        requires { HasPositions s.now positions }
        ensures read { IfOk result (λ mime. Reads s.now mime.media) }
        ensures memory { IfErr result (λ error. error ≡ ParseError.NoMemory) }
        ensures explained { IfErr result (λ error. Explains s.now error) }
        ensures star { s.now ≡ codes "*/*" → IfOk result (λ mime. mime.fixed ≡ true) }
    {
        if s == "*/*" {
            return Ok(Mime::star());
        }
        if kept_len(s, positions) <= SHORT {
            if positions.pair_count == 0 {
                return Ok(Mime::of_short(s, positions, ShortText::essence(s, positions, false)));
            }
            return Ok(Mime::of_short(s, positions, ShortText::with_pairs(s, positions)));
        }
        match keep(alloc, s, positions) {
            Ok(text) => Ok(Mime::of_kept(Text::Owned(text), positions_in_kept(positions))),
            Err(_) => Err(FromStrError::new(ParseError::NoMemory)),
        }
    }

    /// Returns the media type of an accepted string whose parts have these positions, and whose kept text is `text`.
    #[inline(always)]
    fn of_short(s: &str, positions: Positions, text: ShortText) -> Mime
        requires accepted { HasPositions s.now positions }
        requires kept { text ≡ kept_text_of positions.pair_count positions.semicolon s.now }
        ensures read { Reads s.now result.media }
        ensures fixed { result.fixed ≡ true }
    {
        Mime::of_kept(Text::Short(text), positions_in_kept(positions))
    }

    /// Returns the media type of `text`, which is known to be a kept text with the essence of `self` and `count` parameters.
    #[inline(always)]
    fn with_known_parameters(
        &self,
        alloc: Global,
        text: String,
        count: usize,
    ) -> Result<Mime, AllocError>
        requires known { IsKnown self.now.media (string_bytes text) count }
        ensures read { IfOk result (λ mime. Reads (string_bytes text) mime.media) }
        ensures short { length (string_bytes text) ≤ SHORT → IsOk result }
    {
        let positions = Positions {
            pair_count: count,
            ..self.before_list()
        };
        Ok(Mime::of_kept(Text::of(alloc, text)?, positions))
    }

    /// Returns the media type `*/*`.
    #[inline(always)]
    fn star() -> Mime
        ensures reads { Reads (codes "*/*") result.media }
        ensures fixed { result.fixed ≡ true }
    {
        let positions = Positions {
            slash: 1,
            plus: None,
            semicolon: None,
            pair_count: 0,
        };
        Mime::fixed("*/*", positions)
    }

    /// Returns the media type of a kept text whose parts have these positions.
    #[inline(always)]
    fn of_kept(text: Text, positions: Positions) -> Mime
        requires { IsKept (bytes_of text) positions }
        ensures media { result.media ≡ media_of (bytes_of text) positions }
        ensures fixed { result.fixed ≡ is_fixed text }
    {
        let essence_end = positions.semicolon.unwrap_or(text.as_str().len());
        Mime {
            places: Places::of(positions, essence_end),
            text,
            essence_end,
        }
    }

    /// Returns the media type of a short kept text whose parts have these positions.
    #[inline(always)]
    pub(crate) fn fixed(text: &str, positions: Positions) -> Mime
        requires kept { IsKept text.now positions }
        requires short { length text.now ≤ SHORT }
        ensures media { result.media ≡ media_of text.now positions }
        ensures reads { Reads text.now result.media }
        ensures fixed { result.fixed ≡ true }
    {
        Mime::of_kept(Text::Short(ShortText::copied(text)), positions)
    }

    /// Returns the type, in lowercase: `text` for `Text/Plain` (RFC 7231, 3.1.1.1).
    pub fn type_(&self) -> Name<'_>
        ensures text { result.text.now ≡ type_of self.now.media }
        ensures flag { result.ignores_case ≡ true }
        ensures low { lowered result.text.now ≡ result.text.now }
    {
        Name {
            text: &self.text.as_str()[..self.places.slash],
            ignores_case: true,
        }
    }

    /// Returns the subtype without its suffix, in lowercase: `svg` for `image/svg+xml`, `b+c` for `a/b+c+d` (RFC 6838, 4.2.8).
    pub fn subtype(&self) -> Name<'_>
        ensures text { result.text.now ≡ subtype_of self.now.media }
        ensures flag { result.ignores_case ≡ true }
        ensures low { lowered result.text.now ≡ result.text.now }
    {
        let essence = self.essence_str();
        let end = self.places.plus().unwrap_or(essence.len());
        Name {
            text: &essence[self.places.slash + 1..end],
            ignores_case: true,
        }
    }

    /// Returns the suffix, in lowercase: the text after the subtype's last `+`, or `None` if the subtype has no `+` after its first byte.
    /// It is `xml` for `image/svg+xml`, the empty string for `a/b+`, and `None` for `a/+xml` (RFC 6838, 4.2.8).
    pub fn suffix(&self) -> Option<Name<'_>>
        ensures text { option_map name_text result ≡ suffix_of self.now.media }
        ensures flag { IfSome result (λ name. name.ignores_case ≡ true) }
        ensures low { IfSome result (λ name. lowered name.text.now ≡ name.text.now) }
    {
        let plus = self.places.plus()?;
        Some(Name {
            text: &self.essence_str()[plus + 1..],
            ignores_case: true,
        })
    }

    /// Returns the essence, in lowercase: the type and the subtype with its suffix, `image/svg+xml` for
    /// `Image/SVG+XML; q=1` (RFC 7231, 3.1.1.1).
    pub fn essence_str(&self) -> &str
        ensures { result.now ≡ self.now.media.essence }
    {
        &self.text.as_str()[..self.essence_end]
    }

    /// Returns the kept text, which `Display` prints. If there is a parameter, the kept text is the whole string that
    /// was read, with type, subtype, parameter names and charsets in lowercase: `a/b;p=X; ` for `a/b;P=X; `. Otherwise
    /// it is the essence. [`Mime::from_str`] reads the kept text as an equal value with the same kept text.
    pub fn as_str(&self) -> &str
        ensures text { result.now ≡ self.now.media.kept }
        ensures reads { Reads result.now self.now.media }
    {
        self.text.as_str()
    }

    /// Returns an iterator over the parameters in order of appearance, with duplicates (RFC 7231, 3.1.1.1). For each it
    /// yields the name, and the value without its quotes: `p` with `1`, and then `p` with `;`, for `a/b;p=1;P=";"`.
    pub fn params(&self) -> Params<'_>
        ensures items { result ≡ items_of self.now.media.pairs }
        ensures low { AllByRecursion IsLowItem result }
    {
        Params::new(self.pairs())
    }

    /// Returns an iterator over the parameters as pairs of a name and a value, both strings.
    #[inline(always)]
    pub(crate) fn pairs(&self) -> Pairs<'_>
        ensures pairs { result ≡ self.now.media.pairs }
        ensures low { AreLowPairs result }
    {
        if self.param_count() == 0 {
            return Pairs::none();
        }
        let text = self.text.as_str();
        Pairs::of_text(
            text,
            self.places.semicolon(self.essence_end),
            self.places.pair_count,
        )
    }

    /// Returns the number of parameters.
    #[inline(always)]
    pub(crate) fn param_count(&self) -> usize
        ensures { result ≡ length self.now.media.pairs }
    {
        self.places.pair_count
    }

    /// Returns the positions of the parts of a string that begins with the essence and a semicolon. The number of
    /// parameters is 0, since none has been read yet.
    #[inline(always)]
    pub(crate) fn before_list(&self) -> Positions
        ensures { result ≡ positions_before_list self.now.media }
    {
        Positions {
            slash: self.places.slash,
            plus: self.places.plus(),
            semicolon: Some(self.essence_str().len()),
            pair_count: 0,
        }
    }

    /// Returns the value of the first parameter whose name the key accepts, or `None` if the key accepts no name: `TextKey("P")` finds `1`
    /// in `a/b;p=1;P=2`, and `CHARSET` finds `utf-8` in `text/html; Charset="UTF-8"` (RFC 7231, 3.1.1.1). The value is returned without its
    /// quotes, but with its backslashes: it is `\"x` for `a/b;p="\"x"`. Looking up doesn't allocate.
    #[inline(always)]
    pub fn get_param<K: ParamKey>(&self, key: K) -> Option<Name<'_>>
        ensures found { IsFirstAccepted (K.Accepts key) (items_of self.now.media.pairs) (option_map name_seen result) }
        ensures low { IfSome result (λ name. IsLowIf name.ignores_case name.text.now) }
    {
        // Most media types have no parameter.
        if self.param_count() == 0 {
            return None;
        }
        self.pairs().first_accepted(&key)
    }
}
