//! An iterator over the parameters of a media type.

ghost use Rattle.std.specs.Prelude.{◌≡◌, codes, length, IfSome, Some};
ghost use Rattle.std.specs.Iterator.{YieldsFirstBy, item_count, UpTo, at_most};
ghost use Rattle.std.specs.Iterator.SizeHint.{IsWithinCount};
ghost use Rattle.mime.specs.Items.{items_of, item_seen};

use crate::name::Name;
use crate::name::constants::CHARSET;
use crate::value::pairs::Pairs;
use std::fmt;
use std::marker::Model;

/// An iterator over the parameters of a media type, returned by [`Mime::params`](crate::Mime::params). It yields a name
/// and a value for each, in order of appearance: `p` and `X` for `a/b;P=X` (RFC 7231, 3.1.1.1). Names ignore case. A
/// value ignores case only if its name is `charset`. Values lose their quotes, but keep their backslashes: `\"x` for
/// `a/b;p="\"x"`. The size hint is exact. The iterator doesn't allocate.
#[derive(Drop)]
pub struct Params<'a> {
    pairs: Pairs<'a>,
}

impl<'a> Model for Params<'a> {
    ghost use Rattle.std.specs.Prelude.{List};
    ghost use Rattle.mime.specs.Items.{Item, items_of};

    ghost Value = { List Item };

    ghost view = { λ params. items_of params.pairs };
}

impl<'a> Params<'a> {
    /// Returns an iterator over these pairs.
    pub(crate) fn new(pairs: Pairs<'a>) -> Params<'a>
        ensures { result ≡ items_of pairs.entry }
    {
        Params { pairs }
    }
}

impl<'a> Iterator for Params<'a> {
    type Item = (Name<'a>, Name<'a>);

    ghost next_gives = { YieldsFirstBy item_seen (λ params. params) };

    ghost remaining = { item_count (λ params. params) };

    #[inline(always)]
    fn next(&mut self) -> Option<(Name<'a>, Name<'a>)> {
        let (name, value) = self.pairs.next()?;
        let ignores_case = name == CHARSET.text;
        let name = Name {
            text: name,
            ignores_case: true,
        };
        let value = Name {
            text: value,
            ignores_case,
        };
        Some((name, value))
    }

    fn size_hint(&self) -> (usize, Option<usize>)
        ensures lower { IsWithinCount result.0 (at_most (length self.now)) }
        ensures upper { IfSome result.1 (UpTo (at_most (length self.now))) }
        // Both bounds are the number of parameters left.
        ensures exact { result ≡ (length self.now, Some (length self.now)) }
    {
        self.pairs.size_hint()
    }
}

/// Prints the word `Params`.
impl fmt::Debug for Params<'_> {
    ghost debug_output = { λ params. Some (codes "Params") };

    fn fmt<W: fmt::Write>(&self, f: &mut fmt::Formatter<W>) -> fmt::Result {
        f.write_str("Params")
    }
}
