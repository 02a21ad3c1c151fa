//! The positions of a kept text's parts, as a `Mime` stores them.

ghost use Rattle.std.specs.Prelude.{◌≡◌, ◌≢◌, Some};
ghost use Rattle.mime.specs.Inner.KeptText.{kept_semicolon};
ghost use Rattle.mime.specs.Inner.KeptPlaces.{unless_zero, positions_at};

use crate::scan::Positions;

/// The positions of a text's slash and plus, and the number of its parameters, a word each.
#[derive(Clone, Copy)]
pub(crate) struct Places {
    pub(crate) slash: usize,
    pub(crate) pair_count: usize,
    /// The position of the plus before the suffix, or 0 if there is none.
    // This field is last, since reading gets slower if it isn't: an error of `from_str` has its byte at this offset, and LLVM writes a
    // constant there in parts, unless it is 0 beside other constants.
    pub(crate) plus: usize,
}

impl Places {
    /// Returns these positions as places. `end` is where the text's essence ends: the position of the semicolon after
    /// it, or the length of the text.
    #[inline(always)]
    pub(crate) fn of(positions: Positions, end: usize) -> Places
        requires plus { positions.plus ≢ Some 0 }
        requires semicolon { kept_semicolon positions.pair_count (Some end) ≡ positions.semicolon }
        ensures { positions_at result end ≡ positions }
    {
        Places {
            slash: positions.slash,
            plus: positions.plus.unwrap_or(0),
            pair_count: positions.pair_count,
        }
    }

    /// Returns the position of the plus before the suffix, if there is one.
    #[inline(always)]
    pub(crate) fn plus(&self) -> Option<usize>
        ensures { result ≡ unless_zero self.now.plus }
    {
        (self.plus != 0).then_some(self.plus)
    }

    /// Returns the position of the semicolon after the essence, which ends at `end`, or `None` if there is none.
    #[inline(always)]
    pub(crate) fn semicolon(&self, end: usize) -> Option<usize>
        ensures { result ≡ (positions_at self.now end).semicolon }
    {
        (self.pair_count != 0).then_some(end)
    }
}
