//! Reads an `Accept` header, and chooses among a server's offers.

ghost use Rattle.std.specs.Prelude.{◌≡◌, ◌≢◌, ◌<◌, [], ◌∷◌, map, length, IfSome, IsOk, IfOk, OnOk, MatchOption};
ghost use Rattle.std.specs.{Str.IsUtf8, Vec.vec_items};
ghost use Rattle.mime.specs.Faults.{Explains};
ghost use Rattle.mime_http.specs.HttpList.{trimmed, lines_or_any, AreSorted, Header, IsHeader, IsFirstBad};
ghost use Rattle.mime_http.specs.Ranges.{given_weight, best_offer, AreInOrder};
ghost use Rattle.mime_http.specs.LineCut.{cut, pieces_of, Takes, nothing_held, with_range, with_bad};

use crate::list::{piece_end, trimmed};
use crate::offers::{best_of, merit, order_of};
use crate::value::{FieldError, content_type_after};
use mime::{Mime, ParseError};
use mime_search::text_of;
use std::alloc::{AllocError, Global};
use std::marker::Model;

/// The initial capacity of the list of ranges. Few headers have more ranges, so the list seldom grows.
const FIRST_RANGES: usize = 8;

/// The ranges of an `Accept` header (RFC 9110, 12.5.1), and its bad entries.
#[derive(Drop, Debug)]
pub struct Accept {
    ranges: Vec<Mime>,
    bad: Vec<Vec<u8>>,
}

impl Model for Accept {
    ghost use Rattle.std.specs.Prelude.{map};
    ghost use Rattle.std.specs.Vec.{vec_items};
    ghost use Rattle.mime_http.specs.HttpList.{Header};

    ghost Value = { Header };

    ghost view = { λ accept. record {
      ranges = map (λ range. range.media) (vec_items accept.ranges);
      bad = map vec_items (vec_items accept.bad);
    } };
}

/// The bad entries of a line.
#[derive(Clone, Copy, PartialEq, Eq, Debug)]
pub struct BadEntries {
    /// The number of bad entries.
    pub count: usize,
    /// The position of the first bad entry among the line's entries, from 0, or `None` if no entry is bad.
    pub first: Option<usize>,
}

/// What is read so far of a header's lines. `bad` counts the bad entries, even if `accept` keeps none.
#[derive(Drop)]
struct Reading {
    accept: Accept,
    bad: BadEntries,
}

impl Model for Reading {
    ghost use Rattle.mime_http.specs.LineCut.{Held};

    ghost Value = { Held };

    ghost view = { λ reading. record { kept = reading.accept; count = reading.bad.count; first = reading.bad.first } };
}

impl Reading {
    /// Begins to read lines.
    #[inline(always)]
    fn new(alloc: Global) -> Reading
        ensures { result ≡ nothing_held }
    {
        Reading {
            accept: Accept {
                ranges: Vec::new(alloc),
                bad: Vec::new(alloc),
            },
            bad: BadEntries {
                count: 0,
                first: None,
            },
        }
    }

    /// Adds a range. The first call allocates space for `FIRST_RANGES` ranges, and a full list doubles its capacity.
    #[inline(always)]
    fn take(&mut self, range: Mime) -> Result<(), AllocError>
        ensures { OnOk result (self.new ≡ with_range range.media self.old) }
    {
        let ranges = &mut self.accept.ranges;
        if ranges.len() == ranges.capacity() {
            ranges.reserve(FIRST_RANGES)?;
        }
        ranges.push_reserved(range);
        Ok(())
    }

    /// Counts a bad entry, and keeps it if `keeps_bad` is `true`. This function isn't inlined, since few entries are bad.
    #[inline(never)]
    fn take_bad(&mut self, alloc: Global, keeps_bad: bool, entry: &[u8]) -> Result<(), AllocError>
        ensures { OnOk result (self.new ≡ with_bad keeps_bad entry.now self.old) }
    {
        if self.bad.first.is_none() {
            self.bad.first = Some(self.accept.ranges.len());
        }
        self.bad.count = self.bad.count.saturating_add(1);
        if keeps_bad {
            self.accept.bad.push(Vec::from_slice(alloc, entry)?)?;
        }
        Ok(())
    }

    /// Adds a piece of a line as a range or a bad entry. `fault` is what `mime` returns for the trimmed piece: its fault, or `NoMemory`.
    /// This function isn't inlined, so that the code for pieces that `mime` accepts stays short.
    #[inline(never)]
    #[tactic(auto, using(crate::proofs::Around::utf8_around))]
    fn take_rejected(
        &mut self,
        alloc: Global,
        keeps_bad: bool,
        piece: &[u8],
        fault: ParseError,
    ) -> Result<(), AllocError>
        requires some { trimmed piece.now ≢ [] }
        requires utf8 { IsUtf8 (trimmed piece.now) }
        requires fault { Explains (trimmed piece.now) fault }
        ensures { OnOk result (Takes keeps_bad (piece.now ∷ []) self.old self.new) }
    {
        // SAFETY: the trimmed piece is UTF-8, and the white space around it is ASCII.
        let text = unsafe { str::from_utf8_unchecked(piece) };
        match content_type_after(alloc, text, fault) {
            Ok(range) => self.take(range),
            Err(error) => match error {
                FieldError::NoMemory => Err(AllocError),
                _ => self.take_bad(alloc, keeps_bad, trimmed(piece)),
            },
        }
    }

    /// Adds a piece of a line as a range or a bad entry, unless the piece is only white space.
    #[inline(always)]
    fn take_piece(&mut self, alloc: Global, keeps_bad: bool, piece: &[u8]) -> Result<(), AllocError>
        ensures taken { OnOk result (Takes keeps_bad (piece.now ∷ []) self.old self.new) }
        ensures blank { trimmed piece.now ≡ [] → IsOk result }
    {
        let entry = trimmed(piece);
        if entry.is_empty() {
            return Ok(());
        }
        let Ok(text) = text_of(entry) else {
            return self.take_bad(alloc, keeps_bad, entry);
        };
        match Mime::from_str(alloc, text) {
            Ok(range) => self.take(range),
            Err(error) => self.take_rejected(alloc, keeps_bad, piece, *error.fault()),
        }
    }

    /// Adds the ranges and the bad entries of a line.
    #[tactic(auto, using(crate::proofs::Takes::past_empty, crate::proofs::Takes::past_piece, crate::proofs::Takes::blank_there))]
    fn take_line(&mut self, alloc: Global, keeps_bad: bool, line: &[u8]) -> Result<(), AllocError>
        ensures taken { OnOk result (Takes keeps_bad (cut line.now) self.old self.new) }
        ensures nothing { AreSorted (cut line.now) [] [] → IsOk result }
    {
        let mut from = 0;
        loop {
            // An empty piece is skipped without being read.
            if line.get(from) == Some(&b',') {
                from += 1;
                continue;
            }
            let end = piece_end(line, from);
            self.take_piece(alloc, keeps_bad, &line[from..end])?;
            if end == line.len() {
                return Ok(());
            }
            from = end + 1;
        }
    }

    /// Adds the ranges and the bad entries of a header's lines. This function isn't inlined, so that its callers share one copy of the
    /// loop.
    #[inline(never)]
    fn take_lines(
        &mut self,
        alloc: Global,
        keeps_bad: bool,
        lines: &[&[u8]],
    ) -> Result<(), AllocError>
        ensures taken { OnOk result (Takes keeps_bad (pieces_of (lines_or_any (map (λ line. line.now) lines.now))) self.old self.new) }
        ensures nothing { AreSorted (pieces_of (lines_or_any (map (λ line. line.now) lines.now))) [] [] → IsOk result }
    {
        if lines.is_empty() {
            return self.take_line(alloc, keeps_bad, b"*/*");
        }
        for line in lines {
            self.take_line(alloc, keeps_bad, line)?;
        }
        Ok(())
    }
}

impl Accept {
    /// Reads the lines of a header as one list (RFC 9110, 5.3 and 12.5.1). A request without the header has no lines, `&[]`, and accepts
    /// everything. Lines without a range, such as an empty line or `invalid`, accept nothing. Each line is cut at its commas outside quoted
    /// strings. A quoted string that isn't closed ends with its line.
    ///
    /// Allocates the lists of ranges and of bad entries, a copy of each bad entry, and what [`content_type`](crate::content_type) allocates
    /// for each range.
    ///
    /// # Errors
    /// Returns `AllocError` if memory runs out, which never happens for one line or more of only commas and white space.
    #[inline(always)]
    pub fn from_lines(alloc: Global, lines: &[&[u8]]) -> Result<Accept, AllocError>
        ensures header { IfOk result (λ accept. IsHeader (map (λ line. line.now) lines.now) accept) }
        ensures nothing { IsHeader (map (λ line. line.now) lines.now) (record { ranges = []; bad = [] }) → IsOk result }
    {
        let mut reading = Reading::new(alloc);
        reading.take_lines(alloc, true, lines)?;
        Ok(reading.accept)
    }

    /// Reads the lines of a header as [`Accept::from_lines`] does, but doesn't keep the bad entries.
    ///
    /// # Errors
    /// Returns `AllocError` if memory runs out, which never happens for one line or more of only commas and white space.
    pub fn from_lines_without_bad(alloc: Global, lines: &[&[u8]]) -> Result<Accept, AllocError>
        ensures header { IfOk result (λ accept. (header : Header) × IsHeader (map (λ line. line.now) lines.now) header
            × (accept ≡ record header { bad = [] })) }
        ensures nothing { IsHeader (map (λ line. line.now) lines.now) (record { ranges = []; bad = [] }) → IsOk result }
    {
        let mut reading = Reading::new(alloc);
        reading.take_lines(alloc, false, lines)?;
        Ok(reading.accept)
    }

    /// Reads one line as [`Accept::from_lines`] does, but counts its bad entries and doesn't keep them. A line can also be a list of
    /// offers, such as `text/html, application/json`, which [`Accept::ranges`] then returns.
    ///
    /// # Errors
    /// Returns `AllocError` if memory runs out, which never happens for a line of only commas and white space.
    pub fn from_line_counting_bad(
        alloc: Global,
        line: &[u8],
    ) -> Result<(Accept, BadEntries), AllocError>
        ensures header { IfOk result (λ read. (header : Header) × IsHeader (line.now ∷ []) header × (read.0 ≡ record header { bad = [] })
            × (read.1.count ≡ length header.bad)) }
        ensures first { IfOk result (λ read. MatchOption read.1.first (read.1.count ≡ 0) (IsFirstBad (line.now ∷ []))) }
        ensures nothing { IsHeader (line.now ∷ []) (record { ranges = []; bad = [] }) → IsOk result }
    {
        let mut reading = Reading::new(alloc);
        reading.take_line(alloc, false, line)?;
        Ok((reading.accept, reading.bad))
    }

    /// Returns the ranges, in the header's order. Each is the media type that [`content_type`](crate::content_type) returns for its entry.
    pub fn ranges(&self) -> &[Mime]
        ensures { map (λ range. range.media) result.now ≡ self.now.ranges }
    {
        &self.ranges
    }

    /// Returns the entries that aren't ranges, in the header's order. Each has the bytes that were passed, without the white space around
    /// them. [`Accept::from_lines_without_bad`] keeps none.
    pub fn bad(&self) -> &[Vec<u8>]
        ensures { map vec_items result.now ≡ self.now.bad }
    {
        &self.bad
    }

    /// Returns the weight of an offer, in thousandths: the weight of the most specific range that covers it, or 0 if no range covers it
    /// (RFC 9110, 12.5.1). Of two equally specific ranges, the higher weight counts. [`covers`](crate::covers) defines what a range covers.
    /// If the only range is `application/json; charset=utf-8`, the offer `application/json` weighs 0, since it lacks the parameter. This
    /// doesn't allocate.
    pub fn weight(&self, offer: &Mime) -> u16
        ensures { result ≡ given_weight self.now.ranges offer.now.media }
    {
        merit(&self.ranges, offer).0
    }

    /// Returns the position of the offer with the highest weight, or `None` exactly if every offer weighs 0. Of offers with equal weights,
    /// these rules choose the best, in this order:
    /// 1. The offer with the more specific range wins: the range that names more parts (`text/*` names one) or, if both name equally many,
    ///    demands more parameters.
    /// 2. The offer whose range is earlier in the header wins. Of equally specific ranges with the same weight, the last counts.
    /// 3. The earlier offer wins.
    ///
    /// If the result is `None`, reply with 406 (RFC 9110, 15.5.7). Every reply depends on the header, so send `Vary: Accept` (12.5.5). This
    /// doesn't allocate.
    pub fn best(&self, offers: &[Mime]) -> Option<usize>
        ensures exact { result ≡ best_offer self.now.ranges (map (λ offer. offer.media) offers.now) }
        ensures within { IfSome result (λ at. at < length offers.now) }
    {
        best_of(&self.ranges, offers)
    }

    /// Returns the positions of all offers that weigh more than 0, the best first. Offers are compared as in [`Accept::best`], which
    /// returns the first of these positions. Allocates the positions and, temporarily, a list of the offers' ranks and a buffer to sort it.
    ///
    /// # Errors
    /// Returns `AllocError` if memory runs out, which never happens if there are no offers.
    pub fn order(&self, alloc: Global, offers: &[Mime]) -> Result<Vec<usize>, AllocError>
        ensures order { IfOk result (λ order. AreInOrder self.now.ranges (map (λ offer. offer.media) offers.now) (vec_items order)) }
        ensures none { offers.now ≡ [] → IsOk result }
    {
        order_of(alloc, &self.ranges, offers)
    }
}
