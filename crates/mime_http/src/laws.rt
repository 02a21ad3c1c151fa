//! The laws of the definitions and of `FieldError`, as functions. A caller of such a function can use the law in its own proof.
#![tactic(auto, using(crate::proofs::LawLemmas::laws))]

ghost use Rattle.std.specs.Prelude.{◌≡◌};
ghost use Rattle.mime_http.specs.HeaderLaws.{PlainIsHttp, OneHttpReading, OnePrintedText, PrintedIsRead, OneHttpFault};
ghost use Rattle.mime_http.specs.ListLaws.{OneCutOfLines, HttpListsAreRead, ReadAreHttpLists, OneHeader, OneFirstBad, BadIsAlone};
ghost use Rattle.mime_http.specs.Written.{WrittenIsMeant};
ghost use Rattle.mime_http.specs.RangesLaws.{ClosestIsClosest, BestIsAcceptable, BestIsFirst, NoneIsBest, OneOrderOfOffers, OneRanking};
ghost use Rattle.mime_http.specs.RangesLaws.{BestIsRankedFirst, CoversItself, MeaningCounts, StrangerChangesNothing, QvaluesAre};
ghost use Rattle.mime_http.specs.RangesLaws.{WeightIsNumber};

use crate::accept::BadEntries;
use crate::ranking::RankedOffer;
use crate::value::FieldError;

/// HTTP allows each text that `mime` accepts, such as `a/b; p=x;`, and defines the same media type for it.
pub fn plain_is_http()
    ensures { PlainIsHttp }
{}

/// A value is read as at most one media type, even if it has several parse trees. The space of `a/b; ;p=x` can belong to the first
/// semicolon or to the second.
pub fn one_http_reading()
    ensures { OneHttpReading }
{}

/// At most one text is printed for a value. For ` text/html ;; charset="utf-8"` it is `text/html; charset=utf-8`.
pub fn one_printed_text()
    ensures { OnePrintedText }
{}

/// The text that is printed for a value is read as the same media type, and is printed as itself.
pub fn printed_is_read()
    ensures { PrintedIsRead }
{}

/// A value that isn't a media type has exactly one fault. The fault of `   a/b c` is its byte at position 7, counted from 0 (RFC 9110,
/// 8.3.1).
pub fn one_http_fault()
    ensures { OneHttpFault }
{}

/// Lines can be cut into pieces in exactly one way. `a/b;p="x,y",c/d` is cut into two pieces.
pub fn one_cut()
    ensures { OneCutOfLines }
{}

/// A list that HTTP allows is read as its entries, none of them bad: `,a/b ,, c/d;q=0.5` has `a/b` and `c/d;q=0.5` (RFC 9110, 5.6.1.2).
pub fn http_lists_are_read()
    ensures { HttpListsAreRead }
{}

/// Lines without a bad entry are lists that HTTP allows.
pub fn read_are_http_lists()
    ensures { ReadAreHttpLists }
{}

/// The lines of a header determine its ranges, how each range is printed, and its bad entries.
pub fn one_header()
    ensures { OneHeader }
{}

/// Lines have a first bad entry exactly if an entry is bad, and only one. That of `a/b, , c d, e` is at position 1.
pub fn one_first_bad()
    ensures { OneFirstBad }
{}

/// A bad entry, wherever it is, changes no other entry and no offer's weight: `c/d, a b` and `c/d` have the same ranges.
pub fn bad_is_alone()
    ensures { BadIsAlone }
{}

/// The most specific range covers the offer, and no range that covers it is more specific.
pub fn closest_is_closest()
    ensures { ClosestIsClosest }
{}

/// A written value means the value that was passed, or that value in lowercase for a `charset` (RFC 9110, 5.6.4).
pub fn written_is_meant()
    ensures { WrittenIsMeant }
{}

/// The best offer is acceptable: it weighs more than 0 (RFC 9110, 12.4.2).
pub fn best_is_acceptable()
    ensures { BestIsAcceptable }
{}

/// The best offer is the first in the order of all offers that weigh more than 0.
pub fn best_is_first()
    ensures { BestIsFirst }
{}

/// No offer is the best exactly if every offer weighs 0.
pub fn none_is_best()
    ensures { NoneIsBest }
{}

/// The positions of the offers that weigh more than 0 are in order in only one way.
pub fn one_order()
    ensures { OneOrderOfOffers }
{}

/// All offers are ranked in only one way.
pub fn one_ranking()
    ensures { OneRanking }
{}

/// The first offer of a ranking is the best, unless it weighs 0. Then every offer weighs 0, and none is the best.
pub fn best_is_ranked_first()
    ensures { BestIsRankedFirst }
{}

/// Each media type covers itself, even `a/b;p=1;p=2`.
pub fn covers_itself()
    ensures { CoversItself }
{}

/// What a range and an offer mean, and the range's weight, determine whether the range covers the offer, and how specific it is:
/// `a/b;p="\x"` covers `a/b;p=x` as `a/b;p=x` does (RFC 9110, 5.6.4).
pub fn meaning_counts()
    ensures { MeaningCounts }
{}

/// `has_valid_weight` tests the value of `q` for exactly the weights that RFC 9110 allows (12.4.2).
pub fn qvalues_are()
    ensures { QvaluesAre }
{}

/// A weight that RFC 9110 allows counts as its number, in thousandths: `0.25` as 250, and `1.` as 1000 (12.4.2).
pub fn weight_is_number()
    ensures { WeightIsNumber }
{}

/// A range that covers none of the offers changes neither their weights nor their order, nor which offer is the best. For the offers
/// `text/html` and `text/plain`, the range `image/png;q=0` doesn't matter.
pub fn stranger_changes_nothing()
    ensures { StrangerChangesNothing }
{}

/// A `FieldError`, a `RankedOffer` and `BadEntries` can always be copied and cloned, and the copy is the same.
pub fn copies_are_same()
    ensures error { (value copy : FieldError) → ⟦<FieldError as Clone>⟧.is_clone value copy → copy ≡ value }
    ensures error_always { (value : FieldError) → ⟦<FieldError as Clone>⟧.is_infallible value }
    ensures ranked { (value copy : RankedOffer) → ⟦<RankedOffer as Clone>⟧.is_clone value copy → copy ≡ value }
    ensures ranked_always { (value : RankedOffer) → ⟦<RankedOffer as Clone>⟧.is_infallible value }
    ensures bad { (value copy : BadEntries) → ⟦<BadEntries as Clone>⟧.is_clone value copy → copy ≡ value }
    ensures bad_always { (value : BadEntries) → ⟦<BadEntries as Clone>⟧.is_infallible value }
{}
