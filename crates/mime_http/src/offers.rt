//! The weights and the order of a server's offers, according to the ranges of an `Accept` header.

ghost use Rattle.std.specs.Prelude.{◌≡◌, ◌<◌, ◌+◌, [], map, length, IfSome, IfOk, IsOk};
ghost use Rattle.std.specs.{Option.option_cmp, Ordering.ord_max, Vec.vec_items};
ghost use Rattle.mime.specs.Values.{type_of};
ghost use Rattle.mime_http.specs.Sorted.{AreRanked};
ghost use Rattle.mime_http.specs.Ranges.{rank_cmp, closeness, closest, merit, best_offer, AreInOrder};

use crate::range::{demanded, named_parts};
use mime::Mime;
use std::alloc::{AllocError, Global};
use std::cmp::Reverse;
use std::marker::Model;

/// The most specific range so far that covers an offer: how many parts it names, how many parameters it demands, its weight, and the number
/// `left` of ranges from it to the last. All four are 0 if no range so far covers the offer. `all` is the number of ranges.
#[derive(Drop)]
struct Closest {
    named: u8,
    demanded: usize,
    weight: u16,
    left: usize,
    all: usize,
}

impl Model for Closest {
    ghost use Rattle.std.specs.Prelude.{◌≡◌, ◌≤◌, ◌-◌, ◌==◌, ℕ, Option, Some, None, if◌then◌else◌};
    ghost use Rattle.mime_http.specs.Ranges.{Rank};

    ghost Value = { ℕ × Option Rank };

    ghost view = { λ closest. (
      closest.all,
      if closest.left == 0 then None else Some (closest.named, closest.demanded, closest.weight, closest.all - closest.left),
    ) };

    ghost invariant = { λ closest. (closest.left ≤ closest.all)
        × (closest.left ≡ 0 → (closest.named ≡ 0) × (closest.demanded ≡ 0) × (closest.weight ≡ 0)) };
}

impl Closest {
    /// Keeps the range at position `at` if it covers the offer, unless the range kept so far is more specific, or is equally specific and
    /// has a higher weight. `at` is after the position of the range kept so far. If `range` names fewer parts, its parameters aren't read.
    /// `essence` and `type_` are the offer's.
    #[inline(always)]
    fn look_at(&mut self, range: &Mime, offer: &Mime, essence: &str, type_: &str, at: usize)
        requires essence { essence.now ≡ offer.now.media.essence }
        requires type_ { type_.now ≡ type_of offer.now.media }
        requires within { at < self.old.0 }
        requires later { IfSome self.old.1 (λ kept. kept.3 < at) }
        ensures later { IfSome self.new.1 (λ kept. kept.3 < at + 1) }
        ensures kept { self.new ≡ (self.old.0, ord_max (option_cmp rank_cmp) self.old.1 (closeness offer.now.media (at, range.now.media))) }
    {
        let Some(named) = named_parts(range, essence, type_) else {
            return;
        };
        if named < self.named {
            return;
        }
        let Some((demanded, weight)) = demanded(range, offer) else {
            return;
        };
        if (named, demanded, weight) < (self.named, self.demanded, self.weight) {
            return;
        }
        self.named = named;
        self.demanded = demanded;
        self.weight = weight;
        self.left = self.all - at;
    }
}

/// Returns the rank of an offer: its weight, then how specific its range is, then how early its range is in the header. Returns zeros if no
/// range covers the offer.
#[inline(always)]
#[tactic(auto, using(crate::proofs::Highest::closest_is_kept))]
pub(crate) fn merit(ranges: &[Mime], offer: &Mime) -> (u16, u8, usize, usize)
    ensures { result ≡ merit (map (λ range. range.media) ranges.now) offer.now.media }
{
    let essence = offer.essence_str();
    let type_ = offer.type_().text;
    let mut closest = Closest {
        named: 0,
        demanded: 0,
        weight: 0,
        left: 0,
        all: ranges.len(),
    };
    for (at, range) in ranges.iter().enumerate() {
        closest.look_at(range, offer, essence, type_, at);
    }
    (
        closest.weight,
        closest.named,
        closest.demanded,
        closest.left,
    )
}

/// Returns the position of the first offer of the highest rank, or `None` if all offers weigh 0.
pub(crate) fn best_of(ranges: &[Mime], offers: &[Mime]) -> Option<usize>
    ensures exact { result ≡ best_offer (map (λ range. range.media) ranges.now) (map (λ offer. offer.media) offers.now) }
    ensures within { IfSome result (λ at. at < length offers.now) }
{
    let mut most = (0, 0, 0, 0);
    let mut best = None;
    for (at, offer) in offers.iter().enumerate() {
        let merit = merit(ranges, offer);
        if merit.0 > 0 && merit > most {
            most = merit;
            best = Some(at);
        }
    }
    best
}

/// An offer's rank and its position. The better of two offers has the lower `Ranked`.
pub(crate) type Ranked = (Reverse<(u16, u8, usize, usize)>, usize);

/// Returns the ranks and positions of the offers that weigh at least `least` thousandths, the best first.
#[inline(always)]
pub(crate) fn ranked(
    alloc: Global,
    ranges: &[Mime],
    offers: &[Mime],
    least: u16,
) -> Result<Vec<Ranked>, AllocError>
    ensures { IfOk result (λ ranked. AreRanked least (map (λ range. range.media) ranges.now)
        (map (λ offer. offer.media) offers.now) (vec_items ranked)) }
{
    let mut ranked = Vec::new(alloc);
    for (at, offer) in offers.iter().enumerate() {
        let merit = merit(ranges, offer);
        if merit.0 >= least {
            ranked.push((Reverse(merit), at))?;
        }
    }
    ranked.sort()?;
    Ok(ranked)
}

/// Returns the positions of the offers that weigh more than 0, the best first.
pub(crate) fn order_of(
    alloc: Global,
    ranges: &[Mime],
    offers: &[Mime],
) -> Result<Vec<usize>, AllocError>
    ensures order { IfOk result (λ order. AreInOrder (map (λ range. range.media) ranges.now)
        (map (λ offer. offer.media) offers.now) (vec_items order)) }
    ensures none { offers.now ≡ [] → IsOk result }
{
    if offers.is_empty() {
        return Ok(Vec::new(alloc));
    }
    let ranked = ranked(alloc, ranges, offers, 1)?;
    ranked.iter().map(|offer| offer.1).collect(alloc)
}
