//! Counts requests by media type.

ghost use Rattle.std.specs.Prelude.{◌≡◌, ◌≤◌, ◌+◌, Some, IsTrue, IfOk, false, min, unwrap_or};
ghost use Rattle.std.specs.Vec.{vec_items};
ghost use Rattle.std.specs.List.Sorted.{IsPermutation, IsSorted};
ghost use Rattle.std.specs.Ordering.{nat_cmp, ordering_then};
ghost use Rattle.std.specs.HashMap.{get, hash_map_len, Updates};
ghost use Rattle.mime.specs.Laws.{without_parameters};
ghost use Rattle.mime.specs.Values.{OwnedMedia};

use crate::bare::bare_of;
use mime::Mime;
use std::alloc::{AllocError, Global};
use std::collections::HashMap;
use std::hash::RandomState;
use std::io;

/// The number of requests with each media type, without its parameters: browsers choose a new boundary for each upload. Clients choose the
/// keys, so the map is seeded at random: nobody can choose keys that collide.
pub type Counts = HashMap<Mime, u64, RandomState>;

/// How many media types are counted. Without a limit, clients could fill the memory with new ones.
pub const MOST_TYPES: usize = 1000;

/// Returns an empty map of counts.
///
/// # Errors
/// Returns the error of the system's source of random bytes, if that fails.
pub fn no_counts(rt: &HostRuntime) -> io::Result<Counts> {
    let keys = RandomState::new(rt)?;
    Ok(HashMap::with_hasher(rt.alloc(), keys))
}

/// Adds 1 to the count of a media type without its parameters, up to `u64::MAX`: `TEXT/HTML;Charset="UTF-8"` counts as `text/html`. Returns
/// `false`, and counts nothing, for a new media type if the map has [`MOST_TYPES`] already.
///
/// # Errors
/// Returns `AllocError` if memory runs out.
pub fn count(alloc: Global, counts: &mut Counts, mime: &Mime) -> Result<bool, AllocError>
    ensures counted { IfOk result (λ is_counted. IsTrue is_counted → (bare : OwnedMedia) × (bare.media ≡ without_parameters mime.now.media)
        × Updates ⟦<Mime as PartialEq>⟧.eq counts.old counts.new bare
        (Some (min (unwrap_or (get ⟦<Mime as PartialEq>⟧.eq counts.old bare) 0 + 1) u64.MAX))) }
    ensures full { IfOk result (λ is_counted. is_counted ≡ false → (counts.new ≡ counts.old) × (MOST_TYPES ≤ hash_map_len counts.old)) }
{
    let Ok(bare) = bare_of(alloc, mime) else {
        return Err(AllocError);
    };
    if counts.len() >= MOST_TYPES && !counts.contains_key(&bare) {
        return Ok(false);
    }
    let count = counts.entry(bare)?.or_insert(0);
    *count = count.saturating_add(1);
    Ok(true)
}

/// Returns the media types with their counts, sorted by media type.
///
/// # Errors
/// Returns `AllocError` if memory runs out.
pub fn sorted(alloc: Global, counts: Counts) -> Result<Vec<(Mime, u64)>, AllocError>
    ensures all { IfOk result (λ rows. IsPermutation counts.entries (vec_items rows)) }
    ensures ordered { IfOk result (λ rows. IsSorted (λ row other. ordering_then (⟦<Mime as Ord>⟧.cmp row.0 other.0) (nat_cmp row.1 other.1))
        (vec_items rows)) }
{
    let mut rows = Vec::new(alloc);
    for row in counts {
        rows.push(row)?;
    }
    rows.sort()?;
    Ok(rows)
}
