//! The offers that the arguments name.

ghost use Rattle.std.specs.Prelude.{[], drop, take, map, string_bytes};
ghost use Rattle.std.specs.{Result.result_map_both, Vec.vec_items, Vec.Iter.into_iter_items, Vec.Iter.into_iter_len};
ghost use Rattle.mime_headers.specs.Program.{AreOffers};

use mime::Mime;
use mime_http::{FieldError, content_type};
use std::alloc::Global;
use std::env::Args;

/// Returns the offers that the arguments name, each read like a header's value. Skips the first argument, the program's name.
///
/// # Errors
/// Returns the first argument that isn't a media type, and its fault. If memory runs out, returns the argument reached, and `NoMemory`.
#[tactic(auto, using(crate::proofs::Words::reading))]
pub(crate) fn read_offers(alloc: Global, mut words: Args) -> Result<Vec<Mime>, (String, FieldError)>
    ensures { AreOffers (map string_bytes (drop 1 (take (into_iter_len words) (into_iter_items words)))) []
        (result_map_both (λ offers. map (λ offer. offer.media) (vec_items offers)) (λ error. error) result) }
{
    let _program = words.next();
    let mut offers = Vec::new(alloc);
    while let Some(word) = words.next() {
        let offer = match content_type(alloc, word.as_bytes()) {
            Ok(offer) => offer,
            Err(error) => return Err((word, error)),
        };
        let Ok(()) = offers.push(offer) else {
            return Err((word, FieldError::NoMemory));
        };
    }
    Ok(offers)
}
