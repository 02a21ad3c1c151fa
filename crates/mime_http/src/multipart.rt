//! The boundary between the parts of a multipart body.

ghost use Rattle.std.specs.Prelude.{◌≡◌, ◌≢◌, ◌↔◌, ℕ, List, Some, None, IsTrue, IfOk, IsOk, MatchOption, codes, option_map};
ghost use Rattle.std.specs.{List.list_all, Vec.vec_items};
ghost use Rattle.mime.specs.Values.{type_of};
ghost use Rattle.mime_http.specs.{Boundary.is_bchar, Boundary.IsBoundary, Boundary.IsBoundaryOf, Ranges.first_value, Unescaped.unescaped};

use crate::quoted::unescape;
use crate::range::first_value;
use mime::Mime;
use mime_search::{TOKEN_STOPS, first_stop};
use std::alloc::{AllocError, Global};

/// The mark of a byte that may occur in a boundary.
const Y: bool = true;

/// The mark of a byte that may not occur in a boundary.
const N: bool = false;

/// The mark of each byte.
static BOUNDARY_BYTES: [bool; 256] = [
    N, N, N, N, N, N, N, N, N, N, N, N, N, N, N, N, N, N, N, N, N, N, N, N, N, N, N, N, N, N, N, N,
    Y, N, N, N, N, N, N, Y, Y, Y, N, Y, Y, Y, Y, Y, Y, Y, Y, Y, Y, Y, Y, Y, Y, Y, Y, N, N, Y, N, Y,
    N, Y, Y, Y, Y, Y, Y, Y, Y, Y, Y, Y, Y, Y, Y, Y, Y, Y, Y, Y, Y, Y, Y, Y, Y, Y, Y, N, N, N, N, Y,
    N, Y, Y, Y, Y, Y, Y, Y, Y, Y, Y, Y, Y, Y, Y, Y, Y, Y, Y, Y, Y, Y, Y, Y, Y, Y, Y, N, N, N, N, N,
    N, N, N, N, N, N, N, N, N, N, N, N, N, N, N, N, N, N, N, N, N, N, N, N, N, N, N, N, N, N, N, N,
    N, N, N, N, N, N, N, N, N, N, N, N, N, N, N, N, N, N, N, N, N, N, N, N, N, N, N, N, N, N, N, N,
    N, N, N, N, N, N, N, N, N, N, N, N, N, N, N, N, N, N, N, N, N, N, N, N, N, N, N, N, N, N, N, N,
    N, N, N, N, N, N, N, N, N, N, N, N, N, N, N, N, N, N, N, N, N, N, N, N, N, N, N, N, N, N, N, N,
];

/// The maximum length of a boundary, in bytes.
const LONGEST: usize = 70;

/// Returns `true` if all of these bytes may occur in a boundary.
fn are_boundary_bytes(bytes: &[u8]) -> bool
    ensures { result ≡ list_all is_bchar bytes.now }
{
    let mut all = true;
    for &byte in bytes {
        all &= BOUNDARY_BYTES[byte as usize];
    }
    all
}

/// Returns `true` if bytes are a boundary: 1 to 70 letters, digits, spaces and the marks `'()+_,-./:=?`, with no space at the end (RFC
/// 2046, 5.1.1). `a b` is a boundary, `a ` and `a;b` aren't.
pub fn is_boundary(bytes: &[u8]) -> bool
    ensures { IsTrue result ↔ IsBoundary bytes.now }
{
    match bytes.last() {
        Some(last) if bytes.len() <= LONGEST && *last != b' ' => {
            // Most boundaries have only letters, digits, hyphens and dots.
            are_boundary_bytes(&bytes[first_stop(bytes, 0, &TOKEN_STOPS)..])
        }
        _ => false,
    }
}

/// Returns the boundary that a parameter's value means, or `None` if it means none. This doesn't allocate if the value is too long to mean
/// a boundary, or has no backslash and isn't a boundary.
#[tactic(auto, using(crate::proofs::Contents::boundary_means_itself))]
fn meant_boundary(alloc: Global, value: &str) -> Result<Option<Vec<u8>>, AllocError>
    ensures { IfOk result (λ answer. MatchOption answer (¬ (IsBoundary (unescaped value.now)))
        (λ boundary. (vec_items boundary ≡ unescaped value.now) × IsBoundary (unescaped value.now))) }
{
    let bytes = value.as_bytes();
    if is_boundary(bytes) {
        // A boundary has no backslash, so it means itself.
        return Ok(Some(Vec::from_slice(alloc, bytes)?));
    }
    // Any two bytes mean at least one byte. Only a backslash at the end means none.
    if bytes.len() > 2 * LONGEST + 1 || !value.contains('\\') {
        return Ok(None);
    }
    let mut boundary = Vec::new(alloc);
    unescape(value, &mut boundary)?;
    Ok(is_boundary(&boundary).then_some(boundary))
}

/// Returns the boundary that the first parameter `boundary` means, or `None` if there is no such parameter or it doesn't mean a boundary.
/// This function isn't inlined, since most media types aren't `multipart`.
#[inline(never)]
fn first_boundary(alloc: Global, mime: &Mime) -> Result<Option<Vec<u8>>, AllocError>
    ensures meant { IfOk result (λ answer. MatchOption answer
        ((bytes : List ℕ) → option_map unescaped (first_value (codes "boundary") mime.now.media.pairs) ≡ Some bytes → ¬ (IsBoundary bytes))
        (λ boundary. (option_map unescaped (first_value (codes "boundary") mime.now.media.pairs) ≡ Some (vec_items boundary))
        × IsBoundary (vec_items boundary))) }
    ensures absent { first_value (codes "boundary") mime.now.media.pairs ≡ None → IsOk result }
{
    match first_value(mime, "boundary") {
        Some(value) => meant_boundary(alloc, value.text),
        None => Ok(None),
    }
}

/// Returns the boundary between the parts of a `multipart` body, byte for byte as it is in the body (RFC 2046, 5.1.1): `a b` for
/// `multipart/mixed; boundary="a b"`. Returns `None` exactly if the type isn't `multipart`, there is no parameter `boundary`, or the first
/// such parameter doesn't mean a boundary, as [`is_boundary`] defines it.
///
/// # Errors
/// Returns `AllocError` if memory runs out, which never happens if the type isn't `multipart` or there is no parameter `boundary`.
pub fn boundary(alloc: Global, mime: &Mime) -> Result<Option<Vec<u8>>, AllocError>
    ensures meant { IfOk result (λ answer. MatchOption answer ((bytes : List ℕ) → ¬ (IsBoundaryOf mime.now.media bytes))
        (λ boundary. IsBoundaryOf mime.now.media (vec_items boundary))) }
    // The call needs no memory if the type isn't `multipart`, or there is no parameter `boundary`.
    ensures other { type_of mime.now.media ≢ codes "multipart" → IsOk result }
    ensures absent { first_value (codes "boundary") mime.now.media.pairs ≡ None → IsOk result }
{
    if mime.type_().text != "multipart" {
        return Ok(None);
    }
    first_boundary(alloc, mime)
}
