//! Reads the field name and the file name of a form's part.

ghost use Rattle.std.specs.Prelude.{◌≡◌, ◌<◌, ◌∷◌, [], ℕ, List, Option, IfOk, IfSome, MatchOption, length, option_map};
ghost use Rattle.std.specs.Vec.{vec_items};
ghost use Rattle.mime_examples.specs.Disposition.{FirstMeans, IsDisposition, unescaped_name};

use mime::Mime;
use mime_http::laws::one_http_reading;
use mime_http::{FieldError, content_type};
use std::alloc::{AllocError, Global};

/// The names in the `Content-Disposition` of a form's part.
#[derive(Drop)]
pub struct Disposition {
    /// The name of the field.
    pub name: Vec<u8>,
    /// The name of the file, or `None` if there is no parameter `filename`. It may have backslashes and slashes: don't open it as a path.
    pub file_name: Option<Vec<u8>>,
}

/// Returns the first byte that a name means and the rest of the name, or `None` if the name is empty.
fn split_first(name: &[u8]) -> Option<(u8, &[u8])>
    ensures meant { MatchOption result (unescaped_name name.now ≡ [])
        (λ first. unescaped_name name.now ≡ first.0 ∷ unescaped_name first.1.now) }
    ensures shorter { IfSome result (λ first. length first.1.now < length name.now) }
{
    match name {
        [b'\\', byte @ (b'"' | b'\\'), rest @ ..] => Some((*byte, rest)),
        [byte, rest @ ..] => Some((*byte, rest)),
        [] => None,
    }
}

/// Returns what the first parameter of this name means, or `None` if there is no such parameter.
fn meaning(alloc: Global, mime: &Mime, name: &str) -> Result<Option<Vec<u8>>, AllocError>
    ensures { IfOk result (λ answer. FirstMeans mime.now.media.pairs name.now (option_map vec_items answer)) }
{
    let Some(value) = mime.get_param(name) else {
        return Ok(None);
    };
    let mut meaning = Vec::new(alloc);
    let mut left = value.as_str().as_bytes();
    while let Some((byte, rest)) = split_first(left) {
        meaning.push(byte)?;
        left = rest;
    }
    Ok(Some(meaning))
}

/// Reads the value of a `Content-Disposition` of a part of `multipart/form-data` (RFC 7578, 4.2).
/// `form-data; name="field"; filename="a \"b\".txt"` names the field `field` and the file `a "b".txt`. Returns `None` exactly if the value
/// begins with white space, isn't valid UTF-8, isn't `form-data`, has no `name`, or has parameters that HTTP doesn't allow. Of two
/// parameters of the same name, the first counts.
///
/// Browsers and curl write a backslash as it is, and `%22` in place of a quote. So a backslash is removed only before a quote or a
/// backslash, unlike in other headers: `filename="C:\tmp\x.c"` names the file `C:\tmp\x.c`. But `\\` in a name becomes `\`, and a value
/// with a name that ends in one backslash isn't read. `%22` isn't decoded. A parameter `filename*` isn't read.
///
/// # Errors
/// Returns `AllocError` if memory runs out.
pub fn read_disposition(alloc: Global, value: &[u8]) -> Result<Option<Disposition>, AllocError>
    ensures { IfOk result (λ answer. MatchOption answer
        ((name : List ℕ) (file_name : Option (List ℕ)) → ¬ (IsDisposition value.now name file_name))
        (λ found. IsDisposition value.now (vec_items found.name) (option_map vec_items found.file_name))) }
{
    // With `x/` before it, a disposition with its parameters is a media type.
    let mut text = b"x/".to_vec(alloc)?;
    text.extend_from_slice(value)?;
    let mime = match content_type(alloc, &text) {
        Ok(mime) => mime,
        Err(FieldError::NoMemory) => return Err(AllocError),
        Err(_) => return Ok(None),
    };
    one_http_reading();
    if mime.essence_str() != "x/form-data" {
        return Ok(None);
    }
    let Some(name) = meaning(alloc, &mime, "name")? else {
        return Ok(None);
    };
    let file_name = meaning(alloc, &mime, "filename")?;
    Ok(Some(Disposition { name, file_name }))
}
