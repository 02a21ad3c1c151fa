//! Writes a file's name as a parameter, and reads it back.

ghost use Rattle.std.specs.Prelude.{◌≡◌, ◌↔◌, ℕ, List, Bool, Some, IsTrue, is_some, IfOk, IfSome, codes};
ghost use Rattle.mime.specs.HeaderLaws.{AreHeaderBytes};
ghost use Rattle.std.specs.Vec.{vec_items};
ghost use Rattle.mime.specs.Names.{NameIs};
ghost use Rattle.mime.specs.Items.{items_of, IsFirstAccepted};
ghost use Rattle.mime_http.specs.Unescaped.{unescaped};
ghost use Rattle.mime_http.specs.Written.{escaped, with_pair};

use mime::Mime;
use mime_http::laws::written_is_meant;
use mime_http::{unescape, with_parameter};
use std::alloc::{AllocError, Global};

/// Returns a media type with a file's name as its parameter `name`, or `None` exactly if the file's name has an ASCII control character
/// other than the tab. `image/png` with the name `a "b".png` is `image/png; name="a \"b\".png"`.
///
/// # Errors
/// Returns `AllocError` if memory runs out, as do the functions below.
pub fn with_file_name(alloc: Global, mime: &Mime, name: &str) -> Result<Option<Mime>, AllocError>
    ensures exact { IfOk result (λ answer. IsTrue (is_some answer) ↔ AreHeaderBytes name.now) }
    ensures made { IfOk result (λ answer. IfSome answer (λ named. named.media
        ≡ with_pair mime.now.media (codes "name") (escaped name.now))) }
{
    with_parameter(alloc, mime, "name", name)
}

/// Returns the file name that the first parameter `name` of a media type means, such as `a "b".png`, or `None` if there is no `name`.
pub fn file_name(alloc: Global, mime: &Mime) -> Result<Option<Vec<u8>>, AllocError>
    ensures { IfOk result (λ answer. IfSome answer (λ name. (value : List ℕ) × (flag : Bool)
        × IsFirstAccepted (λ name flag. NameIs name flag (codes "name")) (items_of mime.now.media.pairs) (Some (value, flag))
        × (vec_items name ≡ unescaped value))) }
{
    let Some(value) = mime.get_param("name") else {
        return Ok(None);
    };
    let mut name = Vec::new(alloc);
    unescape(value.as_str(), &mut name)?;
    Ok(Some(name))
}

/// Writes a file's name as a parameter, and returns the name that is read back, which is the same. Returns `None` if [`with_file_name`]
/// does.
pub fn written_and_read(
    alloc: Global,
    mime: &Mime,
    name: &str,
) -> Result<Option<Vec<u8>>, AllocError>
    ensures { IfOk result (λ answer. IfSome answer (λ back. vec_items back ≡ name.now)) }
{
    let Some(named) = with_file_name(alloc, mime, name)? else {
        return Ok(None);
    };
    written_is_meant();
    file_name(alloc, &named)
}
