//! Makes a media type from a name.

ghost use Rattle.std.specs.Prelude.{◌++◌, IfOk, IfSome, codes};
ghost use Rattle.mime.specs.Values.{Reads};

use mime::{Mime, ParseError};
use std::alloc::{AllocError, Global};

/// Returns the media type of JSON with this name in the vendor tree (RFC 6838, 3.2): `application/vnd.cart+json` for `cart`. Returns `None`
/// for a name that can't be part of a token, such as `a/b`, or `a; q=1`, which would add a parameter.
///
/// # Errors
/// Returns `AllocError` if memory runs out.
pub fn vendor_json(alloc: Global, name: &str) -> Result<Option<Mime>, AllocError>
    ensures { IfOk result (λ answer. IfSome answer (λ mime. Reads (codes "application/vnd." ++ (name.now ++ codes "+json")) mime.media)) }
{
    let text = format!(in alloc; "application/vnd.{name}+json")?;
    match Mime::from_str(alloc, &text) {
        Ok(mime) => {
            let has_parameter = mime.params().next().is_some();
            if has_parameter {
                Ok(None)
            } else {
                Ok(Some(mime))
            }
        }
        Err(error) => match error.fault() {
            ParseError::NoMemory => Err(AllocError),
            _ => Ok(None),
        },
    }
}
