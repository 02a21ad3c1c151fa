//! Removes the parameters of a media type.

ghost use Rattle.std.specs.Prelude.{◌≡◌, IfOk, IfErr};
ghost use Rattle.mime.specs.Laws.{without_parameters};

use mime::laws::{essence_is_read, one_reading};
use mime::{FromStrError, Mime, ParseError};
use std::alloc::Global;

/// Returns a media type without its parameters.
///
/// # Errors
/// Returns a `FromStrError` with the fault `NoMemory` if memory runs out.
pub fn bare_of(alloc: Global, mime: &Mime) -> Result<Mime, FromStrError>
    ensures value { IfOk result (λ bare. bare.media ≡ without_parameters mime.now.media) }
    ensures memory { IfErr result (λ error. error ≡ ParseError.NoMemory) }
{
    let _kept = mime.as_str();
    essence_is_read();
    one_reading();
    let bare = Mime::from_str(alloc, mime.essence_str())?;
    Ok(bare)
}
