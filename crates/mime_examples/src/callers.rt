//! Functions that call `mime`, with contracts of their own.

ghost use Rattle.std.specs.Prelude.{◌≡◌, List, ℕ, Bool, true, Option, is_some, IfOk, IfErr};
ghost use Rattle.mime.specs.Values.{MediaType, Reads, suffix_of};
ghost use Rattle.mime.specs.Faults.{Explains};
ghost use Rattle.mime.specs.Names.{NameIs};
ghost use Rattle.mime.specs.Items.{items_of, IsFirstAccepted};

use mime::laws::one_reading;
use mime::{FromStrError, Mime};
use std::alloc::Global;

/// Returns `true` if the media type of a text has a suffix, as `image/svg+xml` has.
///
/// # Errors
/// Returns a `FromStrError` with the text's one fault, or with `NoMemory` if memory runs out. So do the functions below that read a text.
pub fn has_suffix(alloc: Global, text: &str) -> Result<bool, FromStrError>
    ensures explained { IfErr result (λ error. Explains text.now error) }
    ensures told { IfOk result (λ yes. (value : MediaType) × Reads text.now value × (yes ≡ is_some (suffix_of value))) }
{
    let mime = Mime::from_str(alloc, text)?;
    Ok(mime.suffix().is_some())
}

/// Returns `true` if a media type has a parameter of this name, ignoring ASCII case.
pub fn has_param(mime: &Mime, name: &str) -> bool
    ensures { (found : Option (List ℕ × Bool))
        × IsFirstAccepted (λ n flag. NameIs n flag name.now) (items_of mime.now.media.pairs) found
        × (result ≡ is_some found) }
{
    mime.get_param(name).is_some()
}

/// Reads a text as a media type. The printed text is read as the same media type.
pub fn printed(alloc: Global, text: &str) -> Result<Mime, FromStrError>
    ensures explained { IfErr result (λ error. Explains text.now error) }
    ensures same { IfOk result (λ mime. Reads text.now mime.media × Reads mime.media.kept mime.media) }
{
    let mime = Mime::from_str(alloc, text)?;
    let _kept = mime.as_str();
    Ok(mime)
}

/// Reads a text twice, and returns whether the media types are equal. They always are, since a text is read as only one media type.
pub fn reads_alike(alloc: Global, text: &str) -> Result<bool, FromStrError>
    ensures { IfOk result (λ same. same ≡ true) }
{
    let first = Mime::from_str(alloc, text)?;
    let second = Mime::from_str(alloc, text)?;
    one_reading();
    Ok(first == second)
}
