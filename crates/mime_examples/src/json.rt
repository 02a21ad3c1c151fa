//! Recognizes JSON.

ghost use Rattle.std.specs.Prelude.{◌≡◌, ◌↔◌, ◌⊎◌, IsTrue, Some, codes};
ghost use Rattle.mime.specs.Values.{suffix_of};

use mime::Mime;

/// Returns `true` if a media type is JSON, according to its essence or its suffix (RFC 6839, 3.1), whatever its parameters are.
pub fn is_json(mime: &Mime) -> bool
    ensures { IsTrue result ↔ ((mime.now.media.essence ≡ codes "application/json")
        ⊎ (suffix_of mime.now.media ≡ Some (codes "json"))) }
{
    if mime.essence_str() == "application/json" {
        return true;
    }
    mime.suffix()
        .is_some_and(|suffix| suffix.as_str() == "json")
}
