//! Recognizes plain text.

ghost use Rattle.std.specs.Prelude.{◌≡◌, ◌↔◌, IsTrue, codes};
ghost use Rattle.mime.specs.Values.{type_of, subtype_of};

use mime::{Mime, PLAIN, TEXT};

/// Returns `true` if a media type is plain text, whatever its suffix and its parameters are.
pub fn is_plain(mime: &Mime) -> bool
    ensures { IsTrue result ↔ ((type_of mime.now.media ≡ codes "text") × (subtype_of mime.now.media ≡ codes "plain")) }
{
    match (mime.type_(), mime.subtype()) {
        (TEXT, PLAIN) => true,
        _ => false,
    }
}
