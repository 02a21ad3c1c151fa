//! Tests whether a body should be compressed.

ghost use Rattle.std.specs.Prelude.{◌≡◌, ◌↔◌, ◌⊎◌, IsTrue, codes};
ghost use Rattle.mime.specs.Values.{type_of};

use mime::{AUDIO, IMAGE, Mime, VIDEO};

/// Returns `true` if a body of this media type should be sent compressed, whatever its parameters are. Images, audio, videos, WOFF fonts,
/// and ZIP and gzip archives are compressed already, except `image/svg+xml`, which is text.
pub fn is_compressible(mime: &Mime) -> bool
    ensures { IsTrue result ↔ ((mime.now.media.essence ≡ codes "image/svg+xml")
        ⊎ ¬ ((type_of mime.now.media ≡ codes "image") ⊎ ((type_of mime.now.media ≡ codes "audio")
        ⊎ ((type_of mime.now.media ≡ codes "video") ⊎ ((mime.now.media.essence ≡ codes "font/woff")
        ⊎ ((mime.now.media.essence ≡ codes "font/woff2") ⊎ ((mime.now.media.essence ≡ codes "application/zip")
        ⊎ (mime.now.media.essence ≡ codes "application/gzip")))))))) }
{
    match (mime.type_(), mime.essence_str()) {
        (_, "image/svg+xml") => true,
        (IMAGE | AUDIO | VIDEO, _) => false,
        (_, "font/woff" | "font/woff2" | "application/zip" | "application/gzip") => false,
        _ => true,
    }
}
