//! Chooses a handler by matching constants.

ghost use Rattle.std.specs.Prelude.{◌≡◌, ◌↔◌, codes, None};
ghost use Rattle.mime.specs.Values.{type_of, subtype_of, suffix_of};

use mime::{APPLICATION, JSON, Mime, WWW_FORM_URLENCODED};

/// How a server handles a body.
#[derive(Clone, Copy, PartialEq, Eq, Debug)]
pub enum Handler {
    /// Reads the body as JSON.
    Json,
    /// Reads the body as the fields of a form.
    Form,
    /// Rejects the body.
    Refuse,
}

/// Returns the handler of a body according to its media type, whatever the parameters are.
pub fn handler_of(mime: &Mime) -> Handler
    ensures json { (result ≡ Handler.Json) ↔ ((type_of mime.now.media ≡ codes "application")
        × (subtype_of mime.now.media ≡ codes "json") × (suffix_of mime.now.media ≡ None)) }
    ensures form { (result ≡ Handler.Form) ↔ ((type_of mime.now.media ≡ codes "application")
        × (subtype_of mime.now.media ≡ codes "x-www-form-urlencoded") × (suffix_of mime.now.media ≡ None)) }
{
    match (mime.type_(), mime.subtype(), mime.suffix()) {
        (APPLICATION, JSON, None) => Handler::Json,
        (APPLICATION, WWW_FORM_URLENCODED, None) => Handler::Form,
        _ => Handler::Refuse,
    }
}
