//! A struct that holds a media type.

ghost use Rattle.std.specs.Prelude.{◌≡◌, IfOk};
ghost use Rattle.mime_http.specs.HttpMediaType.{HttpReads};

use mime::Mime;
use mime_http::{FieldError, content_type};
use std::alloc::Global;

/// A body and its media type.
#[derive(Drop)]
pub struct Document<'a> {
    /// The media type of the body's `Content-Type`.
    pub mime: Mime,
    /// The body as it was sent.
    pub body: &'a [u8],
}

/// Returns a body with the media type of its `Content-Type`.
///
/// # Errors
/// Returns the errors of [`content_type`].
pub fn received<'a>(alloc: Global, value: &[u8], body: &'a [u8]) -> Result<Document<'a>, FieldError>
    ensures { IfOk result (λ document. HttpReads value.now document.mime.media × (document.body.now ≡ body.now)) }
{
    let mime = content_type(alloc, value)?;
    Ok(Document { mime, body })
}
