//! Reads the fields of a form.

use crate::disposition::Disposition;
use crate::multipart::{content_of, disposition_of, parts, value_of};
use mime_http::{FieldError, content_type};
use std::alloc::Global;

/// A field of a form.
#[derive(Drop)]
pub struct Field<'a> {
    /// The names of the field and of its file.
    pub names: Disposition,
    /// The field's `Content-Type`. If there is none, the content is plain text (RFC 7578, 4.4).
    pub content_type: Option<&'a [u8]>,
    /// The text of the field, or the bytes of the file.
    pub content: &'a [u8],
}

/// Returns a part's field, 400 if the part has no content or its names can't be read, or 503 if memory runs out.
fn field_of<'a>(alloc: Global, part: &'a [u8]) -> Result<Field<'a>, u16> {
    let names = match disposition_of(alloc, part) {
        Ok(names) => names.ok_or(400_u16)?,
        Err(_) => return Err(503),
    };
    let content = content_of(part).ok_or(400_u16)?;
    Ok(Field {
        names,
        content_type: value_of(part, "content-type"),
        content,
    })
}

/// Returns the fields of a form with this `Content-Type` and body, in the body's order, or the status that rejects the request: 400 if the
/// `Content-Type` isn't a media type, has no boundary, or a field can't be read, or if the body was cut off; 415 if it isn't
/// `multipart/form-data`; 503 if memory runs out.
pub fn fields<'a>(alloc: Global, value: &[u8], body: &'a [u8]) -> Result<Vec<Field<'a>>, u16> {
    let mime = match content_type(alloc, value) {
        Ok(mime) => mime,
        Err(FieldError::NoMemory) => return Err(503),
        Err(_) => return Err(400),
    };
    if mime.essence_str() != "multipart/form-data" {
        return Err(415);
    }
    let Ok(found) = parts(alloc, &mime, body) else {
        return Err(503);
    };
    let body = found.ok_or(400_u16)?;
    if !body.is_whole {
        return Err(400);
    }
    let mut fields = Vec::new(alloc);
    for part in body.parts {
        let field = field_of(alloc, part)?;
        if fields.push(field).is_err() {
            return Err(503);
        }
    }
    Ok(fields)
}
