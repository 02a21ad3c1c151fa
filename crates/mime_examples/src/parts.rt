//! Describes the parts of a media type.

use mime::Mime;
use std::alloc::{AllocError, Global};
use std::fmt::Write;

/// Returns the type, the subtype, the suffix and the parameters of a media type, one per line.
///
/// # Errors
/// Returns `AllocError` if memory runs out.
pub fn described(alloc: Global, mime: &Mime) -> Result<String, AllocError> {
    let mut lines = format!(in alloc; "type {}\nsubtype {}\n", mime.type_(), mime.subtype())?;
    if let Some(suffix) = mime.suffix() {
        writeln!(lines, "suffix {suffix}")?;
    }
    for (name, value) in mime.params() {
        writeln!(lines, "{name} is {value}")?;
    }
    Ok(lines)
}
