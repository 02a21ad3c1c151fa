//! Marks the fault of a header's value with a caret.

use mime_http::FieldError;
use std::alloc::{AllocError, Global};

/// Returns two lines for a log: a rejected value, and a caret below the byte at fault, or after the value's end if something is missing or
/// memory ran out. A dot replaces each byte that isn't printable ASCII, so the value can't add lines to the log.
///
/// # Errors
/// Returns `AllocError` if memory runs out.
pub fn caret_below(alloc: Global, value: &[u8], error: &FieldError) -> Result<String, AllocError> {
    let mut lines = String::new(alloc);
    for byte in value {
        let is_shown = *byte == b' ' || byte.is_ascii_graphic();
        lines.push(if is_shown { *byte as char } else { '.' })?;
    }
    lines.push('\n')?;
    for _ in 0..error.position(value) {
        lines.push(' ')?;
    }
    lines.push('^')?;
    Ok(lines)
}
