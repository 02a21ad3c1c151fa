//! Marks a string's fault with a caret.

use mime::{FromStrError, ParseError};
use std::alloc::{AllocError, Global};

/// Returns a line with a caret under the character at fault in a rejected string, or after the string's end if something is missing or
/// memory ran out.
///
/// # Errors
/// Returns `AllocError` if memory runs out.
pub fn caret_line(alloc: Global, text: &str, error: &FromStrError) -> Result<String, AllocError> {
    let mut line = String::new(alloc);
    for (at, _) in text.char_indices() {
        if let ParseError::InvalidToken { pos, .. } = error.fault()
            && at >= *pos
        {
            break;
        }
        line.push(' ')?;
    }
    line.push('^')?;
    Ok(line)
}
