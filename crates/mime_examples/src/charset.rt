//! Recognizes the charset UTF-8.

use mime::{CHARSET, Mime, name_eq_str};

/// Returns `true` if a media type has the charset UTF-8, as `TEXT/HTML; Charset="UTF-8"` has. Of two charsets the first counts.
pub fn is_utf8(mime: &Mime) -> bool {
    mime.get_param(CHARSET)
        .is_some_and(|charset| name_eq_str(&charset, "utf-8"))
}
