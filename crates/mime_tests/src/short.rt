//! Tests all short strings by a rule, without a row for each.

use mime::{Mime, ParseError};
use std::alloc::Global;
use std::fmt::Write;

/// The characters of the short strings.
static ALPHABET: [char; 8] = ['a', '/', ';', '=', '"', '\\', ' ', ','];

/// The maximum number of characters of a short string.
const MOST: usize = 7;

/// The number of short strings: the sum of the powers of 8 from 8 ^ 0 to 8 ^ 7.
const COUNT: usize = 2_396_745;

/// Writes the short string that a number stands for. The string's characters stand for the number's digits in base 8, the lowest first,
/// with digits from 1 to 8 in place of 0 to 7.
fn spell(text: &mut String, number: usize) {
    text.clear();
    let mut rest = number;
    for _ in 0..MOST {
        if rest == 0 {
            break;
        }
        rest = rest.wrapping_sub(1);
        let _ = text.push(ALPHABET[rest % 8]);
        rest /= 8;
    }
}

/// Returns the fault of a string, or `None` if it is accepted.
fn fault_of(alloc: Global, text: &str) -> Option<ParseError> {
    let error = Mime::from_str(alloc, text).err()?;
    Some(*error.fault())
}

/// Returns `true` if a string followed by a completion is a media type.
fn is_completed_by(alloc: Global, text: &str, completion: &str) -> bool {
    let mut whole = String::new(alloc);
    let _ = whole.push_str(text);
    let _ = whole.push_str(completion);
    fault_of(alloc, whole.as_str()).is_none()
}

/// Completions, ends and faults. A string has the fault of a row exactly if it ends with the row's end, and the string followed by the
/// row's completion is a media type. No short string ends with `?`, so none has the last fault.
static COMPLETIONS: &[(&str, &str, ParseError)] = &[
    ("x/x", "", ParseError::MissingSlash),
    ("x", "/", ParseError::MissingSubtype),
    ("=x", "", ParseError::MissingEqual),
    ("x", "=", ParseError::MissingValue),
    ("x\"", "", ParseError::MissingQuote),
    ("", "?", ParseError::NoMemory),
];

/// Writes a string if its fault doesn't agree with `COMPLETIONS`.
fn show_difference(alloc: Global, out: &mut String, text: &str) {
    let fault = fault_of(alloc, text);
    for (completion, end, missing) in COMPLETIONS {
        let is_completed = text.ends_with(*end) && is_completed_by(alloc, text, completion);
        if is_completed != (fault == Some(*missing)) {
            let _ = writeln!(out, "not so: {text}");
        }
    }
}

/// Shows the short strings whose faults don't agree with `COMPLETIONS`, and the number of all short strings.
pub(crate) fn show_short_verdicts(alloc: Global, out: &mut String) {
    let Ok(mut text) = String::with_capacity(alloc, MOST) else {
        return;
    };
    for number in 0..COUNT {
        spell(&mut text, number);
        show_difference(alloc, out, text.as_str());
    }
    let _ = writeln!(out, "{COUNT} strings");
}
