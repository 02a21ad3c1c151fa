//! The strings that a row's fields stand for.

use std::alloc::Global;

/// Returns the character that a sign stands for.
fn character_of(sign: char) -> char {
    match (sign as u32).wrapping_sub(0x2400) {
        0x21 => '\u{7F}',
        number if number < 0x20 => char::from_u32(number).unwrap_or(sign),
        _ => sign,
    }
}

/// Returns the string that a field stands for. The signs U+2400 to U+241F stand for the bytes 0 to 31, U+2421 stands for the byte 127, and
/// `⟨part×count⟩` stands for `part` repeated `count` times.
fn string_of(alloc: Global, field: &str) -> String {
    let mut text = String::new(alloc);
    if field.is_ascii() {
        let _ = text.push_str(field);
        return text;
    }
    for piece in field.split(['⟨', '⟩']) {
        let (part, count) = piece.split_once('×').unwrap_or((piece, "1"));
        for _ in 0..count.parse::<usize>().unwrap_or(0) {
            for sign in part.chars() {
                let _ = text.push(character_of(sign));
            }
        }
    }
    text
}

/// Returns the strings that fields, separated by tabs, stand for.
pub(crate) fn strings_of(alloc: Global, fields: &str) -> Vec<String> {
    let mut strings = Vec::new(alloc);
    for field in fields.split('\t') {
        let _ = strings.push(string_of(alloc, field));
    }
    strings
}

/// Returns the string at a position in a row, or an empty string if there is none.
pub(crate) fn string_at(strings: &[String], at: usize) -> &str {
    strings.get(at).map_or("", |text| text.as_str())
}
