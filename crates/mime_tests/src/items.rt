//! The rows about the media types in a string.

use crate::fields::string_at;
use crate::values::{read, show_media_type};
use mime::{Bad, Mime, MimeIter};
use std::alloc::Global;
use std::fmt::Write;

fn show_item(out: &mut String, item: Result<Mime, Bad<'_>>) {
    let _ = match item {
        Ok(mime) => return show_media_type(out, &mime),
        Err(Bad::Piece(piece)) => writeln!(out, "bad {piece}"),
        Err(Bad::NoMemory) => out.push_str("no memory\n"),
    };
}

/// Shows the items that an iterator has left, the number of steps, and the first size hint. Then shows whether each later size hint was
/// `(0, None)` and the iterator yields no item after its end.
pub(crate) fn show_items(out: &mut String, mut iter: MimeIter<'_>) {
    let hint = iter.size_hint();
    let mut is_right = true;
    while let Some(item) = iter.next() {
        show_item(out, item);
        is_right = is_right && iter.size_hint() == (0, None);
    }
    is_right = is_right && iter.next().is_none();
    let _ = writeln!(out, "steps {:?}", (iter.steps(), hint, is_right));
}

/// Shows the first item of a string, then the items that are left in a clone of the iterator, and then those left in the iterator itself.
pub(crate) fn show_again(alloc: Global, out: &mut String, text: &str) {
    let mut iter = MimeIter::new(alloc, text);
    if let Some(item) = iter.next() {
        show_item(out, item);
    }
    if let Ok(others) = iter.clone() {
        show_items(out, others);
    }
    show_items(out, iter);
}

/// Shows a sign for each string after the first: `=` if its media type is equal to the first string's next item, or else a space.
pub(crate) fn show_list(alloc: Global, out: &mut String, strings: &[String]) {
    let mut iter = MimeIter::new(alloc, string_at(strings, 0));
    for at in 1..strings.len() {
        let is_equal = match iter.next() {
            Some(Ok(item)) => read(alloc, string_at(strings, at)).is_some_and(|it| it == item),
            _ => false,
        };
        let _ = out.push(if is_equal { '=' } else { ' ' });
    }
    let _ = out.push_str(".\n");
}
