//! The rows about `mime_http`. A bar is written after each answer.

use crate::fields::string_at;
use crate::values::{read, read_or_not};
use mime::Mime;
use mime_http::{
    Accept, FieldError, boundary, content_type_after, first_value, lacked, rank_offers,
    trimmed_text, unescape,
};
use std::alloc::{AllocError, Global};
use std::fmt::{Display, Write};

/// Shows an answer, and a bar after it.
pub(crate) fn show<T: Display>(out: &mut String, answer: &T) {
    let _ = write!(out, "{answer}|");
}

/// Shows an answer, or `none`.
pub(crate) fn show_option<T: Display + Drop>(out: &mut String, answer: Option<T>) {
    match answer {
        Some(answer) => show(out, &answer),
        None => show(out, &"none"),
    }
}

/// Shows an answer, or the error.
pub(crate) fn show_result<T: Display + Drop, E: Display + Drop>(
    out: &mut String,
    answer: Result<T, E>,
) {
    match answer {
        Ok(answer) => show(out, &answer),
        Err(error) => show(out, &error),
    }
}

/// Shows an answer about a string, or that the string isn't read.
pub(crate) fn show_read<T: Display + Drop>(out: &mut String, answer: Option<T>) {
    match answer {
        Some(answer) => show(out, &answer),
        None => show(out, &"not read"),
    }
}

/// Reads a header's value as `content_type` does, one step after the other.
pub(crate) fn read_in_steps(alloc: Global, value: &str) -> Result<Mime, FieldError> {
    match Mime::from_str(alloc, trimmed_text(value)) {
        Ok(mime) => Ok(mime),
        Err(error) => content_type_after(alloc, value, *error.fault()),
    }
}

/// Shows the value of the first parameter of a name, or `none`.
pub(crate) fn show_first_value(alloc: Global, out: &mut String, field: &str, name: &str) {
    if let Some(mime) = read_or_not(alloc, out, field) {
        show_option(out, first_value(&mime, name).map(|value| value.text));
    }
}

/// Returns bytes as a text, or `not text` if they aren't UTF-8.
pub(crate) fn shown(bytes: &[u8]) -> &str {
    str::from_utf8(bytes).unwrap_or("not text")
}

/// Returns the lines of a field as `str::lines` does, each as bytes. An empty field has no lines.
pub(crate) fn lines_of(alloc: Global, field: &str) -> Result<Vec<&[u8]>, AllocError> {
    let mut lines = Vec::new(alloc);
    for line in field.lines() {
        lines.push(line.as_bytes())?;
    }
    Ok(lines)
}

/// Returns the media types that two strings are read as, or `None` if one isn't.
pub(crate) fn read_both(alloc: Global, one: &str, other: &str) -> Option<(Mime, Mime)> {
    let first = read(alloc, one)?;
    Some((first, read(alloc, other)?))
}

/// Reads the `Accept` header whose lines are in a field.
pub(crate) fn header_of(alloc: Global, field: &str) -> Result<Accept, AllocError> {
    Accept::from_lines(alloc, &lines_of(alloc, field)?)
}

/// Returns a text in ISO 8859-1, which has one byte for each character.
pub(crate) fn latin_1(alloc: Global, text: &str) -> Vec<u8> {
    let mut bytes = Vec::new(alloc);
    for character in text.chars() {
        let _ = bytes.push(u8::try_from(character).unwrap_or(b'?'));
    }
    bytes
}

/// Returns a row's offers: the media types of the fields after the first. Skips rejected fields.
pub(crate) fn offers_of(alloc: Global, strings: &[String]) -> Result<Vec<Mime>, AllocError> {
    let mut offers = Vec::new(alloc);
    for at in 1..strings.len() {
        if let Ok(offer) = Mime::from_str(alloc, string_at(strings, at)) {
            offers.push(offer)?;
        }
    }
    Ok(offers)
}

/// Shows the ranges of a header, and then its bad entries.
pub(crate) fn show_header(out: &mut String, header: Result<Accept, AllocError>) {
    if let Ok(accept) = header {
        show_all(out, accept.ranges());
        show(out, &"bad:");
        for entry in accept.bad() {
            show(out, &shown(entry));
        }
    }
}

/// Shows the ranges of a line, and then the number of its bad entries and the position of the first one.
pub(crate) fn show_counting_bad(alloc: Global, out: &mut String, line: &str) {
    if let Ok((accept, bad)) = Accept::from_line_counting_bad(alloc, line.as_bytes()) {
        show_all(out, accept.ranges());
        show(out, &bad.count);
        show_option(out, bad.first);
    }
}

fn show_all<T: Display>(out: &mut String, answers: &[T]) {
    for answer in answers {
        show(out, answer);
    }
}

/// Reads a row's header, and its offers.
fn request_of(alloc: Global, strings: &[String]) -> Result<(Accept, Vec<Mime>), AllocError> {
    let accept = header_of(alloc, string_at(strings, 0))?;
    Ok((accept, offers_of(alloc, strings)?))
}

/// Shows the weights of a row's offers for its header.
pub(crate) fn show_weights(alloc: Global, out: &mut String, strings: &[String]) {
    if let Ok((accept, offers)) = request_of(alloc, strings) {
        for offer in &offers {
            show(out, &accept.weight(offer));
        }
    }
}

/// Shows the position of the best offer among a row's offers, or `none`.
pub(crate) fn show_best(alloc: Global, out: &mut String, strings: &[String]) {
    if let Ok((accept, offers)) = request_of(alloc, strings) {
        show_option(out, accept.best(&offers));
    }
}

/// Shows the parameter that keeps a range from deciding the weight of an offer. An empty `decider` stands for none.
pub(crate) fn show_lacked(
    alloc: Global,
    out: &mut String,
    range: &str,
    decider: &str,
    offer: &str,
) {
    let Some((range, offer)) = read_both(alloc, range, offer) else {
        return show(out, &"not read");
    };
    let decider = read(alloc, decider);
    let Some((name, value)) = lacked(&range, decider.as_ref(), &offer) else {
        return show(out, &"none");
    };
    show(out, &name);
    show(out, &value);
}

/// Shows positions, in their order.
pub(crate) fn show_positions(out: &mut String, positions: Result<Vec<usize>, AllocError>) {
    if let Ok(positions) = positions {
        show_all(out, &positions);
    }
}

/// Shows the positions, among a row's offers, of those that the header accepts, the best first.
pub(crate) fn show_order(alloc: Global, out: &mut String, strings: &[String]) {
    if let Ok((accept, offers)) = request_of(alloc, strings) {
        show_positions(out, accept.order(alloc, &offers));
    }
}

/// Shows the position of each offer in a row's ranking, its weight, and the position of the range that decides its weight.
pub(crate) fn show_ranking(alloc: Global, out: &mut String, strings: &[String]) {
    if let Ok((accept, offers)) = request_of(alloc, strings)
        && let Ok(ranking) = rank_offers(alloc, accept.ranges(), &offers)
    {
        for one in &ranking {
            show(out, &one.offer);
            show(out, &one.weight);
            show_option(out, one.range);
        }
    }
}

/// Unescapes two values into this buffer, one after the other, and shows its bytes.
pub(crate) fn show_meant(out: &mut String, mut buffer: Vec<u8>, value: &str, other: &str) {
    let _ = unescape(value, &mut buffer);
    let _ = unescape(other, &mut buffer);
    show(out, &shown(&buffer));
}

/// Unescapes two values into a buffer with capacity for both, and shows its bytes.
pub(crate) fn show_unescaped_in_room(alloc: Global, out: &mut String, value: &str, other: &str) {
    let room = value.len().saturating_add(other.len());
    if let Ok(buffer) = Vec::with_capacity(alloc, room) {
        show_meant(out, buffer, value, other);
    }
}

pub(crate) fn show_boundary(alloc: Global, out: &mut String, field: &str) {
    if let Some(mime) = read_or_not(alloc, out, field)
        && let Ok(found) = boundary(alloc, &mime)
    {
        show_option(out, found.as_ref().map(|boundary| shown(boundary)));
    }
}

/// Shows a media type that was made, or `none`.
pub(crate) fn show_made(out: &mut String, made: Result<Option<Mime>, AllocError>) {
    if let Ok(made) = made {
        show_option(out, made);
    }
}

/// Shows the media type that is made from that of a string, or `none`, or that the string isn't read.
pub(crate) fn show_made_from<F: FnOnce(&Mime) -> Result<Option<Mime>, AllocError>>(
    alloc: Global,
    out: &mut String,
    field: &str,
    make: F,
)
    requires { F.IsAlwaysCallable make }
{
    if let Some(mime) = read_or_not(alloc, out, field) {
        show_made(out, make(&mime));
    }
}
