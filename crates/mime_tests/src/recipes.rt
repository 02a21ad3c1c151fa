//! The rows about the recipes. A bar is written after each answer.

use crate::fields::string_at;
use crate::http::{lines_of, offers_of, show, show_option, show_positions, show_result, shown};
use crate::values::read_or_not;
use mime::Mime;
use mime_examples::bare::bare_of;
use mime_examples::caret::caret_line;
use mime_examples::counts::{count, no_counts, sorted};
use mime_examples::disposition::Disposition;
use mime_examples::document::received;
use mime_examples::field_caret::caret_below;
use mime_examples::file_name::{file_name, with_file_name, written_and_read};
use mime_examples::files::type_of_file;
use mime_examples::form::fields;
use mime_examples::handler::handler_of;
use mime_examples::header::header_text;
use mime_examples::multipart::{content_of, disposition_of, parts, value_of};
use mime_examples::negotiate::chosen;
use mime_examples::order::in_order;
use mime_examples::parts::described;
use mime_examples::static_file::type_for;
use mime_http::content_type;
use std::alloc::{AllocError, Global};
use std::fmt::Write;

/// Shows a media type without its parameters, and whether the result has parameters.
pub(crate) fn show_bare_of(alloc: Global, out: &mut String, field: &str) {
    if let Some(mime) = read_or_not(alloc, out, field)
        && let Ok(bare) = bare_of(alloc, &mime)
    {
        show(out, &bare);
        show(out, &bare.params().next().is_some());
    }
}

pub(crate) fn show_caret_line(alloc: Global, out: &mut String, text: &str) {
    let Some(error) = Mime::from_str(alloc, text).err() else {
        return show(out, &"none");
    };
    show_result(out, caret_line(alloc, text, &error));
}

pub(crate) fn show_caret_below(alloc: Global, out: &mut String, value: &str) {
    match content_type(alloc, value.as_bytes()) {
        Ok(_) => show(out, &"none"),
        Err(error) => show_result(out, caret_below(alloc, value.as_bytes(), &error)),
    }
}

/// Returns the lines of a row's header, and its offers.
fn request_of(alloc: Global, strings: &[String]) -> Result<(Vec<&[u8]>, Vec<Mime>), AllocError> {
    let lines = lines_of(alloc, string_at(strings, 0))?;
    Ok((lines, offers_of(alloc, strings)?))
}

/// Shows the offer that a server sends, or the status of its reply.
pub(crate) fn show_chosen(alloc: Global, out: &mut String, strings: &[String]) {
    if let Ok((lines, offers)) = request_of(alloc, strings) {
        show_result(
            out,
            chosen(alloc, &lines, &offers).map(|offer| header_text(offer)),
        );
    }
}

/// Counts the media types of the fields after the first. Shows the count of the first field's media type, and then each count with its
/// media type, sorted by media type.
pub(crate) fn show_counts(rt: &HostRuntime, out: &mut String, strings: &[String]) {
    let (Ok(mut counts), Ok(offers)) = (no_counts(rt), offers_of(rt.alloc(), strings)) else {
        return;
    };
    for mime in &offers {
        let _ = count(rt.alloc(), &mut counts, mime);
    }
    if let Some(mime) = read_or_not(rt.alloc(), out, string_at(strings, 0)) {
        show(out, counts.get(&mime).unwrap_or(&0));
    }
    if let Ok(rows) = sorted(rt.alloc(), counts) {
        for (mime, count) in &rows {
            show(out, count);
            show(out, mime);
        }
    }
}

pub(crate) fn show_described(alloc: Global, out: &mut String, field: &str) {
    if let Some(mime) = read_or_not(alloc, out, field) {
        show_result(out, described(alloc, &mime));
    }
}

pub(crate) fn show_handler_of(alloc: Global, out: &mut String, field: &str) {
    if let Some(mime) = read_or_not(alloc, out, field) {
        let _ = write!(out, "{:?}|", handler_of(&mime));
    }
}

/// Shows a document's media type and body.
pub(crate) fn show_received(alloc: Global, out: &mut String, value: &str, body: &str) {
    match received(alloc, value.as_bytes(), body.as_bytes()) {
        Ok(document) => {
            show(out, &document.mime);
            show(out, &shown(document.body));
        }
        Err(error) => show(out, &error),
    }
}

/// Shows the string that `type_of_file` returns, and whether this string's kept text is the same.
pub(crate) fn show_type_of_file(alloc: Global, out: &mut String, name: &str) {
    let type_ = type_of_file(name);
    show(out, &type_);
    if let Some(mime) = read_or_not(alloc, out, type_) {
        show(out, &(mime.as_str() == type_));
    }
}

/// Shows the media type of a file that a server sends, or the status of its reply.
pub(crate) fn show_type_for(alloc: Global, out: &mut String, name: &str, lines: &str) {
    if let Ok(lines) = lines_of(alloc, lines) {
        show_result(out, type_for(alloc, name, &lines));
    }
}

/// Shows a media type with a file's name, and the names that `file_name` and `written_and_read` return.
pub(crate) fn show_file_name(alloc: Global, out: &mut String, field: &str, name: &str) {
    let Some(mime) = read_or_not(alloc, out, field) else {
        return;
    };
    let Ok(Some(named)) = with_file_name(alloc, &mime, name) else {
        return show(out, &"none");
    };
    show(out, &named);
    if let Ok(Some(back)) = file_name(alloc, &named) {
        show(out, &shown(&back));
    }
    if let Ok(Some(back)) = written_and_read(alloc, &mime, name) {
        show(out, &shown(&back));
    }
}

/// Shows the names of a field and of its file.
fn show_names(out: &mut String, names: &Disposition) {
    show(out, &shown(&names.name));
    show_option(out, names.file_name.as_ref().map(|name| shown(name)));
}

/// Shows the names of a field and of its file, `none`, or the error.
pub(crate) fn show_names_of(out: &mut String, answer: Result<Option<Disposition>, AllocError>) {
    match answer {
        Ok(Some(found)) => show_names(out, &found),
        Ok(None) => show(out, &"none"),
        Err(error) => show(out, &error),
    }
}

/// Shows the names, the media type and the content of each part of a body, and whether the body is whole.
pub(crate) fn show_form(alloc: Global, out: &mut String, field: &str, body: &[u8]) {
    let Some(mime) = read_or_not(alloc, out, field) else {
        return;
    };
    let Ok(Some(found)) = parts(alloc, &mime, body) else {
        return show(out, &"none");
    };
    for part in &found.parts {
        show_names_of(out, disposition_of(alloc, part));
        show_option(out, value_of(part, "content-type").map(shown));
        show_option(out, content_of(part).map(shown));
    }
    show(out, if found.is_whole { &"whole" } else { &"cut off" });
}

/// Shows the fields of a form, or the status of the reply.
pub(crate) fn show_fields(alloc: Global, out: &mut String, value: &str, body: &[u8]) {
    match fields(alloc, value.as_bytes(), body) {
        Ok(fields) => {
            for field in &fields {
                show_names(out, &field.names);
                show_option(out, field.content_type.map(shown));
                show(out, &shown(field.content));
            }
        }
        Err(status) => show(out, &status),
    }
}

/// Shows the parts of a body, and whether it is whole.
pub(crate) fn show_body_parts(alloc: Global, out: &mut String, field: &str, body: &str) {
    let Some(mime) = read_or_not(alloc, out, field) else {
        return;
    };
    match parts(alloc, &mime, body.as_bytes()) {
        Ok(Some(found)) => {
            for part in &found.parts {
                show(out, &shown(part));
            }
            show(out, if found.is_whole { &"whole" } else { &"cut off" });
        }
        Ok(None) => show(out, &"none"),
        Err(error) => show(out, &error),
    }
}

/// Shows the positions of the acceptable offers, the best first.
pub(crate) fn show_in_order(alloc: Global, out: &mut String, strings: &[String]) {
    if let Ok((lines, offers)) = request_of(alloc, strings) {
        show_positions(out, in_order(alloc, &lines, &offers));
    }
}
