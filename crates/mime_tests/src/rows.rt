//! The rows of a table, and the answers to each. A row is a word and fields, separated by tabs.
//!
//! A `VALUE` is a string that is read, or the identifier of a constant. These are the rows about `mime`:
//!
//! - `read VALUE`, `clone VALUE`, `items STRING`: reads the string, clones its media type, or yields the media types in it;
//! - `again STRING`: yields the first media type, and then the others, once from a clone of the iterator and once from the iterator itself;
//! - `list STRING STRINGS`: compares each media type in the first string with the string at the same place among the others;
//! - `parts VALUE`: the parts of a value, or why it is rejected;
//! - `long VALUE KEPT`: the size hint and the number of a value's parameters, and whether its string is `KEPT`;
//! - `print VALUE`: a value with a width of 12, and with Debug;
//! - `key VALUE KEY OTHER`: the value that a string or a constant finds as a key, and whether the value found equals the other string;
//! - `compare VALUE VALUE`: how two values compare, and whether the first equals the second field as a string;
//! - `sets VALUE VALUE`: whether the first value is found in sets that contain the second;
//! - `against VALUE STRING`: whether a value equals a string;
//! - `names NAME NAME`: two names and how they compare. Each is a constant, a string after `=`, or a string that ignores case after `~`;
//! - `bytes`, `copies`: the classes of bytes, and the copies of the constants;
//! - `short_verdicts`: tests all short strings by a rule, without a row for each.
//!
//! A row about `mime_http` or a recipe is a function's name and its arguments. An `Accept` header is one field, whose lines end with line
//! feeds. Offers are the fields after it. A bar follows each answer of these rows.
//!
//! Between the lines `now` and `end`, only the calls of a row allocate. tools/refused_requests refuses and counts the requests for memory
//! between these lines. The answers are printed after these lines. If memory runs out, an answer is left out, or says so.

use crate::fields::string_at;
use crate::http::{
    header_of, latin_1, lines_of, read_both, show, show_header, show_made, show_made_from,
    show_option, show_read, show_result, shown,
};
use crate::recipes::show_names_of;
use crate::values::read;
use crate::{constants, http, items, recipes, relations, short, values};
use mime::MimeIter;
use mime_examples::accepted::explained;
use mime_examples::answer::{refusal, refusal_of_body, status_of};
use mime_examples::build::vendor_json;
use mime_examples::callers::{has_param, has_suffix, printed, reads_alike};
use mime_examples::charset::is_utf8;
use mime_examples::compress::is_compressible;
use mime_examples::disposition::read_disposition;
use mime_examples::html::accepts_html;
use mime_examples::json::is_json;
use mime_examples::key::weight_text_of;
use mime_examples::multipart::{content_of, disposition_of, may_delimit, value_of};
use mime_examples::plain::is_plain;
use mime_examples::reader::reader_of;
use mime_examples::reply::{form_with, page_in};
use mime_examples::route::takes;
use mime_examples::utf8::says_utf8;
use mime_http::{
    Accept, FieldError, content_type, covers, has_quoted_weight, is_boundary, trimmed, weight_of,
    with_boundary, with_charset, with_parameter,
};
use std::alloc::Global;

/// Writes the answers to a row.
pub(crate) fn show_row(rt: &HostRuntime, out: &mut String, word: &str, strings: &[String]) {
    let is_known = show_of_library(rt.alloc(), out, word, strings)
        || show_of_headers(rt.alloc(), out, word, strings)
        || show_of_recipes(rt, out, word, strings);
    if !is_known {
        show(out, &"none");
    }
    if !out.ends_with('\n') {
        let _ = out.push('\n');
    }
}

/// Writes the answers to a row about `mime`, and returns `true`. Returns `false` for any other row.
fn show_of_library(alloc: Global, out: &mut String, word: &str, strings: &[String]) -> bool {
    let one = string_at(strings, 0);
    let two = string_at(strings, 1);
    let three = string_at(strings, 2);
    match word {
        "again" => items::show_again(alloc, out, one),
        "against" => relations::show_against(alloc, out, one, two),
        "bytes" => constants::show_bytes(out),
        "clone" => values::show_clone(alloc, out, one),
        "compare" => relations::show_compared(alloc, out, one, two),
        "copies" => constants::show_copies(out),
        "items" => items::show_items(out, MimeIter::new(alloc, one)),
        "key" => values::show_found(alloc, out, one, two, three),
        "list" => items::show_list(alloc, out, strings),
        "long" => values::show_long(alloc, out, one, two),
        "names" => relations::show_names(out, one, two),
        "parts" => values::show_parts(alloc, out, one),
        "print" => values::show_printed(alloc, out, one),
        "read" => values::show_parse(alloc, out, one),
        "sets" => relations::show_sets(alloc, out, one, two),
        "short_verdicts" => short::show_short_verdicts(alloc, out),
        _ => return false,
    }
    true
}

/// Writes the answers to a row about `mime_http`, and returns `true`. Returns `false` for any other row.
fn show_of_headers(alloc: Global, out: &mut String, word: &str, strings: &[String]) -> bool {
    let one = string_at(strings, 0);
    let two = string_at(strings, 1);
    let three = string_at(strings, 2);
    match word {
        "accept" => show_header(out, header_of(alloc, one)),
        "accept in Latin-1" => {
            show_header(out, Accept::from_lines(alloc, &[&latin_1(alloc, one)]))
        }
        "best" => http::show_best(alloc, out, strings),
        "boundary" => http::show_boundary(alloc, out, one),
        "content_type" => show_result(out, content_type(alloc, one.as_bytes())),
        "content_type_after" => show_result(out, http::read_in_steps(alloc, one)),
        "content_type in Latin-1" => show_result(out, content_type(alloc, &latin_1(alloc, one))),
        "covers" => show_read(
            out,
            read_both(alloc, one, two).map(|(range, offer)| covers(&range, &offer)),
        ),
        "from_line_counting_bad" => http::show_counting_bad(alloc, out, one),
        "from_lines_without_bad" => show_header(
            out,
            lines_of(alloc, one).and_then(|lines| Accept::from_lines_without_bad(alloc, &lines)),
        ),
        "first_value" => http::show_first_value(alloc, out, one, two),
        "has_quoted_weight" => show(out, &has_quoted_weight(one.as_bytes())),
        "is_boundary" => show(out, &is_boundary(one.as_bytes())),
        "lacked" => http::show_lacked(alloc, out, one, two, three),
        "order" => http::show_order(alloc, out, strings),
        "rank_offers" => http::show_ranking(alloc, out, strings),
        "trimmed" => show(out, &shown(trimmed(one.as_bytes()))),
        "unescape" => http::show_meant(out, Vec::new(alloc), one, two),
        "unescape in room" => http::show_unescaped_in_room(alloc, out, one, two),
        "weight" => http::show_weights(alloc, out, strings),
        "weight_of" => show_read(out, read(alloc, one).map(|range| weight_of(&range))),
        "with_boundary" => {
            show_made_from(alloc, out, one, |mime| with_boundary(alloc, mime, two))
        }
        "with_charset" => show_made_from(alloc, out, one, |mime| with_charset(alloc, mime, two)),
        "with_parameter" => {
            show_made_from(
                alloc,
                out,
                one,
                |mime| with_parameter(alloc, mime, two, three),
            )
        }
        _ => return false,
    }
    true
}

/// Writes the answers to a row about a recipe, and returns `true`. Returns `false` for any other row.
fn show_of_recipes(rt: &HostRuntime, out: &mut String, word: &str, strings: &[String]) -> bool {
    let alloc = rt.alloc();
    let one = string_at(strings, 0);
    let two = string_at(strings, 1);
    match word {
        "accepts_html" => show_result(
            out,
            lines_of(alloc, one).and_then(|lines| accepts_html(alloc, &lines)),
        ),
        "bare_of" => recipes::show_bare_of(alloc, out, one),
        "caret_below" => recipes::show_caret_below(alloc, out, one),
        "caret_line" => recipes::show_caret_line(alloc, out, one),
        "chosen" => recipes::show_chosen(alloc, out, strings),
        "count" => recipes::show_counts(rt, out, strings),
        "described" => recipes::show_described(alloc, out, one),
        "disposition_of" => show_names_of(out, disposition_of(alloc, one.as_bytes())),
        "content_of" => show_option(out, content_of(one.as_bytes()).map(shown)),
        "explained" => show_result(
            out,
            lines_of(alloc, one).and_then(|lines| explained(alloc, &lines)),
        ),
        "file_name" => recipes::show_file_name(alloc, out, one, two),
        "fields" => recipes::show_fields(alloc, out, one, two.as_bytes()),
        "form" => recipes::show_form(alloc, out, one, two.as_bytes()),
        "form in Latin-1" => recipes::show_form(alloc, out, one, &latin_1(alloc, two)),
        "form_with" => show_made(out, form_with(alloc, one)),
        "handler_of" => recipes::show_handler_of(alloc, out, one),
        "has_param" => show_result(out, printed(alloc, one).map(|mime| has_param(&mime, two))),
        "has_suffix" => show_result(out, has_suffix(alloc, one)),
        "in_order" => recipes::show_in_order(alloc, out, strings),
        "is_compressible" => show_read(out, read(alloc, one).map(|mime| is_compressible(&mime))),
        "is_json" => show_read(out, read(alloc, one).map(|mime| is_json(&mime))),
        "is_utf8" => show_read(out, read(alloc, one).map(|mime| is_utf8(&mime))),
        "is_plain" => show_read(out, read(alloc, one).map(|mime| is_plain(&mime))),
        "may_delimit" => show(out, &may_delimit(one.as_bytes(), two.as_bytes())),
        "multipart::parts" => recipes::show_body_parts(alloc, out, one, two),
        "page_in" => show_made(out, page_in(alloc, one)),
        "read_disposition" => show_names_of(out, read_disposition(alloc, one.as_bytes())),
        "reader_of" => show(out, &reader_of(one)),
        "reads_alike" => show_result(out, reads_alike(alloc, one)),
        "received" => recipes::show_received(alloc, out, one, two),
        "refusal" => show_option(out, refusal(alloc, one.as_bytes())),
        "refusal_of_body" => show_option(out, refusal_of_body(alloc, Some(one.as_bytes()))),
        "refusal_of_body without a header" => show_option(out, refusal_of_body(alloc, None)),
        "says_utf8" => show_result(out, says_utf8(alloc, one.as_bytes())),
        "status_of no memory" => show(out, &status_of(&FieldError::NoMemory)),
        "takes" => show_read(
            out,
            read_both(alloc, one, two).map(|(range, body)| takes(&range, &body)),
        ),
        "type_for" => recipes::show_type_for(alloc, out, one, two),
        "type_of_file" => recipes::show_type_of_file(alloc, out, one),
        "weight_text_of" => show_read(
            out,
            read(alloc, one).as_ref().map(|mime| weight_text_of(mime)),
        ),
        "value_of" => show_option(out, value_of(one.as_bytes(), two).map(shown)),
        "vendor_json" => show_made(out, vendor_json(alloc, one)),
        _ => return false,
    }
    true
}
