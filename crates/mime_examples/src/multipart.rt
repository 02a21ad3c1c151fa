//! The parts of a multipart body.

ghost use Rattle.std.specs.Prelude.{◌≡◌, ◌≢◌, ◌⊎◌, ◌↔◌, ◌≤◌, ◌<◌, ◌∷◌, ◌++◌, [], ℕ, List, IsTrue, IfOk, IfSome, MatchOption, Option, Some};
ghost use Rattle.std.specs.Prelude.{None, codes, false, drop, length, map, option_map, take};
ghost use Rattle.std.specs.Vec.{vec_items};
ghost use Rattle.mime.specs.Grammar.{is_space};
ghost use Rattle.mime_http.specs.Boundary.{IsBoundary, IsBoundaryOf};
ghost use Rattle.mime_examples.specs.Disposition.{IsDisposition};
ghost use Rattle.mime_examples.specs.Multipart.{IsLine, EndsLine, EndsDelimiter, HasNoDelimiter, IsCut, IsPart, Closes, Opens};
ghost use Rattle.mime_examples.specs.Multipart.{IsNextPart, IsCutOff, IsBody, IsEmptyLine, IsField, IsFirstField, IsContent};

use crate::disposition::{Disposition, read_disposition};
use mime::Mime;
use mime_http::{boundary, is_boundary};
use std::alloc::{AllocError, Global};

/// The parts of a body.
#[derive(Drop)]
pub struct Body<'a> {
    /// The parts: each is usually a header, an empty line, and the content.
    pub parts: Vec<&'a [u8]>,
    /// Whether a delimiter closes the body. If not, the body was cut off, and the bytes after the last delimiter aren't a part.
    pub is_whole: bool,
}

/// Returns the delimiter that begins the line before each part of a body: two hyphens and the boundary (RFC 2046, 5.1.1). Returns `None`
/// exactly if the type isn't `multipart`, or the media type has no boundary.
///
/// # Errors
/// Returns `AllocError` if memory runs out, as do the functions below.
pub fn delimiter(alloc: Global, mime: &Mime) -> Result<Option<Vec<u8>>, AllocError>
    ensures { IfOk result (λ answer. MatchOption answer ((boundary : List ℕ) → ¬ (IsBoundaryOf mime.now.media boundary))
        (λ delimiter. (boundary : List ℕ) × IsBoundaryOf mime.now.media boundary × (vec_items delimiter ≡ codes "--" ++ boundary))) }
{
    let Some(boundary) = boundary(alloc, mime)? else {
        return Ok(None);
    };
    let mut delimiter = b"--".to_vec(alloc)?;
    delimiter.extend_from_slice(&boundary)?;
    Ok(Some(delimiter))
}

/// Returns the rest of a body after the delimiter's bytes at position `at`, or `None` if no line begins with them there.
fn after_delimiter<'a>(body: &'a [u8], at: usize, delimiter: &[u8]) -> Option<&'a [u8]>
    requires { at ≤ length body.now }
    ensures { MatchOption result ((after : List ℕ) → EndsLine (take at body.now) → drop at body.now ≢ delimiter.now ++ after)
        (λ after. EndsLine (take at body.now) × (drop at body.now ≡ delimiter.now ++ after.now)) }
{
    if at > 0 && body[at - 1] != b'\n' {
        return None;
    }
    body[at..].strip_prefix(delimiter)
}

/// Returns the bytes after a space or a tab, or `None` if the bytes don't begin with one.
fn after_space(bytes: &[u8]) -> Option<&[u8]>
    ensures { MatchOption result ((b : ℕ) (rest : List ℕ) → IsTrue (is_space b) → bytes.now ≢ b ∷ rest)
        (λ rest. (b : ℕ) × IsTrue (is_space b) × (bytes.now ≡ b ∷ rest.now)) }
{
    match bytes {
        [b' ' | b'\t', rest @ ..] => Some(rest),
        _ => None,
    }
}

/// Returns the bytes after a line's end, or `None` if the bytes don't begin with one.
fn after_end(bytes: &[u8]) -> Option<&[u8]>
    ensures { MatchOption result ((text : List ℕ) → (bytes.now ≢ 10 ∷ text) × (bytes.now ≢ 13 ∷ 10 ∷ text))
        (λ text. (bytes.now ≡ 10 ∷ text.now) ⊎ (bytes.now ≡ 13 ∷ 10 ∷ text.now)) }
{
    match bytes.strip_prefix(b"\n") {
        Some(text) => Some(text),
        None => bytes.strip_prefix(b"\r\n"),
    }
}

/// Returns the text after a delimiter's line, or `None` if not only white space follows the delimiter in its line, or the line has no end.
fn after_line(after: &[u8]) -> Option<&[u8]>
    ensures opens { MatchOption result ((text : List ℕ) → ¬ (Opens after.now text)) (λ text. Opens after.now text.now) }
    ensures shorter { IfSome result (λ text. length text.now < length after.now) }
{
    let mut left = after;
    while let Some(rest) = after_space(left) {
        left = rest;
    }
    after_end(left)
}

/// Returns `true` if these bytes after a delimiter make its line one: two hyphens, or white space up to the line's end. So `--x_y` isn't
/// the delimiter `--x`, but a line of a part, which may be multipart itself.
fn ends_delimiter(after: &[u8]) -> bool
    ensures { IsTrue result ↔ EndsDelimiter after.now }
{
    after.starts_with(b"--") || after_line(after).is_some()
}

/// Returns the rest of a body after the delimiter at position `at`, or `None` if there is no delimiter.
fn delimiter_at<'a>(body: &'a [u8], at: usize, delimiter: &[u8]) -> Option<&'a [u8]>
    requires { at ≤ length body.now }
    ensures { MatchOption result
        ((after : List ℕ) → EndsLine (take at body.now) → EndsDelimiter after → drop at body.now ≢ delimiter.now ++ after)
        (λ after. EndsLine (take at body.now) × EndsDelimiter after.now × (drop at body.now ≡ delimiter.now ++ after.now)) }
{
    let after = after_delimiter(body, at, delimiter)?;
    if ends_delimiter(after) {
        Some(after)
    } else {
        None
    }
}

/// Cuts a body at its first delimiter, a line that begins with `delimiter` and goes on with two hyphens, or with nothing but white space.
/// Returns the bytes before the line, and those after `delimiter` in it. Returns `None` if there is no such line.
pub fn cut<'a>(body: &'a [u8], delimiter: &[u8]) -> Option<(&'a [u8], &'a [u8])>
    ensures cut { IfSome result (λ halves. IsCut delimiter.now body.now halves.0.now halves.1.now) }
    ensures none { result ≡ None → delimiter.now ≢ [] → HasNoDelimiter delimiter.now body.now }
{
    for at in 0..body.len() {
        if let Some(after) = delimiter_at(body, at, delimiter) {
            return Some((&body[..at], after));
        }
    }
    None
}

/// Returns a text's first line, without its line feed, and the rest, or `None` if there is no line feed.
fn split_line(text: &[u8]) -> Option<(&[u8], &[u8])>
    ensures { MatchOption result (IsLine text.now) (λ halves. IsLine halves.0.now × (text.now ≡ halves.0.now ++ (10 ∷ halves.1.now))) }
{
    for at in 0..text.len() {
        if text[at] == b'\n' {
            return Some((&text[..at], &text[at + 1..]));
        }
    }
    None
}

/// Returns the bytes before a delimiter, without a line break at their end, which belongs to the delimiter.
fn without_end(before: &[u8]) -> &[u8]
    ensures { EndsLine before.now → IsPart before.now result.now }
{
    match before.strip_suffix(b"\n") {
        Some(part) => part.strip_suffix(b"\r").unwrap_or(part),
        None => before,
    }
}

/// Returns the next part and the bytes after the delimiter that ends it. `left` follows the previous delimiter. Returns `None` if the
/// previous delimiter closes the body, or the body is cut off.
fn next_part<'a>(left: &'a [u8], delimiter: &[u8]) -> Option<(&'a [u8], &'a [u8])>
    requires { delimiter.now ≢ [] }
    ensures part { IfSome result (λ halves. IsNextPart delimiter.now left.now halves.0.now halves.1.now) }
    ensures none { result ≡ None → EndsDelimiter left.now → Closes left.now ⊎ IsCutOff delimiter.now left.now }
    ensures shorter { IfSome result (λ halves. length halves.1.now < length left.now) }
{
    let text = after_line(left)?;
    let (before, after) = cut(text, delimiter)?;
    Some((without_end(before), after))
}

/// Returns a body's parts, which are between delimiters.
fn parts_between<'a>(
    alloc: Global,
    body: &'a [u8],
    delimiter: &[u8],
) -> Result<Body<'a>, AllocError>
    requires { delimiter.now ≢ [] }
    ensures { IfOk result (λ found. IsBody delimiter.now body.now (map (λ part. part.now) (vec_items found.parts)) found.is_whole) }
{
    let mut parts = Vec::new(alloc);
    let mut left = match cut(body, delimiter) {
        Some((_, after)) => after,
        None => {
            return Ok(Body {
                parts,
                is_whole: false,
            });
        }
    };
    while let Some((part, after)) = next_part(left, delimiter) {
        parts.push(part)?;
        left = after;
    }
    Ok(Body {
        parts,
        is_whole: left.starts_with(b"--"),
    })
}

/// Returns the parts of a body: the bytes between its delimiters. A delimiter with two hyphens after it ends the last part. Returns `None`
/// exactly if [`delimiter`] does. Parts aren't examined, and may have no header.
pub fn parts<'a>(alloc: Global, mime: &Mime, body: &'a [u8]) -> Result<Option<Body<'a>>, AllocError>
    ensures { IfOk result (λ answer. MatchOption answer ((boundary : List ℕ) → ¬ (IsBoundaryOf mime.now.media boundary))
        (λ found. (boundary : List ℕ) × IsBoundaryOf mime.now.media boundary
        × IsBody (codes "--" ++ boundary) body.now (map (λ part. part.now) (vec_items found.parts)) found.is_whole)) }
{
    let Some(delimiter) = delimiter(alloc, mime)? else {
        return Ok(None);
    };
    let found = parts_between(alloc, body, &delimiter)?;
    Ok(Some(found))
}

/// Returns the value in a line, or `None` if the line isn't a field of this name.
fn value_in<'a>(line: &'a [u8], name: &str) -> Option<&'a [u8]>
    ensures { MatchOption result ((value : List ℕ) → ¬ (IsField name.now line.now value)) (λ value. IsField name.now line.now value.now) }
{
    if line.len() < name.len() {
        return None;
    }
    if !line[..name.len()].eq_ignore_ascii_case(name.as_bytes()) {
        return None;
    }
    let rest = line[name.len()..].strip_prefix(b":")?;
    Some(rest.trim_ascii())
}

/// Returns `true` if a line ends a header: it is empty, or only a carriage return.
fn is_empty_line(line: &[u8]) -> bool
    ensures { IsTrue result ↔ IsEmptyLine line.now }
{
    line.is_empty() || line == b"\r".as_slice()
}

/// Returns the value of the first field of this name in a part's header, ignoring ASCII case, or `None` if there is no such field:
/// `value_of(part, "content-type")` is the part's media type, which is `text/plain` if the field is missing (RFC 7578, 4.4). Only the
/// field's first line is read (RFC 5322, 2.2.3).
pub fn value_of<'a>(part: &'a [u8], name: &str) -> Option<&'a [u8]>
    ensures { IsFirstField name.now part.now (option_map (λ value. value.now) result) }
{
    let mut left = part;
    while let Some((line, after)) = split_line(left) {
        if let Some(value) = value_in(line, name) {
            return Some(value);
        }
        if is_empty_line(line) {
            return None;
        }
        left = after;
    }
    None
}

/// Returns the content of a part, which follows the empty line after its header, or `None` if no line is empty. The empty line may be the
/// part's last line, whose end belongs to the delimiter: then the content is empty.
pub fn content_of(part: &[u8]) -> Option<&[u8]>
    ensures { IsContent part.now (option_map (λ content. content.now) result) }
{
    let mut left = part;
    while let Some((first, after)) = split_line(left) {
        if is_empty_line(first) {
            return Some(after);
        }
        left = after;
    }
    if left.is_empty() { Some(left) } else { None }
}

/// Returns the names of the field and of the file in a part's first `Content-Disposition`. Returns `None` exactly if there is no
/// `Content-Disposition`, or [`read_disposition`] returns `None`. Only the first line of a value is read (RFC 5322, 2.2.3).
pub fn disposition_of(alloc: Global, part: &[u8]) -> Result<Option<Disposition>, AllocError>
    ensures { IfOk result (λ answer. (first : Option (List ℕ)) × IsFirstField (codes "content-disposition") part.now first
        × MatchOption answer
        ((value name : List ℕ) (file_name : Option (List ℕ)) → first ≡ Some value → ¬ (IsDisposition value name file_name))
        (λ found. (value : List ℕ) × (first ≡ Some value)
        × IsDisposition value (vec_items found.name) (option_map vec_items found.file_name))) }
{
    match value_of(part, "content-disposition") {
        Some(value) => read_disposition(alloc, value),
        None => Ok(None),
    }
}

/// Returns `true` if bytes can be the boundary of a part: they are a boundary, and the part doesn't contain them.
pub fn may_delimit(bytes: &[u8], part: &[u8]) -> bool
    ensures { IsTrue result ↔ IsBoundary bytes.now × ((before after : List ℕ) → part.now ≢ before ++ (bytes.now ++ after)) }
{
    is_boundary(bytes) && !stand_in(bytes, part)
}

/// Returns `true` if a part contains these bytes. `bytes` must not be empty.
fn stand_in(bytes: &[u8], part: &[u8]) -> bool
    ensures stand { IsTrue result → (before after : List ℕ) × (part.now ≡ before ++ (bytes.now ++ after)) }
    ensures none { result ≡ false → bytes.now ≢ [] → (before after : List ℕ) → part.now ≢ before ++ (bytes.now ++ after) }
{
    for at in 0..part.len() {
        if part[at..].starts_with(bytes) {
            return true;
        }
    }
    false
}
