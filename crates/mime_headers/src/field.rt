//! The two fields `Content-Type` and `Accept`.

ghost use Rattle.std.specs.Prelude.{◌≡◌, ◌++◌, ◌==◌, ◌&&◌, ◌∷◌, ℕ, List, false, true, map, nat_lt, option_and_then, option_map, length};
ghost use Rattle.std.specs.Prelude.{IfOk, Some, vec_items};
ghost use Rattle.std.specs.List.{before_first, list_all};
ghost use Rattle.mime.specs.Bytes.{is_token_byte};
ghost use Rattle.mime_headers.specs.Field.{continued, field_named, field_of, first_seen, is_field, label_of};
ghost use Rattle.mime_headers.specs.Line.{mark_before};
ghost use Rattle.mime_headers.specs.Field.{next_value, printed_name, seen, seen_from, values_of, whole_value};
ghost use Rattle.mime_headers.specs.Inner.{field_now};

use crate::line::{Made, begins, is_folded, signed, trim_start};
use crate::start::are_token_bytes;
use mime_http::trimmed;
use mime_search::{Class, first_stop};
use std::alloc::Global;
use std::fmt;

/// The name of one of the two fields.
#[derive(Clone, Copy, PartialEq, Eq, Debug)]
pub enum Name {
    /// `Content-Type`.
    ContentType,
    /// `Accept`.
    Accept,
}

impl Name {
    /// Returns the name in lowercase.
    fn label(self) -> &'static [u8]
        ensures { result.now ≡ label_of self }
    {
        match self {
            Name::ContentType => b"content-type",
            Name::Accept => b"accept",
        }
    }
}

/// Prints the name as it is mostly written, such as `Content-Type`. A width and a precision are ignored.
impl fmt::Display for Name {
    ghost output = { λ name. Some (printed_name name) };

    ghost styled_output = { λ name spec. Some (printed_name name) };

    fn fmt<W: fmt::Write>(&self, f: &mut fmt::Formatter<W>) -> fmt::Result {
        f.write_str(match self {
            Name::ContentType => "Content-Type",
            Name::Accept => "Accept",
        })
    }
}

/// One of the two fields, as a line has it.
#[derive(Clone, Copy)]
pub(crate) struct Field<'a> {
    pub(crate) name: Name,
    /// Without the white space around it.
    pub(crate) value: &'a [u8],
    /// Whether white space is before the colon.
    pub(crate) is_spaced: bool,
}

/// Returns a line as the field with a name, or `None` if the line doesn't begin with that name, optional white space and a colon.
fn field_named(name: Name, line: &[u8]) -> Option<Field<'_>>
    ensures { option_map field_now result ≡ field_named name line.now }
{
    let label = name.label();
    if !begins(label, line) {
        return None;
    }
    let rest = &line[label.len()..];
    let colon = trim_start(rest);
    if !begins(b":", colon) {
        return None;
    }
    Some(Field {
        name,
        value: trimmed(&colon[1..]),
        is_spaced: is_folded(rest),
    })
}

/// Returns the name of the two that may begin with this byte.
fn name_from(byte: u8) -> Option<Name>
    ensures { (rest : List ℕ) → field_of (byte ∷ rest) ≡ option_and_then (λ name. field_named name (byte ∷ rest)) result }
{
    match byte {
        b'A' | b'a' => Some(Name::Accept),
        b'C' | b'c' => Some(Name::ContentType),
        _ => None,
    }
}

/// Returns a line as one of the two fields, or `None` if it is neither. The first byte is tested first, since `seen_from` calls this
/// function for nearly each byte of a line.
#[inline(always)]
pub(crate) fn field_of(line: &[u8]) -> Option<Field<'_>>
    ensures { option_map field_now result ≡ field_of line.now }
{
    let (first, _rest) = line.split_first()?;
    field_named(name_from(*first)?, line)
}

/// Returns `true` if a line is one of the two fields.
pub(crate) fn is_field(line: &[u8]) -> bool
    ensures { result ≡ is_field line.now }
{
    field_of(line).is_some()
}

/// Returns the mark before one of the two fields in a line: its indentation or its sign. Returns `None` if the line has neither field.
pub(crate) fn field_mark(line: &[u8]) -> Option<&[u8]>
    ensures { option_map (λ mark. mark.now) result ≡ mark_before is_field false line.now }
{
    let indented = trim_start(line);
    if is_field(indented) {
        return Some(&line[..line.len() - indented.len()]);
    }
    let (sign, text) = signed(line)?;
    is_field(text).then_some(sign)
}

/// Returns the start of a value with the lines that continue it.
fn joined(alloc: Global, start: &[u8], lines: &[&[u8]]) -> Made<Vec<u8>>
    ensures { IfOk result (λ value. vec_items value ≡ start.now ++ continued (map (λ line. line.now) lines.now)) }
{
    let mut value = start.to_vec(alloc)?;
    for line in lines {
        if !is_folded(line) {
            break;
        }
        value.push(b' ')?;
        value.extend_from_slice(trimmed(line))?;
    }
    Ok(value)
}

/// Returns `true` if a line begins with token bytes and a colon.
fn is_named(line: &[u8]) -> bool
    ensures { result ≡ (list_all is_token_byte (before_first (λ b. b == 58) line.now)
        && nat_lt (length (before_first (λ b. b == 58) line.now)) (length line.now)) }
{
    let at = first_stop(line, 0, &Class::of(b':', b':'));
    are_token_bytes(&line[..at]) && at < line.len()
}

/// Returns the value of a field without one: the next line, if no token and colon begin it, and the lines that continue it.
fn next_value(alloc: Global, lines: &[&[u8]]) -> Made<Vec<u8>>
    ensures { IfOk result (λ value. vec_items value ≡ next_value (map (λ line. line.now) lines.now)) }
{
    match lines.split_first() {
        Some((line, more)) if !is_named(line) => joined(alloc, trimmed(line), more),
        _ => Ok(Vec::new(alloc)),
    }
}

/// Returns the value that begins so, with the lines after it.
fn whole_value(alloc: Global, start: &[u8], lines: &[&[u8]]) -> Made<Vec<u8>>
    ensures { IfOk result (λ value. vec_items value ≡ whole_value (map (λ line. line.now) lines.now) start.now) }
{
    let value = joined(alloc, start, lines)?;
    if value.is_empty() {
        return next_value(alloc, lines);
    }
    Ok(value)
}

/// Returns the values of a field in lines, in order. A value has the rest of a line, and the next lines that continue it. All are trimmed,
/// and joined by single spaces. An empty value is in the next line, if no token and colon begin that.
pub(crate) fn values_of(alloc: Global, name: Name, lines: &[&[u8]]) -> Made<Vec<Vec<u8>>>
    ensures { IfOk result (λ values. map vec_items (vec_items values) ≡ values_of name (map (λ line. line.now) lines.now)) }
{
    let mut values = Vec::new(alloc);
    for (at, line) in lines.iter().enumerate() {
        if let Some(field) = field_named(name, line).filter(|field| !field.is_spaced) {
            values.push(whole_value(alloc, field.value, &lines[at + 1..])?)?;
        }
    }
    Ok(values)
}

/// Returns the name of the first of the two fields in plain sight in a line: at its start, which may be behind a diff's `-`, or behind a
/// byte other than `-`, `_` and `[`.
pub(crate) fn seen(line: &[u8]) -> Option<Name>
    ensures { result ≡ seen line.now }
{
    seen_from(line.strip_prefix(b"-").unwrap_or(line))
}

/// Returns the name of the first of the two fields at the start of a line, or behind a byte other than `-`, `_` and `[`.
fn seen_from(line: &[u8]) -> Option<Name>
    ensures { result ≡ seen_from true line.now }
{
    let mut may = true;
    for (at, byte) in line.iter().enumerate() {
        if may {
            if let Some(field) = field_of(&line[at..]) {
                return Some(field.name);
            }
        }
        may = !matches!(*byte, b'-' | b'_' | b'[');
    }
    None
}

/// Returns the first line that has one of the two fields in plain sight: its number, counted from 1, and the field's name.
pub(crate) fn first_seen(lines: &[&[u8]]) -> Option<(usize, Name)>
    ensures { result ≡ first_seen 1 (map (λ line. line.now) lines.now) }
{
    for (at, line) in lines.iter().enumerate() {
        if let Some(name) = seen(line) {
            return Some((at + 1, name));
        }
    }
    None
}
