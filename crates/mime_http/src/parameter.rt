//! Writes parameters of media types.

ghost use Rattle.std.specs.Prelude.{◌≡◌, ◌++◌, ◌∷◌, [], ◌↔◌, IsTrue, IfOk, IsOk, IfSome, None, OnOk, Some, is_some, if◌then◌else◌, codes};
ghost use Rattle.std.specs.Prelude.{string_bytes, length};
ghost use Rattle.std.specs.List.{list_all};
ghost use Rattle.mime.specs.{Bytes.is_quoted_byte, Grammar.IsToken, Grammar.is_token, HeaderLaws.AreHeaderBytes};
ghost use Rattle.mime.specs.{Values.Reads, Values.lowered, Values.lowered_value};
ghost use Rattle.mime_http.specs.Boundary.{IsBoundary};
ghost use Rattle.mime_http.specs.Forms.{form_of, text_in};
ghost use Rattle.mime_http.specs.Written.{escaped, text_of_pairs, others, with_pair};
ghost use Rattle.mime_http.specs.declared.quoted.Form.TheVariants.{Token, Quoted};

use crate::multipart::is_boundary;
use crate::quoted::{Form, push_escaped, special_from};
use crate::range::{after_essence, param_count};
use crate::reader::token_end_far;
use mime::laws::{kept_is_safe, one_reading};
use mime::{KnownText, Mime, name_eq_str};
use mime_search::{Class, Range, TEXT_STOPS, first_stop};
use std::alloc::{AllocError, Global};

/// The bytes that no quoted string can contain: the ASCII control characters other than the tab.
static CONTROLS: Class = Class {
    fold: 0,
    folded: Range(0, 8),
    second: Range(10, 31),
    third: Range(127, 127),
    inside: true,
};

/// Returns `true` if a string is a token.
fn is_token_text(text: &str) -> bool
    ensures { result ≡ is_token text.now }
{
    !text.is_empty() && token_end_far(text.as_bytes(), 0) == text.len()
}

/// Returns `true` if a string has no uppercase ASCII letter.
#[tactic(auto, using(crate::proofs::Contents::no_capital))]
fn is_lowercase(text: &str) -> bool
    ensures { IsTrue result → lowered text.now ≡ text.now }
{
    text.as_bytes()
        .iter()
        .all(|byte| !byte.is_ascii_uppercase())
}

/// Returns `true` if a parameter is kept as it is written: neither its name nor, for a `charset`, its value has an uppercase ASCII letter.
#[tactic(auto, using(crate::proofs::Contents::kept_low))]
fn is_kept_as_written(name: &str, value: &str) -> bool
    ensures { IsTrue result → (lowered name.now ≡ name.now) × (lowered_value name.now (escaped value.now) ≡ escaped value.now) }
{
    is_lowercase(name) && (name != "charset" || is_lowercase(value))
}

/// Returns the form of a value that already has the backslashes that it needs.
fn form_of_content(content: &str) -> Form
    ensures { result ≡ (if is_token content.now then Token else Quoted) }
{
    if is_token_text(content) {
        Form::Token
    } else {
        Form::Quoted
    }
}

/// Returns the form in which a value is written, or `None` if the value has a byte that no quoted string can contain: an ASCII
/// control character other than the tab.
fn form_of(value: &str) -> Option<Form>
    ensures { result ≡ (if list_all is_quoted_byte value.now then Some (form_of value.now) else None) }
{
    let bytes = value.as_bytes();
    let plain = token_end_far(bytes, 0);
    if plain == bytes.len() && plain > 0 {
        return Some(Form::Token);
    }
    // Most other values have only printable ASCII, and no quote or backslash.
    let text = first_stop(bytes, plain, &TEXT_STOPS);
    if text == bytes.len() {
        Some(Form::Quoted)
    } else if first_stop(bytes, text, &CONTROLS) < bytes.len() {
        None
    } else if special_from(bytes, text) < bytes.len() {
        Some(Form::Escaped)
    } else {
        Some(Form::Quoted)
    }
}

/// Adds a parameter to a text, with its value in this form.
fn push_parameter(text: &mut String, name: &str, value: &str, form: Form) -> Result<(), AllocError>
    ensures { OnOk result (string_bytes text.new ≡ string_bytes text.old ++ text_in form name.now value.now) }
{
    text.push(';')?;
    text.push(' ')?;
    text.push_str(name)?;
    text.push('=')?;
    match form {
        Form::Token => text.push_str(value),
        Form::Quoted => {
            text.push('"')?;
            text.push_str(value)?;
            text.push('"')
        }
        Form::Escaped => {
            text.push('"')?;
            push_escaped(text, value)?;
            text.push('"')
        }
    }
}

/// Returns the text of a media type with this parameter in place of all parameters of its name, and the number of the other parameters.
fn text_with(
    alloc: Global,
    mime: &Mime,
    name: &str,
    value: &str,
    form: Form,
) -> Result<(String, usize), AllocError>
    requires fits { form ≡ form_of value.now }
    ensures text { IfOk result (λ written. string_bytes written.0
        ≡ mime.now.media.essence ++ text_of_pairs (others name.now mime.now.media.pairs ++ ((name.now, escaped value.now) ∷ []))) }
    ensures count { IfOk result (λ written. written.1 ≡ length (others name.now mime.now.media.pairs)) }
{
    // The maximum number of bytes of `; `, `=`, the value and its quotes.
    let content = match form {
        Form::Token => value.len().saturating_add(3),
        Form::Quoted => value.len().saturating_add(5),
        Form::Escaped => value.len().saturating_mul(2).saturating_add(5),
    };
    let most = param_count(mime);
    // Each parameter is written after `; `. If the kept text has only `;`, each may need a byte more.
    let spaces = match after_essence(mime) {
        [_, b' ', ..] => 0,
        _ => most,
    };
    // The kept text has the other parameters, so most texts need no more capacity.
    let added = name.len().saturating_add(content).saturating_add(spaces);
    let room = mime.as_str().len().saturating_add(added);
    let mut text = String::with_capacity(alloc, room)?;
    text.push_str(mime.essence_str())?;
    let mut count = 0;
    for (other, kept) in mime.params() {
        if name_eq_str(&other, name) {
            continue;
        }
        push_parameter(&mut text, other.text, kept.text, form_of_content(kept.text))?;
        count += 1;
    }
    push_parameter(&mut text, name, value, form)?;
    Ok((text, count))
}

/// Reads a text that is accepted. The result is matched and made anew, so that the caller reserves no stack for it if no text is read.
#[inline(always)]
fn read_accepted(alloc: Global, text: &str) -> Result<Mime, AllocError>
    ensures { IfOk result (λ mime. Reads text.now mime.media) }
{
    match Mime::from_str(alloc, text) {
        Ok(mime) => Ok(mime),
        // The text is accepted, so memory ran out.
        Err(_) => Err(AllocError),
    }
}

/// Returns the media type with this parameter in place of all parameters of its name. `is_kept` is `true` only if the parameter is kept as
/// it is written.
fn mime_with(
    alloc: Global,
    mime: &Mime,
    name: &str,
    value: &str,
    form: Form,
    is_kept: bool,
) -> Result<Mime, AllocError>
    requires named { IsToken name.now }
    requires safe { AreHeaderBytes value.now }
    requires fits { form ≡ form_of value.now }
    requires kept { IsTrue is_kept → (lowered name.now ≡ name.now) × (lowered_value name.now (escaped value.now) ≡ escaped value.now) }
    ensures { IfOk result (λ made. made.media ≡ with_pair mime.now.media (lowered name.now) (lowered_value name.now (escaped value.now))) }
{
    // For the proof: the bytes of the kept text may occur in a header.
    let _kept = mime.as_str();
    kept_is_safe();
    one_reading();
    let (text, others) = text_with(alloc, mime, name, value, form)?;
    if is_kept {
        // For the proof: the text has more bytes than there are other parameters, so the count can't overflow.
        let _more = text.len();
        let count = others + 1;
        let known = KnownText {
            like: mime,
            text,
            count,
        };
        return known.into_mime(alloc);
    }
    read_accepted(alloc, &text)
}

/// Returns the media type with this parameter in place of all parameters of its name, ignoring ASCII case (RFC 9110, 5.6.6). The new
/// parameter is the last, after the others in their order. `text/html; charset=utf-8` with the parameter `title` and the value `a "b"` is
/// `text/html; charset=utf-8; title="a \"b\""`.
///
/// Returns `None` exactly if the name isn't a token, or the value has a byte that no quoted string can contain: an ASCII control character
/// other than the tab. So neither the name nor the value can inject a parameter, or anything else, into a header.
///
/// The name is printed in lowercase. A value that is a token is printed without quotes. Any other value is printed in quotes, with a
/// backslash before each quote and each backslash (5.6.4). [`unescape`](crate::unescape) recovers the value that was passed, in lowercase
/// for a `charset`. The other parameters are printed in the same way, but with only the backslashes that they have: `a/b;p="x"` with the
/// parameter `q` and the value `1` is `a/b; p=x; q=1`.
///
/// Allocates a buffer for the text, which may grow. A text of more than 40 bytes may need one more block.
///
/// # Errors
/// Returns `AllocError` if memory runs out, which never happens if the result is `None`.
pub fn with_parameter(
    alloc: Global,
    mime: &Mime,
    name: &str,
    value: &str,
) -> Result<Option<Mime>, AllocError>
    ensures exact { IfOk result (λ answer. IsTrue (is_some answer) ↔ (IsToken name.now × AreHeaderBytes value.now)) }
    ensures none { ¬ (IsToken name.now × AreHeaderBytes value.now) → IsOk result }
    ensures made { IfOk result (λ answer. IfSome answer
        (λ made. made.media ≡ with_pair mime.now.media (lowered name.now) (lowered_value name.now (escaped value.now)))) }
{
    if !is_token_text(name) {
        return Ok(None);
    }
    match form_of(value) {
        Some(form) => {
            let is_kept = is_kept_as_written(name, value);
            Ok(Some(mime_with(alloc, mime, name, value, form, is_kept)?))
        }
        None => Ok(None),
    }
}

/// Returns the media type with this charset in place of its own, as [`with_parameter`] writes it. Returns `None` exactly if the charset
/// isn't a token (RFC 9110, 8.3.2). `text/html` with the charset `UTF-8` is `text/html; charset=utf-8`.
///
/// # Errors
/// Returns `AllocError` if memory runs out, which never happens if the result is `None`.
#[tactic(auto, using(crate::proofs::Contents::token_written), unfolding(mime::specs::Bytes::is_token_byte))]
pub fn with_charset(alloc: Global, mime: &Mime, charset: &str) -> Result<Option<Mime>, AllocError>
    ensures exact { IfOk result (λ answer. IsTrue (is_some answer) ↔ IsToken charset.now) }
    ensures none { ¬ (IsToken charset.now) → IsOk result }
    ensures made { IfOk result (λ answer. IfSome answer (λ made. made.media
        ≡ with_pair mime.now.media (codes "charset") (lowered charset.now))) }
{
    if !is_token_text(charset) {
        return Ok(None);
    }
    let is_kept = is_lowercase(charset);
    Ok(Some(mime_with(alloc, mime, "charset", charset, Form::Token, is_kept)?))
}

/// Returns the media type with this boundary in place of its own, as [`with_parameter`] writes it. Returns `None` exactly if the string
/// isn't a boundary (RFC 2046, 5.1.1), as [`is_boundary`] defines it. `multipart/mixed` with the boundary `a b` is
/// `multipart/mixed; boundary="a b"`. Any media type is accepted, though a boundary has a meaning only for the type `multipart`.
///
/// # Errors
/// Returns `AllocError` if memory runs out, which never happens if the result is `None`.
#[tactic(auto, using(crate::proofs::Contents::boundary_written), unfolding(mime::specs::Bytes::is_token_byte))]
pub fn with_boundary(alloc: Global, mime: &Mime, boundary: &str) -> Result<Option<Mime>, AllocError>
    ensures exact { IfOk result (λ answer. IsTrue (is_some answer) ↔ IsBoundary boundary.now) }
    ensures none { ¬ (IsBoundary boundary.now) → IsOk result }
    ensures made { IfOk result (λ answer. IfSome answer (λ made. made.media ≡ with_pair mime.now.media (codes "boundary") boundary.now)) }
{
    if !is_boundary(boundary.as_bytes()) {
        return Ok(None);
    }
    let form = form_of_content(boundary);
    Ok(Some(mime_with(alloc, mime, "boundary", boundary, form, true)?))
}
