//! The rows about one value.

ghost use Rattle.std.specs.Prelude.{◌≡◌, codes};

use crate::constants::{Shown, constant_name, value_of};
use mime::{Mime, Name, ParamKey, TextKey, name_eq_str};
use std::alloc::Global;
use std::fmt::{Debug, Write};

/// Writes an answer with Debug.
pub(crate) fn show_debug<T: Debug>(out: &mut String, said: &T) {
    let _ = writeln!(out, "{said:?}");
}

/// Returns the value that a field stands for, or writes its fault and returns `None`.
pub(crate) fn value_or_fault(alloc: Global, out: &mut String, field: &str) -> Option<Mime> {
    match value_of(alloc, field) {
        Ok(mime) => Some(mime),
        Err(error) => {
            // The error ignores a width.
            let _ = writeln!(out, "bad {error:99}");
            None
        }
    }
}

/// Returns the media type that a string is read as, or `None`.
pub(crate) fn read(alloc: Global, text: &str) -> Option<Mime> {
    Mime::from_str(alloc, text).ok()
}

/// Returns the media type that a string is read as, or writes `not read` and returns `None`.
pub(crate) fn read_or_not(alloc: Global, out: &mut String, text: &str) -> Option<Mime> {
    let mime = read(alloc, text);
    if mime.is_none() {
        let _ = out.push_str("not read|");
    }
    mime
}

/// Writes a media type.
pub(crate) fn show_media_type(out: &mut String, mime: &Mime) {
    let _ = writeln!(out, "ok {mime}");
}

/// Shows what a string is read as.
pub(crate) fn show_parse(alloc: Global, out: &mut String, field: &str) {
    if let Some(mime) = value_or_fault(alloc, out, field) {
        show_media_type(out, &mime);
    }
}

/// Writes the copy of a value, and whether it is equal to the original.
pub(crate) fn show_copy(out: &mut String, original: &Mime) {
    let _ = match original.clone() {
        Ok(copy) => writeln!(out, "ok {copy}, equal: {}", copy == *original),
        Err(_) => out.push_str("no memory\n"),
    };
}

/// Shows the clone of a value, and the original, which a failed clone leaves unchanged.
pub(crate) fn show_clone(alloc: Global, out: &mut String, field: &str) {
    let Ok(original) = value_of(alloc, field) else {
        let _ = out.push_str("not a media type\n");
        return;
    };
    show_copy(out, &original);
    let _ = writeln!(out, "original {original}");
}

/// Shows the parts of a media type: its string, type, subtype, suffix, essence and parameters, with the size hints before the parameters
/// and after each parameter.
pub(crate) fn show_parts(alloc: Global, out: &mut String, field: &str) {
    let Some(mime) = value_or_fault(alloc, out, field) else {
        return;
    };
    let suffix = mime.suffix().map(Shown);
    let top = Shown(mime.type_());
    let sub = Shown(mime.subtype());
    let mut params = mime.params();
    let parts = (top, sub, suffix, mime.essence_str());
    let _ = writeln!(out, "ok {mime}\n{:?}", (parts, params.size_hint()));
    while let Some((name, value)) = params.next() {
        show_debug(out, &(Shown(name), Shown(value), params.size_hint()));
    }
}

/// Shows the size hint and the number of the parameters, and whether the value's string is `kept`.
pub(crate) fn show_long(alloc: Global, out: &mut String, field: &str, kept: &str) {
    let Some(mime) = value_or_fault(alloc, out, field) else {
        return;
    };
    let hint = mime.params().size_hint();
    let count = mime.params().count();
    show_debug(out, &(hint, count, mime.as_str() == kept));
}

/// Shows a value with a width of 12, the value with Debug, and its parameters with Debug.
pub(crate) fn show_printed(alloc: Global, out: &mut String, field: &str) {
    if let Some(mime) = value_or_fault(alloc, out, field) {
        let _ = writeln!(out, "{mime:>12}|{mime:?}|{:?}", mime.params());
    }
}

/// The key that accepts only the name `foo`.
#[derive(Clone, Copy)]
struct Foo;

impl ParamKey for Foo {
    ghost Accepts = { λ key name ignores_case. name ≡ codes "foo" };

    fn accepts(&self, name: Name<'_>) -> bool {
        name.text == "foo"
    }
}

/// Shows the value that a key finds, and whether this value is equal to `other`. Then shows what this value finds as a key, and what the
/// key `Foo` finds.
pub(crate) fn show_found(alloc: Global, out: &mut String, field: &str, key: &str, other: &str) {
    let Some(mime) = value_or_fault(alloc, out, field) else {
        return;
    };
    let value = match constant_name(key) {
        Some(name) => mime.get_param(name),
        None => mime.get_param(TextKey(key)),
    };
    let (is_other, own) = match value {
        Some(value) => (name_eq_str(&value, other), mime.get_param(value)),
        None => (false, None),
    };
    let foo = mime.get_param(Foo);
    show_debug(out, &(value.map(Shown), is_other, own, foo));
}
