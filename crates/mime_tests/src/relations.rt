//! The rows that compare values or names.

use crate::constants::constant_name;
use crate::values::{show_debug, value_or_fault};
use mime::{Mime, Name, mime_eq_str, name_eq_str};
use std::alloc::Global;
use std::cmp::Ordering;
use std::collections::{BTreeSet, HashSet};
use std::fmt::Write;
use std::hash::{Hash, Hasher};

/// A hasher that keeps the bytes that it is fed, as a number modulo 2 ^ 128. The number's digits in base 257 are a 1 and these bytes. So
/// two sequences of at most 15 bytes are the same if their numbers are equal. `finish` always returns 0.
#[derive(Clone, Copy)]
struct Fed(u128);

impl Hasher for Fed {
    ghost use Rattle.std.specs.Prelude.{◌+◌, ◌*◌, ◌%◌, ◌^◌, fold};

    ghost write = { λ fed bytes. record fed { 0 = fold (λ number byte. ((number * 257) % 2 ^ 128 + byte) % 2 ^ 128) fed.0 bytes } };

    ghost finish = { λ fed. 0 };

    fn finish(&self) -> u64 {
        0
    }

    fn write(&mut self, bytes: &[u8]) {
        let mut number = self.0;
        for byte in bytes {
            number = number.wrapping_mul(257).wrapping_add(u128::from(*byte));
        }
        self.0 = number;
    }
}

/// Returns the bytes that a value feeds a hasher, as a number.
fn hash_input<T: Hash>(value: &T) -> u128 {
    let mut fed = Fed(1);
    value.hash(&mut fed);
    fed.0
}

/// Returns a sign for how two values compare, or `?` if their order, their equality and the bytes that they feed a hasher don't agree.
fn relation<T: Ord + Hash>(one: &T, other: &T) -> char {
    let order = one.cmp(other);
    let is_equal = *one == *other;
    if is_equal != order.is_eq() || is_equal != (hash_input(one) == hash_input(other)) {
        return '?';
    }
    match order {
        Ordering::Less => '<',
        Ordering::Equal => '=',
        Ordering::Greater => '>',
    }
}

/// Returns the values that two fields stand for, or writes the first fault and returns `None`.
fn values_or_fault(
    alloc: Global,
    out: &mut String,
    field: &str,
    other: &str,
) -> Option<(Mime, Mime)> {
    let value = value_or_fault(alloc, out, field)?;
    Some((value, value_or_fault(alloc, out, other)?))
}

/// Shows how two values compare, and whether the first is equal to the second field as a string.
pub(crate) fn show_compared(alloc: Global, out: &mut String, field: &str, text: &str) {
    if let Some((one, other)) = values_or_fault(alloc, out, field, text) {
        show_debug(out, &(relation(&one, &other), mime_eq_str(&one, text)));
    }
}

/// Returns the name that a field stands for: a constant, or the text after a `~` or `=`. The name ignores case if the field begins with
/// `~`.
fn name_of(field: &str) -> Name<'_> {
    match constant_name(field) {
        Some(name) => name,
        None => Name {
            text: field.get(1..).unwrap_or(""),
            ignores_case: field.starts_with('~'),
        },
    }
}

/// Shows a name. Then shows this name and a second name with Debug, how they compare, and whether the first is equal to the second's text.
pub(crate) fn show_names(out: &mut String, one: &str, other: &str) {
    let one = name_of(one);
    let other = name_of(other);
    let sign = relation(&one, &other);
    let is_text = name_eq_str(&one, other.text);
    let _ = writeln!(out, "{one}\n{:?}", (one, sign, other, is_text));
}

/// Shows whether a value is found in sets that contain only a second value.
pub(crate) fn show_sets(alloc: Global, out: &mut String, field: &str, text: &str) {
    let Some((one, other)) = values_or_fault(alloc, out, field, text) else {
        return;
    };
    let (mut hashed, mut ordered) = (HashSet::new(alloc), BTreeSet::new(alloc));
    if let Ok(copy) = other.clone() {
        let _ = hashed.insert(copy);
    }
    let _ = ordered.insert(other);
    show_debug(out, &(hashed.contains(&one), ordered.contains(&one)));
}

/// Shows whether a value equals a string.
pub(crate) fn show_against(alloc: Global, out: &mut String, field: &str, text: &str) {
    if let Some(mime) = value_or_fault(alloc, out, field) {
        show_debug(out, &mime_eq_str(&mime, text));
    }
}
