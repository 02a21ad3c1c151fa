//! Strings with a mark, which differs in each round.

ghost use Rattle.std.specs.Prelude.{◌<◌};

use crate::random::Random;
use mime::Mime;
use std::alloc::{AllocError, Global};

/// The number of letters in a mark.
const MARK: usize = 7;

/// The number of letters of a mark that stand for the string's number. The others count rounds.
const OWN: usize = 3;

/// The bytes that may replace a pattern's `@`.
const DIGITS: [u8; 16] = *b"0123456789abcdef";

/// A string with a mark of seven letters. The mark's first three letters stand for the string's number.
#[derive(Drop)]
pub(crate) struct Text {
    bytes: Vec<u8>,
    /// The position of the mark.
    mark: usize,
    /// Which of the first four letters and the mark's letters `capitalize` made uppercase, as a bit mask.
    capitals: u32,
}

/// Adds the mark of the string with this number.
fn push_mark(bytes: &mut Vec<u8>, number: usize) -> Result<(), AllocError> {
    let mut left = number;
    for _ in 0..OWN {
        bytes.push(b'a' + (left % 26) as u8)?;
        left /= 26;
    }
    bytes.extend_from_slice(b"aaaa")
}

/// Adds 1 to a number whose digits in base 26 are letters.
fn count_up(letters: &mut [u8]) {
    for letter in letters.iter_mut().rev() {
        if *letter < b'z' {
            *letter += 1;
            return;
        }
        *letter = b'a';
    }
}

impl Text {
    /// Returns a pattern with the mark of `number` in place of `#`, and a random hexadecimal digit in place of each `@`.
    pub(crate) fn of(
        alloc: Global,
        pattern: &str,
        number: usize,
        random: &mut Random,
    ) -> Result<Text, AllocError> {
        let mut bytes = Vec::new(alloc);
        let mut mark = 0;
        for &byte in pattern.as_bytes() {
            match byte {
                b'#' => {
                    mark = bytes.len();
                    push_mark(&mut bytes, number)?;
                }
                b'@' => bytes.push(DIGITS[random.below(16)])?,
                _ => bytes.push(byte)?,
            }
        }
        Ok(Text {
            bytes,
            mark,
            capitals: 0,
        })
    }

    /// Returns a string of three pieces: a pattern as in [`Text::of`], `unit` repeated up to `size` bytes, and `end`.
    pub(crate) fn long(
        alloc: Global,
        pattern: &str,
        unit: &str,
        end: &str,
        size: usize,
        number: usize,
        random: &mut Random,
    ) -> Result<Text, AllocError> {
        let mut text = Text::of(alloc, pattern, number, random)?;
        for _ in 0..size / unit.len().max(1) {
            text.bytes.extend_from_slice(unit.as_bytes())?;
        }
        text.bytes.extend_from_slice(end.as_bytes())?;
        Ok(text)
    }

    /// Changes the mark to the next round's.
    #[inline]
    pub(crate) fn go_on(&mut self) {
        let (from, to) = (
            self.mark.saturating_add(OWN),
            self.mark.saturating_add(MARK),
        );
        if from <= to && to <= self.bytes.len() {
            count_up(&mut self.bytes[from..to]);
        }
    }

    /// Makes each of the first four letters and of the mark's letters uppercase if its bit is set, or lowercase if not.
    pub(crate) fn capitalize(&mut self, bits: u32) {
        let mut changed = bits ^ self.capitals;
        self.capitals = bits;
        for bit in 0..4 + MARK {
            if changed == 0 {
                return;
            }
            let at = if bit < 4 {
                bit
            } else {
                self.mark.saturating_add(bit - 4)
            };
            if changed % 2 == 1
                && let Some(letter) = self.bytes.get_mut(at)
            {
                *letter ^= 0x20;
            }
            changed /= 2;
        }
    }

    #[inline]
    pub(crate) fn bytes(&self) -> &[u8] {
        &self.bytes
    }

    /// Returns the bytes as a string, or an empty string if they aren't UTF-8.
    #[inline]
    pub(crate) fn text(&self) -> &str {
        match str::from_utf8(&self.bytes) {
            Ok(text) => text,
            Err(_) => "",
        }
    }
}

/// Returns `count` strings, each of a random pattern.
pub(crate) fn texts_of(
    alloc: Global,
    random: &mut Random,
    patterns: &[&str],
    count: usize,
) -> Result<Vec<Text>, AllocError> {
    let mut texts = Vec::with_capacity(alloc, count)?;
    for number in 0..count {
        if !patterns.is_empty() {
            let pattern = patterns[random.below(patterns.len())];
            texts.push(Text::of(alloc, pattern, number, random)?)?;
        }
    }
    Ok(texts)
}

/// Returns the media types that strings are read as.
pub(crate) fn media_types_of(alloc: Global, strings: &[&str]) -> Result<Vec<Mime>, AllocError> {
    let mut media_types = Vec::new(alloc);
    for text in strings {
        if let Ok(mime) = Mime::from_str(alloc, text) {
            media_types.push(mime)?;
        }
    }
    Ok(media_types)
}
