//! An iterator over the media types of a string.

ghost use Rattle.std.specs.Prelude.{◌≡◌, ◌+◌, ◌-◌, ◌<◌, ◌≤◌, ◌^◌, ℕ, false, [], ◌∷◌, length, IfSome, None, ⊤};
ghost use Rattle.std.specs.Str.{IsCharBoundary};
ghost use Rattle.std.specs.Iterator.{UpTo, at_most};
ghost use Rattle.std.specs.Iterator.SizeHint.{IsWithinCount};
ghost use Rattle.mime.specs.Runs.{IsNext};
ghost use Rattle.mime.specs.Inner.BetweenCalls.{ReadsPiece, IsFound};

use crate::bytes::is_token;
use crate::scan::{ByteReader, NEAR, Positions, Scanned, scan_after, separators};
use crate::value::Mime;
use std::alloc::{AllocError, Global};
use std::fmt;
use std::marker::Model;

/// The reason why an item of a [`MimeIter`] isn't a media type.
#[derive(Clone, Copy, PartialEq, Eq, Debug)]
pub enum Bad<'a> {
    /// This piece of the string isn't a media type: `invalid` in `invalid, a/b`.
    Piece(&'a str),
    /// The piece is a media type, but memory ran out. The iterator yields nothing more.
    NoMemory,
}

/// The result of reading the first piece of a string.
#[derive(Clone, Copy)]
struct ReadPiece<'a> {
    /// The piece, or the empty string if nothing is yielded.
    piece: &'a str,
    /// The positions of the piece's parts, if the piece is a media type.
    positions: Option<Positions>,
    /// The rest of the string, after the piece and the character that follows it.
    left: &'a str,
    /// The number of bytes read so far, from the start of the iterator's string.
    steps: u128,
}

/// Returns the position after a string's first character, in bytes from 0. This function isn't inlined: it is called
/// only for a character outside ASCII, and its loop would use registers of its caller.
#[cold]
#[inline(never)]
fn end_of_first(text: &str) -> usize
    ensures bound { 1 ≤ length text.now → 1 ≤ result }
    ensures boundary { IsCharBoundary text.now result }
    ensures nearest { (i : ℕ) → 1 ≤ i → i < result → ¬ (IsCharBoundary text.now i) }
{
    text.ceil_char_boundary(1)
}

/// Returns the empty prefix of a string. Its address is already known, unlike the address of `""`.
#[inline(always)]
fn nothing_of(text: &str) -> &str
    ensures { result.now ≡ [] }
{
    &text[..0]
}

impl<'a> ReadPiece<'a> {
    /// Returns a result with no piece and nothing left of the string, after `steps` bytes.
    #[inline(always)]
    fn none(text: &'a str, steps: u128) -> ReadPiece<'a>
        ensures piece { result.piece.now ≡ [] }
        ensures positions { result.positions ≡ None }
        ensures left { result.left.now ≡ [] }
        ensures steps { result.steps ≡ steps }
    {
        ReadPiece {
            piece: nothing_of(text),
            positions: None,
            left: nothing_of(text),
            steps,
        }
    }
}

/// Reads the first piece of a string, and skips the character after it. `reader` has already read the string's first byte, `first`.
#[inline(always)]
fn read_piece<'a>(text: &'a str, first: u8, reader: &mut ByteReader<'_>) -> ReadPiece<'a>
    requires first { text.now ≡ first ∷ reader.old.left }
    requires begun { 0 < reader.old.count }
    ensures reads { ReadsPiece text.now result.piece.now result.positions result.left.now (result.steps - (reader.old.count - 1)) }
    ensures counted { reader.old.count - 1 ≤ result.steps }
{
    let from = reader.count() - 1;
    if !is_token(first) {
        // No media type begins with this character.
        return ReadPiece {
            left: &text[end_of_first(text)..],
            ..ReadPiece::none(text, reader.count())
        };
    }
    let verdict = scan_after(first, reader);
    let steps = reader.count();
    let positions = match verdict {
        Scanned::Accepted(positions) => {
            return ReadPiece {
                piece: text,
                positions: Some(positions),
                left: nothing_of(text),
                steps,
            };
        }
        Scanned::Unfinished(_) => return ReadPiece::none(text, steps),
        Scanned::Stopped(_) => None,
        Scanned::Followed(positions, _) => Some(positions),
    };
    let end = reader.position(from);
    ReadPiece {
        piece: &text[..end],
        positions,
        left: &text[text.ceil_char_boundary(end + 1)..],
        steps,
    }
}

/// Skips the leading ASCII characters that can't begin a media type, reads the piece after them, and skips the
/// character after the piece. `from` is the number of bytes read before this call.
#[inline(always)]
fn read_next_piece<'a>(text: &'a str, from: u128) -> ReadPiece<'a>
    requires { from + length text.now < 2 ^ 128 }
    ensures reads { ReadsPiece text.now result.piece.now result.positions result.left.now (result.steps - from) }
    ensures counted { from ≤ result.steps }
{
    let mut reader = ByteReader::new(text, from, NEAR);
    match separators(&mut reader) {
        None => ReadPiece::none(text, reader.count()),
        Some(first) => {
            let start = reader.position(from);
            read_piece(&text[start..], first, &mut reader)
        }
    }
}

/// An iterator over the media types in a string, and over the pieces that aren't media types. For an `Accept` header,
/// use `mime_http::Accept`.
///
/// The string is cut into pieces. Each piece is the longest prefix of the remaining string that can begin a media type.
/// The character after a piece, such as the comma of a list, is skipped. A piece is a media type or a bad piece. Empty
/// pieces aren't yielded, and neither is a last piece that is only the beginning of a media type. A bad entry doesn't
/// affect the entries after it, unless it ends in an open quoted string. No byte is scanned twice.
///
/// Yielding a media type allocates once, for its kept text, if this text has more than 40 bytes.
/// So does cloning this media type. Yielding any other item doesn't allocate.
///
/// Over `text/html, invalid, a/b; q=1` the iterator yields `text/html`, the bad piece `invalid`, and `a/b; q=1`. Over
/// `a/b ; q=1` it yields `a/b` and the bad piece `q`, since no space may precede the semicolon. Over `invalid` it
/// yields nothing, since `invalid` could still become a media type.
#[derive(Drop)]
pub struct MimeIter<'a> {
    alloc: Global,
    text: &'a str,
    left: &'a str,
    out_of_memory: bool,
    steps: u128,
}

impl<'a> Model for MimeIter<'a> {
    ghost use Rattle.mime.specs.Runs.{Iteration};
    ghost use Rattle.mime.specs.Inner.BetweenCalls.{IsUnderWay};

    ghost Value = { Iteration };

    ghost view = { λ i. record { text = i.text.now; left = i.left.now; out_of_memory = i.out_of_memory; steps = i.steps } };

    ghost invariant = { λ i. IsUnderWay i.text.now i.left.now i.out_of_memory i.steps };
}

impl<'a> MimeIter<'a> {
    /// Creates an iterator over the media types of `s`, such as `text/html, image/png`. This call reads nothing, and doesn't allocate.
    pub fn new(alloc: Global, s: &'a str) -> MimeIter<'a>
        ensures text { result.text ≡ s.now }
        ensures left { result.left ≡ s.now }
        ensures out_of_memory { result.out_of_memory ≡ false }
        ensures steps { result.steps ≡ 0 }
    {
        MimeIter {
            alloc,
            text: s,
            left: s,
            out_of_memory: false,
            steps: 0,
        }
    }

    /// Returns the number of bytes read so far, from the start of the string: 43 after all of
    /// `application/json, invalid, application/json`, with pieces of 16, 7 and 16 bytes and 4 skipped characters. The
    /// number is never more than the string's length in bytes.
    pub fn steps(&self) -> u128
        ensures steps { result ≡ self.now.steps }
        ensures few { result ≤ length self.now.text }
    {
        self.steps
    }

    /// Returns the next piece to yield, if any, with the positions of its parts if the piece is a media type.
    #[inline(always)]
    fn next_piece(&mut self) -> Option<(&'a str, Option<Positions>)>
        ensures { IsFound self.old result self.new }
    {
        while !self.left.is_empty() {
            let read = read_next_piece(self.left, self.steps);
            self.left = read.left;
            self.steps = read.steps;
            if !read.piece.is_empty() {
                return Some((read.piece, read.positions));
            }
        }
        None
    }
}

/// Returns an iterator that continues at the same position, with the same count of steps: after the first item of
/// `a/b, c/d`, both iterators yield `c/d`. Cloning always succeeds, and doesn't allocate.
impl<'a> Clone for MimeIter<'a> {
    ghost is_clone = { λ iter copy. copy ≡ iter };

    ghost is_infallible = { λ _. ⊤ };

    fn clone(&self) -> Result<MimeIter<'a>, AllocError> {
        Ok(MimeIter {
            alloc: self.alloc,
            text: self.text,
            left: self.left,
            out_of_memory: self.out_of_memory,
            steps: self.steps,
        })
    }
}

impl<'a> Iterator for MimeIter<'a> {
    type Item = Result<Mime, Bad<'a>>;

    ghost next_gives = { IsNext };

    ghost remaining = { λ i. at_most (length i.left) };

    fn next(&mut self) -> Option<Result<Mime, Bad<'a>>> {
        let (piece, positions) = self.next_piece()?;
        let Some(positions) = positions else {
            return Some(Err(Bad::Piece(piece)));
        };
        match Mime::of_accepted(self.alloc, piece, positions) {
            Ok(mime) => Some(Ok(mime)),
            Err(_) => {
                self.left = "";
                self.out_of_memory = true;
                Some(Err(Bad::NoMemory))
            }
        }
    }

    fn size_hint(&self) -> (usize, Option<usize>)
        ensures lower { IsWithinCount result.0 (at_most (length self.now.left)) }
        ensures upper { IfSome result.1 (UpTo (at_most (length self.now.left))) }
        // The number of items left isn't known before they are read.
        ensures open { result ≡ (0, None) }
    {
        (0, None)
    }
}

/// Prints an unspecified text, which may change between versions.
impl fmt::Debug for MimeIter<'_> {
    fn fmt<W: fmt::Write>(&self, f: &mut fmt::Formatter<W>) -> fmt::Result {
        f.write_str("MimeIter")
    }
}
