//! Cuts a header's line at its commas outside quoted strings, and trims white space from the pieces.

ghost use Rattle.std.specs.Prelude.{◌≡◌, ◌<◌, ◌≤◌, ◌+◌, length, drop, take};
ghost use Rattle.std.specs.List.{prefix_len};
ghost use Rattle.mime.specs.{Bytes.comma_byte, Bytes.quote_byte, Grammar.is_space};
ghost use Rattle.mime_http.specs.HttpList.{trim_start, trim_end, trimmed};
ghost use Rattle.mime_http.specs.LineCut.{Outside, Quoted, IsNextOutside, before_mark, piece_len};

use mime_search::{BLOCK, Class, content_end, first_stop};

/// Returns the position of the first comma or equals sign at or after `from`, or the line's length if there is neither.
#[inline(always)]
fn next_outside(line: &[u8], from: usize) -> usize
    requires { from < length line.now }
    ensures { IsNextOutside line.now from result }
{
    // This test is faster than the search if a quoted string or another equals sign follows.
    if line[from] == b'=' {
        return from;
    }
    first_stop(line, from, &Class::of(b',', b'='))
}

/// Returns the position after the closing quote of the quoted string that `from` is in, or the line's length if the string isn't closed.
#[inline(always)]
#[tactic(auto, using(crate::proofs::Cuts::string_closed))]
fn string_end(line: &[u8], from: usize) -> usize
    requires { from ≤ length line.now }
    ensures least { from ≤ result }
    ensures within { result ≤ length line.now }
    ensures left { result + piece_len Outside (drop result line.now) ≡ from + piece_len Quoted (drop from line.now) }
{
    let end = content_end(line, from);
    if end < line.len() { end + 1 } else { end }
}

/// Returns the length of a line's first piece. `quote` is the position of the line's first quote, before which there is no comma. This
/// function isn't inlined, since few pieces have a quote.
#[inline(never)]
#[tactic(auto, using(crate::proofs::Cuts::ends_outside, crate::proofs::Cuts::string_opens, crate::proofs::Cuts::outside_byte))]
fn quoted_piece_len(line: &[u8], quote: usize) -> usize
    requires within { quote ≤ length line.now }
    requires unmarked { quote ≡ before_mark comma_byte quote_byte line.now }
    ensures within { result ≤ length line.now }
    ensures piece { result ≡ piece_len Outside line.now }
{
    // The byte before the quote is tested again, since it may be an equals sign.
    let mut at = quote.saturating_sub(1);
    while at < line.len() {
        at = next_outside(line, at);
        if at == line.len() || line[at] == b',' {
            return at;
        }
        at += 1;
        // A quote opens a quoted string only right after an equals sign.
        if at < line.len() && line[at] == b'"' {
            at = string_end(line, at + 1);
        }
    }
    at
}

/// Returns the end of a line's piece that begins at `from`: the position of the first comma outside quoted strings, or the line's length.
#[inline(always)]
pub(crate) fn piece_end(line: &[u8], from: usize) -> usize
    requires { from ≤ length line.now }
    ensures least { from ≤ result }
    ensures within { result ≤ length line.now }
    ensures piece { result ≡ from + piece_len Outside (drop from line.now) }
{
    let mark = first_stop(line, from, &Class::of(b',', b'"'));
    if mark < line.len() && line[mark] == b'"' {
        return from + quoted_piece_len(&line[from..], mark - from);
    }
    mark
}

/// Returns `true` if a byte is white space (RFC 9110, 5.6.3).
pub(crate) fn is_space(byte: u8) -> bool
    ensures { result ≡ is_space byte }
{
    byte == b' ' || byte == b'\t'
}

/// Returns the same position as `spaces_end`. This function isn't inlined, since most positions have no white space, or one space.
#[inline(never)]
fn spaces_end_far(value: &[u8], from: usize) -> usize
    requires { from ≤ length value.now }
    ensures end { result ≡ from + prefix_len is_space (drop from value.now) }
    ensures within { result ≤ length value.now }
{
    let mut at = from;
    while at < value.len() && is_space(value[at]) {
        at += 1;
    }
    at
}

/// Returns the position of the first byte at or after `from` that isn't white space, or the value's length if there is none.
#[inline(always)]
pub(crate) fn spaces_end(value: &[u8], from: usize) -> usize
    requires { from ≤ length value.now }
    ensures end { result ≡ from + prefix_len is_space (drop from value.now) }
    ensures within { result ≤ length value.now }
{
    if from == value.len() || value[from] > b' ' {
        return from;
    }
    let next = from + 1;
    if value[from] == b' ' && (next == value.len() || value[next] > b' ') {
        return next;
    }
    spaces_end_far(value, from)
}

/// Returns a piece without the white space at its start.
#[inline(always)]
#[tactic(auto, using(crate::proofs::Around::first_kept))]
pub(crate) fn trim_start(piece: &[u8]) -> &[u8]
    ensures { result.now ≡ trim_start piece.now }
{
    &piece[spaces_end(piece, 0)..]
}

/// Returns where the blocks of white space before a position begin, or the position if there are none.
#[inline(never)]
fn before_blocks(piece: &[u8], end: usize) -> usize
    requires { end ≤ length piece.now }
    ensures least { result ≤ end }
    ensures trimmed { trim_end (take result piece.now) ≡ trim_end (take end piece.now) }
{
    let others = Class::of(b' ', b'\t').others();
    let mut start = end;
    while start >= BLOCK && first_stop(&piece[..start], start - BLOCK, &others) == start {
        start -= BLOCK;
    }
    start
}

/// Returns a piece without the white space at its end. This function isn't inlined, since most pieces don't end in white space.
#[inline(never)]
#[tactic(auto, using(crate::proofs::Around::last_trimmed))]
fn trim_spaces_after(piece: &[u8]) -> &[u8]
    ensures { result.now ≡ trim_end piece.now }
{
    let mut end = piece.len();
    while end > 0 && is_space(piece[end - 1]) {
        end -= 1;
        if (piece.len() - end) % BLOCK == 0 {
            end = before_blocks(piece, end);
        }
    }
    &piece[..end]
}

/// Returns a piece without the white space at its end.
#[inline(always)]
#[tactic(auto, using(crate::proofs::Around::nothing_after))]
pub(crate) fn trim_end(piece: &[u8]) -> &[u8]
    ensures { result.now ≡ trim_end piece.now }
{
    if piece.is_empty() || piece[piece.len() - 1] > b' ' {
        return piece;
    }
    trim_spaces_after(piece)
}

/// Returns bytes without the white space around them: `a b` for ` a b `. White space is spaces and tabs (RFC 9110, 5.5 and 5.6.3).
#[inline(always)]
pub fn trimmed(bytes: &[u8]) -> &[u8]
    ensures { result.now ≡ trimmed bytes.now }
{
    // Most values have no white space around them.
    if !bytes.is_empty() && bytes[0] > b' ' && bytes[bytes.len() - 1] > b' ' {
        return bytes;
    }
    trim_end(trim_start(bytes))
}
