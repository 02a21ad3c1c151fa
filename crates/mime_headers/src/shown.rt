//! The report without control characters, as a terminal can print it.

ghost use Rattle.std.specs.Prelude.{◌≡◌, IfOk, false};
ghost use Rattle.std.specs.Vec.{vec_items};
ghost use Rattle.mime_headers.specs.Shown.{control_len, without_controls};

use std::alloc::{AllocError, Global};

/// Returns the number of bytes of the control character at the start of these bytes, or 0 if there is none. A line feed isn't one here. The
/// characters that turn the direction of text are: U+061C, U+200E, U+200F, U+202A to U+202E, and U+2066 to U+2069.
fn control_len(bytes: &[u8]) -> usize
    ensures { result ≡ control_len bytes.now }
{
    match bytes {
        [0..=9 | 11..=31 | 127, ..] => 1,
        [0xC2, 0x80..=0x9F, ..] | [0xD8, 0x9C, ..] => 2,
        [0xE2, 0x80, 0x8E | 0x8F | 0xAA..=0xAE, ..] | [0xE2, 0x81, 0xA6..=0xA9, ..] => 3,
        _ => 0,
    }
}

/// Returns `true` if one of the bytes may begin a control character, as in few reports. The loop has no early exit, so that several bytes
/// are tested at a time.
fn may_have_controls(bytes: &[u8]) -> bool
    ensures { result ≡ false → without_controls bytes.now ≡ bytes.now }
{
    let mut found = false;
    for byte in bytes {
        found |= (*byte < 32 && *byte != b'\n')
            || *byte == 127
            || *byte == 0xC2
            || *byte == 0xD8
            || *byte == 0xE2;
    }
    found
}

/// Returns bytes with a dot in place of each control character.
pub(crate) fn without_controls(alloc: Global, bytes: Vec<u8>) -> Result<Vec<u8>, AllocError>
    ensures { IfOk result (λ text. vec_items text ≡ without_controls (vec_items bytes)) }
{
    if !may_have_controls(&bytes) {
        return Ok(bytes);
    }
    let mut text = Vec::new(alloc);
    let mut passed = 0;
    for (at, &byte) in bytes.iter().enumerate() {
        if passed > 0 {
            passed -= 1;
            continue;
        }
        let len = control_len(&bytes[at..]);
        text.push(if len == 0 { byte } else { b'.' })?;
        passed = len.saturating_sub(1);
    }
    Ok(text)
}
