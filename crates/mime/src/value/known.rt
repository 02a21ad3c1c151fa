//! Texts that are known to be kept texts.

ghost use Rattle.std.specs.Prelude.{◌≤◌, IfOk, IsOk, length};
ghost use Rattle.mime.specs.Values.{Reads};

use crate::value::Mime;
use std::alloc::{AllocError, Global};
use std::marker::Model;

/// A text that is known to be the kept text of a media type: the essence of `like`, followed by parameters (RFC 7231, 3.1.1.1). Code that
/// creates a `KnownText` proves this, so the text isn't scanned. This type is for the crates of this repository, such as `mime_http`: the
/// invariant `IsKnown`, which they prove, is in a private file, and may change within 1.x.
///
/// For example, `text/html; charset=utf-8` with 1 parameter is known if `like` was read from `Text/HTML`.
/// `text/html; charset=UTF-8` isn't, since the value of a charset is kept in lowercase.
#[derive(Drop)]
pub struct KnownText<'a> {
    /// A media type with the essence of the text.
    pub like: &'a Mime,
    /// The text.
    pub text: String,
    /// The number of the text's parameters, 1 or more.
    pub count: usize,
}

impl<'a> Model for KnownText<'a> {
    ghost use Rattle.std.specs.Prelude.{List, ℕ, string_bytes};
    ghost use Rattle.mime.specs.Inner.Known.{IsKnown};

    ghost Value = { List ℕ };

    ghost view = { λ known. string_bytes known.text };

    ghost invariant = { λ known. IsKnown known.like.now.media (string_bytes known.text) known.count };
}

impl<'a> KnownText<'a> {
    /// Returns the media type that [`Mime::from_str`] reads from the text, without scanning the text (RFC 7231, 3.1.1.1). If the text has
    /// at most 40 bytes, or its `String` has no spare capacity, this function doesn't allocate. Otherwise it allocates once.
    ///
    /// # Errors
    /// Returns `AllocError` if memory runs out, which can happen only for a text of more than 40 bytes.
    #[inline(always)]
    pub fn into_mime(self, alloc: Global) -> Result<Mime, AllocError>
        // The result is the value of the text.
        ensures read { IfOk result (λ mime. Reads self.entry mime.media) }
        // Only a long text needs memory.
        ensures short { length self.entry ≤ 40 → IsOk result }
    {
        let KnownText { like, text, count } = self;
        like.with_known_parameters(alloc, text, count)
    }
}
