//! Chooses the media type of a file that is sent as a reply.

ghost use Rattle.std.specs.Prelude.{◌≡◌, ◌≢◌, ◌⊎◌, IfOk, IfErr, map};
ghost use Rattle.mime_http.specs.HttpList.{Header, IsHeader};
ghost use Rattle.mime_http.specs.Ranges.{given_weight};

use crate::files::type_of_file;
use mime::Mime;
use mime_http::Accept;
use std::alloc::Global;

/// Returns the media type of a file according to its name, if the lines of a request's `Accept` header accept it. The media type of a text
/// has a charset.
///
/// # Errors
/// Returns the status of the reply: 406 if the client doesn't accept the media type (RFC 9110, 15.5.7), or 503 if memory ran out (15.6.4).
pub fn type_for(alloc: Global, name: &str, lines: &[&[u8]]) -> Result<Mime, u16>
    ensures accepted { IfOk result (λ mime. (header : Header) × IsHeader (map (λ line. line.now) lines.now) header
        × (given_weight header.ranges mime.media ≢ 0)) }
    ensures known { IfErr result (λ status. (status ≡ 406) ⊎ (status ≡ 503)) }
{
    let Ok(mime) = Mime::from_str(alloc, type_of_file(name)) else {
        return Err(503);
    };
    let Ok(accept) = Accept::from_lines(alloc, lines) else {
        return Err(503);
    };
    if accept.weight(&mime) == 0 {
        return Err(406);
    }
    Ok(mime)
}
