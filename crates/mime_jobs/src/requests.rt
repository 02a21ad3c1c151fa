//! The job of a server that reads the `Content-Type` of each request.

use crate::Job;
use crate::texts::texts_of;
use mime::{BOUNDARY, CHARSET, Mime, TEXT_HTML_UTF_8, mime_eq_str};
use mime_http::{boundary, content_type};
use std::alloc::AllocError;

/// The number of strings in a round.
const COUNT: usize = 4096;

/// Values that clients send: half without parameters, three with stray spaces or semicolons, two rejected.
static PATTERNS: [&str; 40] = [
    "application/#",
    "application/#+json",
    "application/#+xml",
    "application/vnd.#+json",
    "application/vnd.acme.#.v2+json",
    "application/vnd.openxmlformats-officedocument.#",
    "application/x-#",
    "application/x-www-#-urlencoded",
    "text/#",
    "text/x-#",
    "text/#",
    "image/#",
    "image/#+xml",
    "audio/x-#",
    "font/#",
    "Application/#+JSON",
    "Text/X-#",
    "application/#-stream",
    "application/#",
    "text/#",
    "text/#; charset=utf-8",
    "text/#; charset=utf-8",
    "text/#;charset=UTF-8",
    "text/#; Charset=\"UTF-8\"",
    "text/#; charset=iso-8859-1",
    "application/#; charset=utf-8",
    "application/#+json; charset=UTF-8",
    "application/vnd.#+json; version=2",
    "application/x-www-#-urlencoded; charset=UTF-8",
    "multipart/form-data; boundary=----WebKitFormBoundary#@@@@@@@@@",
    "multipart/form-data; boundary=--------------------------#@@@@@@@@@@@@@@@@@",
    "multipart/form-data; boundary=#@@@@@@@@@@@@@@@@@@@@@@@@@",
    "multipart/mixed; boundary=\"----=_Part_#_@@@@@@@@@@.@@@@@@@@@@@@@\"",
    "multipart/related; type=\"text/xml\"; boundary=\"uuid:#-@@@@-@@@@-@@@@-@@@@@@@@@@@@\"; start=\"<root>\"",
    "text/#; format=flowed; charset=us-ascii",
    "text/# ;charset=utf-8",
    "application/#;; charset=utf-8",
    " application/#",
    "text/#; charset",
    "application #",
];

/// Adds what a server needs from one value to a digest.
fn look_at(job: &mut Job, value: &[u8], html: &Mime) -> Result<(), AllocError> {
    let digest = &mut job.digest;
    let mime = match content_type(job.alloc, value) {
        Ok(mime) => mime,
        Err(error) => {
            digest.field_error(&error);
            return Ok(());
        }
    };
    digest.media_type(&mime);
    digest.found(mime.get_param(CHARSET));
    digest.found(mime.get_param(BOUNDARY));
    digest.found(mime.get_param("version"));
    digest.flag(mime_eq_str(&mime, "application/json"));
    digest.flag(mime == *html);
    if let Some(boundary) = boundary(job.alloc, &mime)? {
        digest.bytes(&boundary);
    }
    Ok(())
}

pub(crate) fn requests(job: &mut Job) -> Result<(), AllocError> {
    let mut texts = texts_of(job.alloc, &mut job.random, &PATTERNS, COUNT)?;
    let html = TEXT_HTML_UTF_8.mime();
    for _ in 0..job.rounds {
        for text in texts.iter_mut() {
            text.go_on();
            look_at(job, text.bytes(), &html)?;
        }
    }
    Ok(())
}
