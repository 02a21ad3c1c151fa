//! The job of a server that writes headers, and reads file names and boundaries back.

use crate::Job;
use crate::texts::{media_types_of, texts_of};
use mime::Mime;
use mime_http::{boundary, unescape, with_boundary, with_charset, with_parameter};
use std::alloc::AllocError;
use std::fmt::Write;

/// The number of strings of each kind in a round.
const COUNT: usize = 1024;

/// The media types to which parameters are added.
static BASES: [&str; 8] = [
    "text/html",
    "text/plain; charset=us-ascii",
    "multipart/form-data",
    "multipart/mixed; boundary=\"a b\"",
    "application/octet-stream",
    "application/pdf; name=\"old.pdf\"",
    "application/vnd.acme+json; version=2",
    "text/plain; format=flowed; charset=utf-8",
];

/// Names of files.
static FILES: [&str; 8] = [
    "report-#.pdf",
    "#.tar.gz",
    "my \"quoted\" file #.txt",
    "C:\\Users\\someone\\Documents\\#.docx",
    "year-end figures, final (#).xlsx",
    "übersicht #.odt",
    "a \\\"b\\\" #",
    "#",
];

static CHARSETS: [&str; 4] = ["x-#", "ISO-8859-#", "utf-#", "windows-#"];

static BOUNDARIES: [&str; 4] = [
    "----WebKitFormBoundary#@@@@@@@@@",
    "----=_Part_#_@@@@@@@@@@.@@@@@@@@@@@@@",
    "#@@@@@@@@@@@@@@@@@@@@@@@@@",
    "=_#: with (marks), as ' / ?",
];

/// Buffers that are reused for each string.
#[derive(Drop)]
struct Buffers {
    printed: String,
    meant: Vec<u8>,
}

/// What a string is written as.
#[derive(Clone, Copy)]
enum Kind {
    FileName,
    Charset,
    Boundary,
}

/// Writes a string as a parameter, prints the media type as a header, or adds 1 to the digest if there is none, and reads the string back.
fn write_and_read(
    job: &mut Job,
    kind: Kind,
    base: &Mime,
    text: &str,
    buffers: &mut Buffers,
) -> Result<(), AllocError> {
    let made = match kind {
        Kind::FileName => with_parameter(job.alloc, base, "name", text)?,
        Kind::Charset => with_charset(job.alloc, base, text)?,
        Kind::Boundary => with_boundary(job.alloc, base, text)?,
    };
    let Some(mime) = &made else {
        job.digest.number(1);
        return Ok(());
    };
    buffers.printed.clear();
    write!(buffers.printed, "Content-Type: {mime}\r\n")?;
    job.digest.text(buffers.printed.as_str());
    match kind {
        Kind::FileName => {
            if let Some(value) = mime.get_param("name") {
                buffers.meant.clear();
                unescape(value.text, &mut buffers.meant)?;
                job.digest.bytes(&buffers.meant);
            }
        }
        Kind::Charset => (),
        Kind::Boundary => {
            if let Some(bytes) = boundary(job.alloc, mime)? {
                job.digest.bytes(&bytes);
            }
        }
    }
    Ok(())
}

pub(crate) fn writing(job: &mut Job) -> Result<(), AllocError> {
    let bases = media_types_of(job.alloc, &BASES)?;
    let (alloc, random) = (job.alloc, &mut job.random);
    let mut all = [
        (Kind::FileName, texts_of(alloc, random, &FILES, COUNT)?),
        (Kind::Charset, texts_of(alloc, random, &CHARSETS, COUNT)?),
        (Kind::Boundary, texts_of(alloc, random, &BOUNDARIES, COUNT)?),
    ];
    let mut buffers = Buffers {
        printed: String::new(job.alloc),
        meant: Vec::new(job.alloc),
    };
    for _ in 0..job.rounds {
        for (kind, texts) in all.iter_mut() {
            for (at, text) in texts.iter_mut().enumerate() {
                text.go_on();
                if let Some(base) = bases.get(at % 8) {
                    write_and_read(job, *kind, base, text.text(), &mut buffers)?;
                }
            }
        }
    }
    Ok(())
}
