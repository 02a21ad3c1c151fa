//! The job of a program that counts, sorts and prints a log of media types.

use crate::Job;
use crate::digest::Digest;
use crate::random::Random;
use crate::texts::Text;
use mime::{Bad, Mime, MimeIter};
use std::alloc::{AllocError, Global};
use std::collections::{BTreeMap, HashMap};
use std::fmt::Write;

/// The maximum number of different values in a log.
const VALUES: usize = 8192;

/// The number of lines of a log.
const LINES: usize = 16_384;

/// Three ways to write each kind of value. All three have the same mark and first four letters. The case of these letters tells
/// occurrences of a value apart.
static WRITINGS: [[&str; 3]; 9] = [
    [
        "text/#; charset=utf-8",
        "text/#;charset=utf-8",
        "text/#; Charset=\"UTF-8\"",
    ],
    [
        "application/#+json",
        "application/#+json;",
        "application/#+JSON",
    ],
    ["image/#", "image/#; ", "image/#;"],
    ["application/#", "application/#;", "application/# "],
    ["text/x-#", "text/x-#;", "text/X-#"],
    [
        "application/vnd.acme.#+xml; version=2",
        "application/vnd.acme.#+xml;version=2",
        "application/vnd.acme.#+xml; version=\"2\"",
    ],
    [
        "multipart/form-data; boundary=----WebKitFormBoundary#",
        "multipart/form-data;boundary=----WebKitFormBoundary#",
        "multipart/form-data; boundary=\"----WebKitFormBoundary#\"",
    ],
    [
        "audio/#; codecs=\"mp4a.40.2, avc1\"",
        "audio/#;codecs=\"mp4a.40.2, avc1\"",
        "audio/#;  Codecs=\"mp4a.40.2, avc1\"",
    ],
    [
        "text/#; format=flowed; charset=us-ascii",
        "text/#;format=flowed;charset=us-ascii",
        "text/#; format=flowed; Charset=US-ASCII",
    ],
];

/// A value's strings, and the number of its occurrences in this log so far.
#[derive(Drop)]
struct Value {
    writings: [Text; 3],
    came: u32,
}

impl Value {
    fn of(alloc: Global, number: usize, random: &mut Random) -> Result<Value, AllocError> {
        let [first, second, third] = WRITINGS[random.below(9)];
        let writings = [
            Text::of(alloc, first, number, random)?,
            Text::of(alloc, second, number, random)?,
            Text::of(alloc, third, number, random)?,
        ];
        Ok(Value { writings, came: 0 })
    }

    /// Begins the next log.
    fn go_on(&mut self) {
        for text in self.writings.iter_mut() {
            text.capitalize(0);
            text.go_on();
        }
        self.came = 0;
    }

    /// Returns the next string of the value. No string is returned twice in one log.
    fn next(&mut self) -> &str {
        let came = self.came;
        self.came = came.wrapping_add(1);
        let text = &mut self.writings[(came % 3) as usize];
        if came >= 3 {
            text.capitalize(came / 3);
        }
        text.text()
    }
}

/// The media types of a log, with their counts.
#[derive(Drop)]
struct Counts {
    hashed: HashMap<Mime, u64>,
    ordered: BTreeMap<Mime, u64>,
}

/// Adds 1 to a count, and returns the result.
fn counted(count: &mut u64) -> u64 {
    *count = count.wrapping_add(1);
    *count
}

/// Counts the media type of the line at position `at`: every eighth line in `ordered`, the others in `hashed`.
fn count(job: &mut Job, counts: &mut Counts, text: &str, at: usize) -> Result<(), AllocError> {
    let mime = match Mime::from_str(job.alloc, text) {
        Ok(mime) => mime,
        Err(error) => {
            job.digest.fault(error.fault());
            return Ok(());
        }
    };
    let count = if at % 8 == 1 {
        counted(counts.ordered.entry(mime)?.or_insert(0))
    } else {
        counted(counts.hashed.entry(mime)?.or_insert(0))
    };
    job.digest.number(count as usize);
    Ok(())
}

/// Adds the items of a list to a digest.
fn add_list(alloc: Global, list: &str, digest: &mut Digest) {
    let mut items = MimeIter::new(alloc, list);
    while let Some(item) = items.next() {
        match item {
            Ok(mime) => digest.text(mime.as_str()),
            Err(Bad::Piece(piece)) => digest.text(piece),
            Err(Bad::NoMemory) => digest.number(9),
        }
    }
    digest.number(usize::try_from(items.steps()).unwrap_or(0));
}

/// Adds the counts, sorted and printed, to a digest.
fn add_counts(alloc: Global, counts: &Counts, digest: &mut Digest) -> Result<(), AllocError> {
    let mut sorted = Vec::with_capacity(alloc, counts.hashed.len())?;
    for (mime, count) in counts.hashed.iter() {
        sorted.push((mime.clone()?, *count))?;
    }
    sorted.sort()?;
    let mut report = String::new(alloc);
    for (mime, count) in &sorted {
        writeln!(report, "{count} {mime}")?;
    }
    for (mime, count) in counts.ordered.iter() {
        writeln!(report, "{count} {mime}")?;
    }
    digest.text(report.as_str());
    Ok(())
}

/// Adds a string to the end of a list.
fn push_entry(list: &mut String, text: &str) -> Result<(), AllocError> {
    if !list.is_empty() {
        list.push_str(", ")?;
    }
    list.push_str(text)
}

/// Returns a random position of a value. Low positions are more frequent.
fn skewed(random: &mut Random) -> usize {
    let one = random.below(VALUES);
    one * one / VALUES
}

/// Counts the media types in the lines of one log. Every fourth line isn't counted, but added to a list, which is read and emptied at every
/// twelfth line.
fn one_log(job: &mut Job, values: &mut [Value]) -> Result<(), AllocError> {
    let mut counts = Counts {
        hashed: HashMap::new(job.alloc),
        ordered: BTreeMap::new(job.alloc),
    };
    let mut list = String::new(job.alloc);
    for at in 0..LINES {
        let Some(value) = values.get_mut(skewed(&mut job.random)) else {
            continue;
        };
        let text = value.next();
        if at % 4 != 0 {
            count(job, &mut counts, text, at)?;
            continue;
        }
        push_entry(&mut list, text)?;
        if at % 12 == 0 {
            add_list(job.alloc, list.as_str(), &mut job.digest);
            list.clear();
        }
    }
    add_counts(job.alloc, &counts, &mut job.digest)
}

pub(crate) fn log(job: &mut Job) -> Result<(), AllocError> {
    let mut values = Vec::with_capacity(job.alloc, VALUES)?;
    for number in 0..VALUES {
        values.push(Value::of(job.alloc, number, &mut job.random)?)?;
    }
    for _ in 0..job.rounds {
        for value in values.iter_mut() {
            value.go_on();
        }
        one_log(job, &mut values)?;
    }
    Ok(())
}
