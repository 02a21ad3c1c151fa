//! Tests `mime`, `mime_http` and the recipes: prints their answers to each row of a table from standard input.
#![tactic(auto)]

mod constants;
mod fields;
mod http;
mod items;
mod recipes;
mod relations;
mod rows;
mod short;
mod values;

use crate::fields::strings_of;
use crate::rows::show_row;
use std::io;
use std::io::Read;

/// The capacity for the answers to a row, in bytes. Writing more bytes allocates.
const ROOM: usize = 65_536;

/// Prints each row of standard input, with its answers.
fn main(rt: HostRuntime) -> io::Result<()> {
    let mut table = String::new(rt.alloc());
    rt.stdin().read_to_string(&mut table)?;
    let mut out = String::with_capacity(rt.alloc(), ROOM)?;
    for line in table.lines() {
        if !line.starts_with('#') {
            print_row(&rt, &mut out, line)?;
        }
    }
    Ok(())
}

/// Prints a row, the line `now` before its calls, the line `end` after them, and then the answers, which are written to `out`.
fn print_row(rt: &HostRuntime, out: &mut String, line: &str) -> io::Result<()> {
    let (word, fields) = line.split_once('\t').unwrap_or((line, ""));
    let strings = strings_of(rt.alloc(), fields);
    out.clear();
    rt.println(line)?;
    rt.println("now")?;
    show_row(rt, out, word, strings.as_slice());
    rt.println("end")?;
    rt.print(out.as_str())
}
