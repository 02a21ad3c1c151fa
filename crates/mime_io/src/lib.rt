//! Code that the programs share: sources and sinks, an input read up to a limit and cut into lines, a report written whole, and errors.
#![tactic(auto)]

mod calls;
mod device;
mod error;
mod input;
pub mod laws;
mod output;
#[cfg(test)]
mod tests;

pub use crate::calls::Calls;
pub use crate::device::{Device, Failed, Sink, Source};
pub use crate::error::{ReadError, RunError};
pub use crate::input::{LIMIT, first_line, read_past_limit};
pub use crate::output::write_report;
