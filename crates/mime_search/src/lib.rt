//! Searches strings, a block of bytes at a time, for the first byte of a class, the end of a quoted string's content,
//! or the first difference between two strings, also ignoring ASCII case. Copies short strings without a call, and what
//! quoted content means. Converts bytes to a string.
#![tactic(auto)]

mod class;
mod copy;
mod differing;
mod ignoring_case;
mod quoted;
mod rest;
mod search;
mod start;
mod text;

pub use crate::class::{BLOCK, Class, Range, TEXT_STOPS, TOKEN_STOPS};
pub use crate::copy::{copy_bytes, copy_text};
pub use crate::differing::difference_from;
pub use crate::ignoring_case::{eq_ignore_ascii_case, first_difference_ignoring_case};
pub use crate::quoted::{content_end, copy_meant};
pub use crate::rest::Rest;
pub use crate::search::{first_stop, first_stop_far};
pub use crate::start::{Start, WINDOW, search_start, stops_at_start, stops_in_window};
pub use crate::text::text_of;
