//! Solutions to common tasks, each in its own module. docs/RECIPES.md lists them. README.md and CALLING.md quote some of them whole.
//! crates/mime_tests tests all but [`server`].
#![tactic(auto)]

pub mod accepted;
pub mod answer;
pub mod bare;
pub mod build;
pub mod callers;
pub mod caret;
pub mod charset;
pub mod compress;
pub mod counts;
pub mod disposition;
pub mod document;
pub mod field_caret;
pub mod file_name;
pub mod files;
pub mod form;
pub mod handler;
pub mod header;
pub mod html;
pub mod json;
pub mod key;
pub mod multipart;
pub mod negotiate;
pub mod order;
pub mod parts;
pub mod plain;
pub mod reader;
pub mod reply;
pub mod route;
pub mod server;
pub mod static_file;
pub mod utf8;
