//! The tokens of a text.
#![tactic(auto)]

mod blocks;
mod bytes;
mod decoding;
pub mod laws;
pub mod lexer;
mod lines;
mod numbers;
mod quoted;
mod strings;
pub mod token;
pub mod values;

pub use gq_text::Span;
pub use lexer::lex;
pub use token::{BadKind, Kind, LexFault, TOKENS_MAX, Token};
pub use values::{block_string_value, string_value};
