//! The tokens of a source text (docs/LANGUAGE.md, Tokens), and how they are written.
//!
//! The floor above uses `tokens`: a text's tokens with their slices and places, and no other list is that; or the first
//! reason for which it has none, and no other is. `write_token` puts a token's text; sound tokens that are written so, with a
//! space between two, are read back (`spelling_law`). It stands on orca_base, and on std's check of UTF-8. It knows nothing
//! of the grammar, and keeps no comments.
#![tactic(auto)]

mod cursor;
mod encoding;
mod error;
mod gap;
mod lexemes;
mod lexer;
mod literals;
mod numerals;
mod parts;
mod spelling;
mod symbols;
mod table;
mod token;
mod words;

pub use error::{LexError, LexRule};
pub use lexer::tokens;
pub use spelling::{spelling_law, write_token};
pub use token::{Keyword, Symbol, Token, TokenKind};
