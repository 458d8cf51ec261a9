//! Why no phrase is read.

use orca_base::Refusal;
use orca_lexer::Token;

/// Why no phrase is read.
#[derive(Debug, Drop)]
pub enum ReadError<'a> {
    /// Nothing goes on with the first of these tokens, or behind the last of all where there is none.
    Unexpected { rest: &'a [Token] },
    /// The first of these tokens would stand in more nested phrases than are allowed.
    TooNested { rest: &'a [Token] },
}

/// A phrase with the tokens behind it, or why there is none.
pub type Parsed<'a, T> = Result<(T, &'a [Token]), Refusal<ReadError<'a>>>;
