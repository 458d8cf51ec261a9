//! What the parts of the lexer answer.

use crate::error::LexRule;
use crate::token::TokenKind;

/// A lexeme at the front of a text: what it stands for, and its length in bytes.
#[derive(Debug, Drop)]
pub struct Lexeme {
    pub kind: TokenKind,
    pub len: usize,
}

/// Why a text begins with no token, and how many bytes stand before the fault.
#[derive(Clone, Copy, Debug, PartialEq, Eq)]
pub struct Fault {
    pub rule: LexRule,
    pub distance: usize,
}
