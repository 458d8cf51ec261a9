//! The tree of a source text, its tokens, and its text.
//!
//! A tree has one variant for each alternative of the grammar, and keeps parentheses. Links of operators lie flat, so a long
//! chain is no deep tree: for each expression that is open there are at most five chains, one in another. Places are kept of
//! names and of the tokens that orca_grammar, specs/Rules.antt, lists at its head; `place` tells that of a bound, type,
//! expression or statement.
//!
//! The floor above uses `unit` of specs/Marks.antt, the derivation of a tree by the grammar (specs/Rules.antt of orca_grammar):
//! its tokens in order, in brackets where a phrase nests and where a chain has links. `words` gives a tree's tokens: they are
//! those of its marks. `print_tree` gives its text: the spelling of each token, with one space between two, and a line feed. For
//! a meaning, or a checker, over lists in place of rows there are the equations of proofs/Rows.antt.
//!
//! It rests on the tokens and their spelling (orca_lexer), and on marks (specs/Forms.antt of orca_grammar). It doesn't say which
//! trees are those of a text: `words` and `print_tree` take any.
#![tactic(auto)]

mod place;
mod printing;
mod spelling;
mod tree;

pub use printing::print_tree;
pub use spelling::words;
pub use tree::{
    Arm, Block, Bound, Declaration, Definition, Designator, Expression, Guard, Head, Link, Mode,
    Name, Operation, OperationBody, Operator, Parameter, Range, Selector, Statement, TypePhrase,
    TypedName, Unit, Variables,
};
