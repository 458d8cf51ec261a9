//! The operators of each level.

ghost use Rattle.std.specs.Prelude.{◌≡◌};
ghost use Rattle.orca_grammar.specs.Forms.{Conjunction, Disjunction, Relation, Sum, Term};
ghost use Rattle.orca_lexer.specs.declared.token.TokenKind.TheVariants.{Sign};
ghost use Rattle.parse_exprs.specs.Chains.{IsOperator, Operates, links_at, one_alone};

use crate::token_readers::first_token;
use orca_lexer::{Keyword, Symbol, Token, TokenKind};
use orca_tree::Operator;

/// The levels of operators, from those that bind tightest.
#[derive(Clone, Copy)]
pub enum Level {
    /// Of factors.
    Term,
    /// Of terms.
    Sum,
    /// Of sums, of which two are compared.
    Relation,
    /// Of relations.
    Conjunction,
    /// Of conjunctions.
    Disjunction,
}

/// Whether no two operators of this level stand in a chain.
pub fn is_single(level: Level) -> bool
    ensures { result ≡ one_alone (links_at level) }
{
    matches!(level, Level::Relation)
}

// The operator between factors that a token is.
#[tactic(auto, unfolding(orca_grammar::specs::Rules::operator))]
fn term_operator(kind: &TokenKind) -> Option<Operator>
    ensures { IsOperator Term kind.now result }
{
    let TokenKind::Sign { symbol } = kind else {
        return None;
    };
    match symbol {
        Symbol::Times => Some(Operator::Multiply),
        Symbol::Over => Some(Operator::Divide),
        Symbol::Percent => Some(Operator::Remainder),
        _ => None,
    }
}

// The operator between terms that a token is.
#[tactic(auto, unfolding(orca_grammar::specs::Rules::operator))]
fn sum_operator(kind: &TokenKind) -> Option<Operator>
    ensures { IsOperator Sum kind.now result }
{
    let TokenKind::Sign { symbol } = kind else {
        return None;
    };
    match symbol {
        Symbol::Plus => Some(Operator::Add),
        Symbol::Minus => Some(Operator::Subtract),
        Symbol::Joins => Some(Operator::Join),
        _ => None,
    }
}

// The relation that a symbol is.
#[tactic(auto, unfolding(orca_grammar::specs::Rules::operator))]
fn relation_sign(symbol: Symbol) -> Option<Operator>
    ensures { IsOperator Relation (Sign symbol) result }
{
    match symbol {
        Symbol::Equals => Some(Operator::Equal),
        Symbol::Differs => Some(Operator::Different),
        Symbol::Less => Some(Operator::Less),
        Symbol::AtMost => Some(Operator::AtMost),
        Symbol::Greater => Some(Operator::Greater),
        Symbol::AtLeast => Some(Operator::AtLeast),
        _ => None,
    }
}

// The relation that a token is: a symbol, or `in`.
#[tactic(auto, unfolding(orca_grammar::specs::Rules::operator))]
fn relation(kind: &TokenKind) -> Option<Operator>
    ensures { IsOperator Relation kind.now result }
{
    match kind {
        TokenKind::Sign { symbol } => relation_sign(*symbol),
        TokenKind::Key {
            word: Keyword::KeyIn,
        } => Some(Operator::In),
        _ => None,
    }
}

// `and`, if the token is it.
#[tactic(auto, unfolding(orca_grammar::specs::Rules::operator))]
fn conjunction(kind: &TokenKind) -> Option<Operator>
    ensures { IsOperator Conjunction kind.now result }
{
    match kind {
        TokenKind::Key {
            word: Keyword::KeyAnd,
        } => Some(Operator::And),
        _ => None,
    }
}

// `or`, if the token is it.
#[tactic(auto, unfolding(orca_grammar::specs::Rules::operator))]
fn disjunction(kind: &TokenKind) -> Option<Operator>
    ensures { IsOperator Disjunction kind.now result }
{
    match kind {
        TokenKind::Key {
            word: Keyword::KeyOr,
        } => Some(Operator::Or),
        _ => None,
    }
}

// The operator of this level that a token is.
fn operator_of(level: Level, kind: &TokenKind) -> Option<Operator>
    ensures { IsOperator (links_at level) kind.now result }
{
    match level {
        Level::Term => term_operator(kind),
        Level::Sum => sum_operator(kind),
        Level::Relation => relation(kind),
        Level::Conjunction => conjunction(kind),
        Level::Disjunction => disjunction(kind),
    }
}

/// An operator of this level, and the tokens behind it.
pub fn operator(level: Level, tokens: &[Token]) -> Option<(Operator, &[Token])>
    ensures { Operates (links_at level) tokens.now result }
{
    let (first, rest) = first_token(tokens)?;
    let operator = operator_of(level, &first.kind)?;
    Some((operator, rest))
}
