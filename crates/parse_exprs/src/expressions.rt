//! Expressions, by recursive descent.

ghost use Rattle.std.specs.Prelude.{◌≡◌, ◌∷◌};
ghost use Rattle.orca_grammar.specs.Forms.{◌⨾◌, Expression as ExpressionPhrase, Factor as FactorPhrase, Phrase};
ghost use Rattle.orca_grammar.specs.Grammar.{read, nest_at};
ghost use Rattle.orca_grammar.specs.Reading.{comes, first, in_brackets};
ghost use Rattle.orca_grammar.specs.Rules.{name as name_form, arguments as arguments_form, argument_list as argument_list_form, invocation_rest as invocation_form, selector as selector_form, selectors as selectors_form, designator as designator_form, in_parentheses as in_parentheses_form, designator_in_parentheses as designator_in_parentheses_form, named_rest as named_rest_form, factor_rule, chain as chain_form, chained, operand as operand_form};
ghost use Rattle.orca_grammar.specs.Sets.{sets};
ghost use Rattle.orca_tree.specs.Marks.{enclosed, name_mark, operand, expression as expression_marks, arguments as arguments_marks, selector as selector_marks, selectors as selectors_marks, designator as designator_marks};
ghost use Rattle.parse_exprs.specs.Chains.{links_at, links_marks};
ghost use Rattle.parse_exprs.specs.Gives.{Parses};

use crate::factors::{
    call, chain, from, get, invoke, negation, negative, ordinal, parentheses, size, text,
};
use crate::operators::{Level, is_single, operator};
use crate::read_error::{Parsed, ReadError};
use crate::token_readers::{
    after_sign, begins_expression, comes_sign, first_token, name, sign, sign_at, too_nested,
};
use orca_base::refuse;
use orca_lexer::{Keyword, Symbol, Token, TokenKind};
use orca_tree::{Designator, Expression, Link, Name, Selector};
use std::alloc::Global;

/// An expression and the tokens behind it, where so many levels of nesting are left.
#[cycle(expressions)]
pub fn expression(alloc: Global, depth: u32, tokens: &[Token]) -> Parsed<'_, Expression>
    ensures { Parses expression_marks result (nest_at depth ExpressionPhrase tokens.now) }
{
    if depth == 0 {
        return Err(too_nested(tokens, begins_expression(tokens)));
    }
    chain_of(alloc, depth - 1, Level::Disjunction, tokens)
}

// An operand of this level and the links behind it.
#[cycle(expressions)]
fn chain_of(alloc: Global, depth: u32, level: Level, tokens: &[Token]) -> Parsed<'_, Expression>
    ensures { Parses operand result (read depth (chain_form (links_at level) (operand_form (links_at level))) tokens.now) }
{
    let (first, rest) = operand_of(alloc, depth, level, tokens)?;
    let (links, rest) = links(alloc, depth, level, rest)?;
    let chain = chain(alloc, first, links)?;
    Ok((chain, rest))
}

// What stands between the operators of this level: a chain of the level below, or a factor.
#[cycle(expressions)]
#[tactic(auto, unfolding(orca_grammar::specs::Rules::operand, orca_grammar::specs::Rules::term, orca_grammar::specs::Rules::sum, orca_grammar::specs::Rules::relation, orca_grammar::specs::Rules::conjunction))]
fn operand_of(alloc: Global, depth: u32, level: Level, tokens: &[Token]) -> Parsed<'_, Expression>
    ensures { Parses operand result (read depth (operand_form (links_at level)) tokens.now) }
{
    match level {
        Level::Term => factor(alloc, depth, tokens),
        Level::Sum => chain_of(alloc, depth, Level::Term, tokens),
        Level::Relation => chain_of(alloc, depth, Level::Sum, tokens),
        Level::Conjunction => chain_of(alloc, depth, Level::Relation, tokens),
        Level::Disjunction => chain_of(alloc, depth, Level::Conjunction, tokens),
    }
}

// Operators of this level, each with its right operand. Of relations there is one at most.
#[cycle(expressions)]
fn links(alloc: Global, depth: u32, level: Level, tokens: &[Token]) -> Parsed<'_, Vec<Link>>
    ensures { Parses (λ ls. links_marks ls.items) result
        (read depth (chained (links_at level) (operand_form (links_at level))) tokens.now) }
{
    let mut links = Vec::new(alloc);
    let mut rest = tokens;
    'links: while let Some((operator, after)) = operator(level, rest) {
        let (right, next) = operand_of(alloc, depth, level, after)?;
        links.push(Link { operator, right })?;
        if is_single(level) {
            return Ok((links, next));
        }
        rest = next;
    }
    Ok((links, rest))
}

// A factor and the tokens behind it.
#[cycle(expressions)]
fn factor(alloc: Global, depth: u32, tokens: &[Token]) -> Parsed<'_, Expression>
    ensures { Parses operand result (nest_at depth FactorPhrase tokens.now) }
{
    if depth == 0 {
        return Err(too_nested(tokens, begins_expression(tokens)));
    }
    alternative(alloc, depth - 1, tokens)
}

// The alternative of a factor that the first token decides.
#[cycle(expressions)]
#[tactic(auto, unfolding(orca_grammar::specs::Rules::factor_rule))]
fn alternative(alloc: Global, depth: u32, tokens: &[Token]) -> Parsed<'_, Expression>
    ensures { Parses operand result (in_brackets (Phrase FactorPhrase) (read depth factor_rule tokens.now)) }
{
    let Some((first, rest)) = first_token(tokens) else {
        return refuse(ReadError::Unexpected { rest: tokens });
    };
    let at = first.at;
    match &first.kind {
        TokenKind::Name { .. } => named(alloc, depth, tokens),
        TokenKind::Number { value } => Ok((Expression::Number { at, value: *value }, rest)),
        TokenKind::Char { code } => Ok((Expression::Char { at, code: *code }, rest)),
        TokenKind::Text { text: found } => Ok((text(alloc, at, found)?, rest)),
        TokenKind::Key { word } => match word {
            Keyword::KeyTrue => Ok((Expression::Truth { at, value: true }, rest)),
            Keyword::KeyFalse => Ok((Expression::Truth { at, value: false }, rest)),
            Keyword::KeyNot => {
                let (inner, rest) = factor(alloc, depth, rest)?;
                Ok((negation(alloc, at, inner)?, rest))
            }
            Keyword::KeyFrom => {
                let (source, rest) = designator_in_parentheses(alloc, depth, rest)?;
                Ok((from(at, source), rest))
            }
            Keyword::KeySize => {
                let (inner, rest) = in_parentheses(alloc, depth, rest)?;
                Ok((size(alloc, at, inner)?, rest))
            }
            Keyword::KeyOrd => {
                let (inner, rest) = in_parentheses(alloc, depth, rest)?;
                Ok((ordinal(alloc, at, inner)?, rest))
            }
            _ => refuse(ReadError::Unexpected { rest: tokens }),
        },
        TokenKind::Sign { symbol } => match symbol {
            Symbol::Minus => {
                let (inner, rest) = factor(alloc, depth, rest)?;
                Ok((negative(alloc, at, inner)?, rest))
            }
            Symbol::Opens => {
                let (inner, rest) = expression(alloc, depth, rest)?;
                let rest = sign(rest, Symbol::Closes)?;
                Ok((parentheses(alloc, at, inner)?, rest))
            }
            _ => refuse(ReadError::Unexpected { rest: tokens }),
        },
    }
}

// A factor that begins with a name.
#[cycle(expressions)]
#[tactic(auto, unfolding(orca_grammar::specs::Rules::named_rest, orca_grammar::specs::Rules::argument_list))]
fn named(alloc: Global, depth: u32, tokens: &[Token]) -> Parsed<'_, Expression>
    ensures { Parses operand result (in_brackets (Phrase FactorPhrase) (read depth (name_form ⨾ named_rest_form) tokens.now)) }
{
    let (name, rest) = name(alloc, tokens)?;
    if comes_sign(rest, Symbol::Opens) {
        let (arguments, rest) = argument_list(alloc, depth, rest)?;
        return Ok((call(name, arguments), rest));
    }
    if let Some(rest) = after_sign(rest, Symbol::Dollar) {
        let ((operation, arguments), rest) = invocation_rest(alloc, depth, rest)?;
        return Ok((invoke(name, operation, arguments), rest));
    }
    let (path, rest) = selectors(alloc, depth, rest)?;
    Ok((get(Designator { name, path }), rest))
}

/// An expression in parentheses.
#[cycle(expressions)]
#[tactic(auto, unfolding(orca_grammar::specs::Rules::in_parentheses))]
pub fn in_parentheses(alloc: Global, depth: u32, tokens: &[Token]) -> Parsed<'_, Expression>
    ensures { Parses (λ e. enclosed (expression_marks e)) result (read depth in_parentheses_form tokens.now) }
{
    let rest = sign(tokens, Symbol::Opens)?;
    let (inner, rest) = expression(alloc, depth, rest)?;
    let rest = sign(rest, Symbol::Closes)?;
    Ok((inner, rest))
}

/// A designator in parentheses.
#[cycle(expressions)]
#[tactic(auto, unfolding(orca_grammar::specs::Rules::designator_in_parentheses, orca_grammar::specs::Rules::designator))]
pub fn designator_in_parentheses(
    alloc: Global,
    depth: u32,
    tokens: &[Token],
) -> Parsed<'_, Designator>
    ensures { Parses (λ d. enclosed (designator_marks d)) result (read depth designator_in_parentheses_form tokens.now) }
{
    let rest = sign(tokens, Symbol::Opens)?;
    let (name, rest) = name(alloc, rest)?;
    let (path, rest) = selectors(alloc, depth, rest)?;
    let rest = sign(rest, Symbol::Closes)?;
    Ok((Designator { name, path }, rest))
}

/// A name and the selectors behind it.
#[tactic(auto, unfolding(orca_grammar::specs::Rules::designator))]
pub fn designator(alloc: Global, depth: u32, tokens: &[Token]) -> Parsed<'_, Designator>
    ensures { Parses designator_marks result (read depth designator_form tokens.now) }
{
    let (name, rest) = name(alloc, tokens)?;
    let (path, rest) = selectors(alloc, depth, rest)?;
    Ok((Designator { name, path }, rest))
}

/// Selectors, as many as come.
#[cycle(expressions)]
pub fn selectors(alloc: Global, depth: u32, tokens: &[Token]) -> Parsed<'_, Vec<Selector>>
    ensures { Parses (λ path. selectors_marks path.items) result (read depth selectors_form tokens.now) }
{
    let mut path = Vec::new(alloc);
    let mut rest = tokens;
    'path: while begins_selector(rest) {
        let (step, after) = selector(alloc, depth, rest)?;
        path.push(step)?;
        rest = after;
    }
    Ok((path, rest))
}

// Whether a selector comes next.
#[tactic(auto, unfolding(orca_grammar::specs::Rules::selector))]
fn begins_selector(tokens: &[Token]) -> bool
    ensures { result ≡ comes (first sets selector_form) tokens.now }
{
    comes_sign(tokens, Symbol::Period) || comes_sign(tokens, Symbol::OpensIndex)
}

// A selector and the tokens behind it.
#[cycle(expressions)]
#[tactic(auto, unfolding(orca_grammar::specs::Rules::selector))]
fn selector(alloc: Global, depth: u32, tokens: &[Token]) -> Parsed<'_, Selector>
    ensures { Parses selector_marks result (read depth selector_form tokens.now) }
{
    if comes_sign(tokens, Symbol::Period) {
        let (at, rest) = sign_at(tokens, Symbol::Period)?;
        let (name, rest) = name(alloc, rest)?;
        return Ok((Selector::Field { at, name }, rest));
    }
    let (at, rest) = sign_at(tokens, Symbol::OpensIndex)?;
    let (index, rest) = expression(alloc, depth, rest)?;
    let rest = sign(rest, Symbol::ClosesIndex)?;
    Ok((Selector::Index { at, index }, rest))
}

/// The operation of an invocation and its arguments, behind the `$`.
#[cycle(expressions)]
#[tactic(auto, unfolding(orca_grammar::specs::Rules::invocation_rest))]
pub fn invocation_rest(
    alloc: Global,
    depth: u32,
    tokens: &[Token],
) -> Parsed<'_, (Name, Vec<Expression>)>
    ensures { Parses (λ x. name_mark x.0 ∷ enclosed (arguments_marks x.1.items)) result (read depth invocation_form tokens.now) }
{
    let (operation, rest) = name(alloc, tokens)?;
    let (arguments, rest) = argument_list(alloc, depth, rest)?;
    Ok(((operation, arguments), rest))
}

/// Arguments in parentheses.
#[cycle(expressions)]
#[tactic(auto, unfolding(orca_grammar::specs::Rules::argument_list))]
pub fn argument_list(alloc: Global, depth: u32, tokens: &[Token]) -> Parsed<'_, Vec<Expression>>
    ensures { Parses (λ es. enclosed (arguments_marks es.items)) result (read depth argument_list_form tokens.now) }
{
    let rest = sign(tokens, Symbol::Opens)?;
    let (arguments, rest) = arguments(alloc, depth, rest)?;
    let rest = sign(rest, Symbol::Closes)?;
    Ok((arguments, rest))
}

/// Arguments with commas between them, or none.
#[cycle(expressions)]
pub fn arguments(alloc: Global, depth: u32, tokens: &[Token]) -> Parsed<'_, Vec<Expression>>
    ensures { Parses (λ es. arguments_marks es.items) result (read depth arguments_form tokens.now) }
{
    let mut arguments = Vec::new(alloc);
    if !begins_expression(tokens) {
        return Ok((arguments, tokens));
    }
    let (first, mut rest) = expression(alloc, depth, tokens)?;
    arguments.push(first)?;
    'arguments: while let Some(after) = after_sign(rest, Symbol::Comma) {
        let (argument, next) = expression(alloc, depth, after)?;
        arguments.push(argument)?;
        rest = next;
    }
    Ok((arguments, rest))
}
