//! Formal parameters.

ghost use Rattle.std.specs.Prelude.{◌≡◌, Ok};
ghost use Rattle.orca_lexer.specs.declared.token.Symbol.TheVariants.{Semicolon};
ghost use Rattle.orca_grammar.specs.Grammar.{read};
ghost use Rattle.orca_grammar.specs.Rules as rules;
ghost use Rattle.orca_tree.specs.Marks as marks;
ghost use Rattle.parse_exprs.specs.Gives.{Parses};

use crate::types::{type_phrase, typed_name};
use orca_lexer::{Keyword, Symbol, Token};
use orca_tree::{Mode, Parameter, TypedName};
use parse_exprs::{Parsed, after_key, after_sign, comes_name, name, sign};
use std::alloc::Global;

// Names with their types, with semicolons between.
fn some_typed_names(alloc: Global, depth: u32, tokens: &[Token]) -> Parsed<'_, Vec<TypedName>>
    ensures { Parses (λ ts. marks.typed_names ts.items) result
        (read depth (rules.listed (rules.sign Semicolon) rules.typed_name) tokens.now) }
{
    let (first, mut rest) = typed_name(alloc, depth, tokens)?;
    let mut parts = vec![in alloc; first]?;
    'parts: while let Some(after) = after_sign(rest, Symbol::Semicolon) {
        let (part, next) = typed_name(alloc, depth, after)?;
        parts.push(part)?;
        rest = next;
    }
    Ok((parts, rest))
}

/// Names with their types, with semicolons between, or none.
#[tactic(auto, unfolding(orca_grammar::specs::Rules::typed_names, orca_grammar::specs::Rules::typed_name))]
pub fn typed_names(alloc: Global, depth: u32, tokens: &[Token]) -> Parsed<'_, Vec<TypedName>>
    ensures { Parses (λ ts. marks.typed_names ts.items) result (read depth rules.typed_names tokens.now) }
{
    if !comes_name(tokens) {
        return Ok((Vec::new(alloc), tokens));
    }
    some_typed_names(alloc, depth, tokens)
}

// How a parameter is passed.
#[tactic(auto, unfolding(orca_grammar::specs::Rules::mode))]
fn mode(tokens: &[Token]) -> (Mode, &[Token])
    ensures { read 0 rules.mode tokens.now ≡ Ok (marks.mode result.0, result.1.now) }
{
    if let Some(rest) = after_key(tokens, Keyword::KeyShared) {
        return (Mode::Shared, rest);
    }
    if let Some(rest) = after_key(tokens, Keyword::KeyOut) {
        return (Mode::Out, rest);
    }
    (Mode::Value, tokens)
}

// A parameter: its name, how it is passed, and its type.
#[tactic(auto, unfolding(orca_grammar::specs::Rules::parameter, orca_grammar::specs::Rules::mode))]
fn parameter(alloc: Global, depth: u32, tokens: &[Token]) -> Parsed<'_, Parameter>
    ensures { Parses marks.parameter result (read depth rules.parameter tokens.now) }
{
    let (name, rest) = name(alloc, tokens)?;
    let rest = sign(rest, Symbol::Colon)?;
    let (mode, rest) = mode(rest);
    let (kind, rest) = type_phrase(alloc, depth, rest)?;
    Ok((Parameter { name, mode, kind }, rest))
}

// Parameters with semicolons between.
fn some_parameters(alloc: Global, depth: u32, tokens: &[Token]) -> Parsed<'_, Vec<Parameter>>
    ensures { Parses (λ ps. marks.parameters ps.items) result
        (read depth (rules.listed (rules.sign Semicolon) rules.parameter) tokens.now) }
{
    let (first, mut rest) = parameter(alloc, depth, tokens)?;
    let mut parts = vec![in alloc; first]?;
    'parts: while let Some(after) = after_sign(rest, Symbol::Semicolon) {
        let (part, next) = parameter(alloc, depth, after)?;
        parts.push(part)?;
        rest = next;
    }
    Ok((parts, rest))
}

/// Parameters with semicolons between, or none.
#[tactic(auto, unfolding(orca_grammar::specs::Rules::parameters, orca_grammar::specs::Rules::parameter))]
pub fn parameters(alloc: Global, depth: u32, tokens: &[Token]) -> Parsed<'_, Vec<Parameter>>
    ensures { Parses (λ ps. marks.parameters ps.items) result (read depth rules.parameters tokens.now) }
{
    if !comes_name(tokens) {
        return Ok((Vec::new(alloc), tokens));
    }
    some_parameters(alloc, depth, tokens)
}
