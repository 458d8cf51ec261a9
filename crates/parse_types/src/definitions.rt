//! Definitions of types.

ghost use Rattle.std.specs.Prelude.{◌∷◌, ◌++◌, []};
ghost use Rattle.std.specs.List.{flat_map};
ghost use Rattle.orca_lexer.specs.declared.token.Keyword.TheVariants.{KeyEnum, KeyRecord};
ghost use Rattle.orca_lexer.specs.declared.token.Symbol.TheVariants.{Semicolon};
ghost use Rattle.orca_lexer.specs.declared.token.TokenKind.TheVariants.{Sign};
ghost use Rattle.orca_grammar.specs.Forms.{◌⨾◌};
ghost use Rattle.orca_grammar.specs.Grammar.{read};
ghost use Rattle.orca_grammar.specs.Rules as rules;
ghost use Rattle.orca_tree.specs.Marks as marks;
ghost use Rattle.orca_tree.specs.Marks.{word};
ghost use Rattle.parse_exprs.specs.Gives.{Parses};

use crate::types::{names, type_phrase, typed_name};
use orca_lexer::{Keyword, Symbol, Token};
use orca_tree::{Definition, TypedName};
use parse_exprs::{Parsed, comes_key, comes_name, key, key_at, sign};
use std::alloc::Global;

// A field of a record: a name with its type, and a semicolon.
#[tactic(auto, unfolding(orca_grammar::specs::Rules::field))]
fn field(alloc: Global, depth: u32, tokens: &[Token]) -> Parsed<'_, TypedName>
    ensures { Parses (λ f. marks.typed_name f ++ word (Sign Semicolon) ∷ []) result (read depth rules.field tokens.now) }
{
    let (field, rest) = typed_name(alloc, depth, tokens)?;
    let rest = sign(rest, Symbol::Semicolon)?;
    Ok((field, rest))
}

// One field and those behind it.
#[tactic(auto, unfolding(orca_grammar::specs::Rules::fields))]
fn fields(alloc: Global, depth: u32, tokens: &[Token]) -> Parsed<'_, Vec<TypedName>>
    ensures { Parses (λ fs. flat_map (λ f. marks.typed_name f ++ word (Sign Semicolon) ∷ []) fs.items) result
        (read depth rules.fields tokens.now) }
{
    let (first, mut rest) = field(alloc, depth, tokens)?;
    let mut parts = vec![in alloc; first]?;
    'parts: while comes_name(rest) {
        let (part, after) = field(alloc, depth, rest)?;
        parts.push(part)?;
        rest = after;
    }
    Ok((parts, rest))
}

// A record and its fields.
#[tactic(auto, unfolding(orca_grammar::specs::Rules::record_rest))]
fn record_type(alloc: Global, depth: u32, tokens: &[Token]) -> Parsed<'_, Definition>
    ensures { Parses marks.definition result (read depth (rules.key_at KeyRecord ⨾ rules.record_rest) tokens.now) }
{
    let (at, rest) = key_at(tokens, Keyword::KeyRecord)?;
    let (fields, rest) = fields(alloc, depth, rest)?;
    let rest = key(rest, Keyword::KeyEnd)?;
    Ok((Definition::Record { at, fields }, rest))
}

// An enumeration and its names.
#[tactic(auto, unfolding(orca_grammar::specs::Rules::enumeration_rest, orca_grammar::specs::Rules::names))]
fn enumeration(alloc: Global, tokens: &[Token]) -> Parsed<'_, Definition>
    ensures { Parses marks.definition result (read 0 (rules.key_at KeyEnum ⨾ rules.enumeration_rest) tokens.now) }
{
    let (at, rest) = key_at(tokens, Keyword::KeyEnum)?;
    let rest = sign(rest, Symbol::Opens)?;
    let (names, rest) = names(alloc, rest)?;
    let rest = sign(rest, Symbol::Closes)?;
    Ok((Definition::Enumeration { at, names }, rest))
}

/// What a name of a type stands for: a record, an enumeration, or another type.
#[tactic(auto, unfolding(orca_grammar::specs::Rules::definition, orca_grammar::specs::Rules::enumeration_rest, orca_grammar::specs::Rules::names))]
pub fn definition(alloc: Global, depth: u32, tokens: &[Token]) -> Parsed<'_, Definition>
    ensures { Parses marks.definition result (read depth rules.definition tokens.now) }
{
    if comes_key(tokens, Keyword::KeyRecord) {
        return record_type(alloc, depth, tokens);
    }
    if comes_key(tokens, Keyword::KeyEnum) {
        return enumeration(alloc, tokens);
    }
    let (of, rest) = type_phrase(alloc, depth, tokens)?;
    Ok((Definition::Alias { of }, rest))
}
