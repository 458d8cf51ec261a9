//! Declarations.

ghost use Rattle.std.specs.Prelude.{◌≡◌, ◌∷◌, ◌++◌, []};
ghost use Rattle.std.specs.List.{flat_map};
ghost use Rattle.orca_lexer.specs.declared.token.Keyword.TheVariants.{KeyConst, KeyFunction, KeyImplementation, KeyObject, KeyProcess, KeySpecification, KeyType};
ghost use Rattle.orca_lexer.specs.declared.token.Symbol.TheVariants.{Closes, Opens, Semicolon};
ghost use Rattle.orca_lexer.specs.declared.token.TokenKind.TheVariants.{Key, Sign};
ghost use Rattle.orca_grammar.specs.Forms.{◌⨾◌};
ghost use Rattle.orca_grammar.specs.Grammar.{read};
ghost use Rattle.orca_grammar.specs.Reading.{comes, first as first_of, is_any};
ghost use Rattle.orca_grammar.specs.Rules as rules;
ghost use Rattle.orca_grammar.specs.Sets.{sets};
ghost use Rattle.orca_tree.specs.Marks as marks;
ghost use Rattle.orca_tree.specs.Marks.{name_mark, word};
ghost use Rattle.parse_declarations.specs.Objects.{object_of};
ghost use Rattle.parse_exprs.specs.Gives.{Parses};

use crate::operations::{block, end_line, heads, operations};
use orca_base::{Place, refuse};
use orca_lexer::{Keyword, Symbol, Token, TokenKind};
use orca_tree::{
    Block, Bound, Declaration, Definition, Head, Name, Operation, Parameter, Statement, TypePhrase,
    Variables,
};
use parse_exprs::{Parsed, ReadError, comes_key, first_token, key, key_at, name, sign};
use parse_statements::statements;
use parse_types::{bound, definition, parameters, result_type, variables};
use std::alloc::Global;

// The value of a constant and the semicolon behind it.
#[tactic(auto, unfolding(orca_grammar::specs::Rules::bound))]
fn bound_line(alloc: Global, tokens: &[Token]) -> Parsed<'_, Bound>
    ensures { Parses (λ b. marks.bound b ++ word (Sign Semicolon) ∷ []) result (read 0 (rules.bound ⨾ rules.sign Semicolon) tokens.now) }
{
    let (value, rest) = bound(alloc, tokens)?;
    let rest = sign(rest, Symbol::Semicolon)?;
    Ok((value, rest))
}

// A constant: its name and its value.
#[tactic(auto, unfolding(orca_grammar::specs::Rules::constant_rest, orca_grammar::specs::Rules::bound))]
fn constant(alloc: Global, tokens: &[Token]) -> Parsed<'_, Declaration>
    ensures { Parses marks.declaration result (read 0 (rules.key_at KeyConst ⨾ rules.constant_rest) tokens.now) }
{
    let (at, rest) = key_at(tokens, Keyword::KeyConst)?;
    let (name, rest) = name(alloc, rest)?;
    let rest = sign(rest, Symbol::Equals)?;
    let (value, rest) = bound_line(alloc, rest)?;
    Ok((Declaration::Constant { at, name, value }, rest))
}

// The definition of a type and the semicolon behind it.
fn definition_line(alloc: Global, depth: u32, tokens: &[Token]) -> Parsed<'_, Definition>
    ensures { Parses (λ d. marks.definition d ++ word (Sign Semicolon) ∷ []) result
        (read depth (rules.definition ⨾ rules.sign Semicolon) tokens.now) }
{
    let (definition, rest) = definition(alloc, depth, tokens)?;
    let rest = sign(rest, Symbol::Semicolon)?;
    Ok((definition, rest))
}

// A type: its name and its definition.
#[tactic(auto, unfolding(orca_grammar::specs::Rules::type_rest))]
fn type_declaration(alloc: Global, depth: u32, tokens: &[Token]) -> Parsed<'_, Declaration>
    ensures { Parses marks.declaration result (read depth (rules.key_at KeyType ⨾ rules.type_rest) tokens.now) }
{
    let (at, rest) = key_at(tokens, Keyword::KeyType)?;
    let (name, rest) = name(alloc, rest)?;
    let rest = sign(rest, Symbol::Equals)?;
    let (definition, rest) = definition_line(alloc, depth, rest)?;
    Ok((
        Declaration::Type {
            at,
            name,
            definition,
        },
        rest,
    ))
}

// The name and the heads of a specification.
#[tactic(auto, unfolding(orca_grammar::specs::Rules::specification_rest))]
fn specified(alloc: Global, depth: u32, tokens: &[Token]) -> Parsed<'_, (Name, Vec<Head>)>
    ensures { Parses
        (λ x. word (Key KeySpecification) ∷ name_mark x.0 ∷ word (Sign Semicolon) ∷ marks.heads x.1.items) result
        (read depth (rules.key KeySpecification ⨾ rules.specification_rest) tokens.now) }
{
    let rest = key(tokens, Keyword::KeySpecification)?;
    let (name, rest) = name(alloc, rest)?;
    let rest = sign(rest, Symbol::Semicolon)?;
    let (heads, rest) = heads(alloc, depth, rest)?;
    Ok(((name, heads), rest))
}

// The specification of the object type whose `object` stands at this place.
fn specification(alloc: Global, depth: u32, at: Place, tokens: &[Token]) -> Parsed<'_, Declaration>
    ensures { Parses marks.declaration result (object_of at depth (rules.key KeySpecification ⨾ rules.specification_rest) tokens.now) }
{
    let ((name, heads), rest) = specified(alloc, depth, tokens)?;
    let rest = end_line(rest)?;
    Ok((Declaration::Specification { at, name, heads }, rest))
}

// The statements that open an object, if there are such.
#[tactic(auto, unfolding(orca_grammar::specs::Rules::opening))]
fn opening(alloc: Global, depth: u32, tokens: &[Token]) -> Parsed<'_, Option<Vec<Statement>>>
    ensures { Parses (λ o. marks.if_any (λ ss. marks.opening ss.items) o) result (read depth rules.opening tokens.now) }
{
    if !comes_key(tokens, Keyword::KeyBegin) {
        return Ok((None, tokens));
    }
    let rest = key(tokens, Keyword::KeyBegin)?;
    let (statements, rest) = statements(alloc, depth, rest)?;
    Ok((Some(statements), rest))
}

// What an object has: its fields, its operations, and the statements that open it.
#[derive(Drop)]
struct Members {
    fields: Vec<Variables>,
    operations: Vec<Operation>,
    opening: Option<Vec<Statement>>,
}

// The members of an object.
fn object_members(alloc: Global, depth: u32, tokens: &[Token]) -> Parsed<'_, Members>
    ensures { Parses
        (λ m. marks.all_variables m.fields.items
        ++ (flat_map marks.operation m.operations.items ++ marks.if_any (λ ss. marks.opening ss.items) m.opening)) result
        (read depth (rules.variables ⨾ rules.operations ⨾ rules.opening) tokens.now) }
{
    let (fields, rest) = variables(alloc, depth, tokens)?;
    let (operations, rest) = operations(alloc, depth, rest)?;
    let (opening, rest) = opening(alloc, depth, rest)?;
    Ok((
        Members {
            fields,
            operations,
            opening,
        },
        rest,
    ))
}

// The name and the members of an implementation.
#[tactic(auto, unfolding(orca_grammar::specs::Rules::implementation_rest))]
fn implemented(alloc: Global, depth: u32, tokens: &[Token]) -> Parsed<'_, (Name, Members)>
    ensures { Parses
        (λ x. word (Key KeyImplementation) ∷ name_mark x.0 ∷ word (Sign Semicolon) ∷ (marks.all_variables x.1.fields.items
        ++ (flat_map marks.operation x.1.operations.items ++ marks.if_any (λ ss. marks.opening ss.items) x.1.opening))) result
        (read depth (rules.key KeyImplementation ⨾ rules.implementation_rest) tokens.now) }
{
    let rest = key(tokens, Keyword::KeyImplementation)?;
    let (name, rest) = name(alloc, rest)?;
    let rest = sign(rest, Symbol::Semicolon)?;
    let (members, rest) = object_members(alloc, depth, rest)?;
    Ok(((name, members), rest))
}

// The implementation of the object type whose `object` stands at this place.
fn implementation(alloc: Global, depth: u32, at: Place, tokens: &[Token]) -> Parsed<'_, Declaration>
    ensures { Parses marks.declaration result (object_of at depth (rules.key KeyImplementation ⨾ rules.implementation_rest) tokens.now) }
{
    let ((name, members), rest) = implemented(alloc, depth, tokens)?;
    let rest = end_line(rest)?;
    Ok((
        Declaration::Implementation {
            at,
            name,
            fields: members.fields,
            operations: members.operations,
            opening: members.opening,
        },
        rest,
    ))
}

// A specification or an implementation of an object type.
#[tactic(auto, unfolding(orca_grammar::specs::Rules::object_rest))]
fn object(alloc: Global, depth: u32, tokens: &[Token]) -> Parsed<'_, Declaration>
    ensures { Parses marks.declaration result (read depth (rules.key_at KeyObject ⨾ rules.object_rest) tokens.now) }
{
    let (at, rest) = key_at(tokens, Keyword::KeyObject)?;
    if comes_key(rest, Keyword::KeySpecification) {
        return specification(alloc, depth, at, rest);
    }
    implementation(alloc, depth, at, rest)
}

// What stands behind the parameters of a function: the type of its result, if there is one, and its block.
fn result_and_block(
    alloc: Global,
    depth: u32,
    tokens: &[Token],
) -> Parsed<'_, (Option<TypePhrase>, Block)>
    ensures { Parses (λ x. marks.result x.0 ++ word (Sign Semicolon) ∷ marks.block x.1) result
        (read depth (rules.result ⨾ rules.sign Semicolon ⨾ rules.block) tokens.now) }
{
    let (kind, rest) = result_type(alloc, depth, tokens)?;
    let rest = sign(rest, Symbol::Semicolon)?;
    let (body, rest) = block(alloc, depth, rest)?;
    Ok(((kind, body), rest))
}

// What stands behind the name of a function: its parameters, its result and its block.
fn function_tail(
    alloc: Global,
    depth: u32,
    tokens: &[Token],
) -> Parsed<'_, (Vec<Parameter>, (Option<TypePhrase>, Block))>
    ensures { Parses (λ x. word (Sign Opens) ∷ (marks.parameters x.0.items ++ word (Sign Closes) ∷
        (marks.result x.1.0 ++ word (Sign Semicolon) ∷ marks.block x.1.1))) result
        (read depth (rules.sign Opens ⨾ rules.parameters ⨾ rules.sign Closes ⨾ rules.result ⨾ rules.sign Semicolon ⨾ rules.block)
        tokens.now) }
{
    let rest = sign(tokens, Symbol::Opens)?;
    let (parameters, rest) = parameters(alloc, depth, rest)?;
    let rest = sign(rest, Symbol::Closes)?;
    let (end, rest) = result_and_block(alloc, depth, rest)?;
    Ok(((parameters, end), rest))
}

// A function: its head and its block.
#[tactic(auto, unfolding(orca_grammar::specs::Rules::function_rest))]
fn function(alloc: Global, depth: u32, tokens: &[Token]) -> Parsed<'_, Declaration>
    ensures { Parses marks.declaration result (read depth (rules.key_at KeyFunction ⨾ rules.function_rest) tokens.now) }
{
    let (at, rest) = key_at(tokens, Keyword::KeyFunction)?;
    let (name, rest) = name(alloc, rest)?;
    let ((parameters, (kind, body)), rest) = function_tail(alloc, depth, rest)?;
    Ok((
        Declaration::Function {
            at,
            name,
            parameters,
            result: kind,
            body,
        },
        rest,
    ))
}

// What stands behind the parameters of a process: a semicolon and its block.
fn block_line(alloc: Global, depth: u32, tokens: &[Token]) -> Parsed<'_, Block>
    ensures { Parses (λ b. word (Sign Semicolon) ∷ marks.block b) result (read depth (rules.sign Semicolon ⨾ rules.block) tokens.now) }
{
    let rest = sign(tokens, Symbol::Semicolon)?;
    let (body, rest) = block(alloc, depth, rest)?;
    Ok((body, rest))
}

// What stands behind the name of a process: its parameters and its block.
fn process_tail(alloc: Global, depth: u32, tokens: &[Token]) -> Parsed<'_, (Vec<Parameter>, Block)>
    ensures { Parses
        (λ x. word (Sign Opens) ∷ (marks.parameters x.0.items ++ word (Sign Closes) ∷ word (Sign Semicolon) ∷ marks.block x.1)) result
        (read depth (rules.sign Opens ⨾ rules.parameters ⨾ rules.sign Closes ⨾ rules.sign Semicolon ⨾ rules.block) tokens.now) }
{
    let rest = sign(tokens, Symbol::Opens)?;
    let (parameters, rest) = parameters(alloc, depth, rest)?;
    let rest = sign(rest, Symbol::Closes)?;
    let (body, rest) = block_line(alloc, depth, rest)?;
    Ok(((parameters, body), rest))
}

// A process: its name, its parameters and its block.
#[tactic(auto, unfolding(orca_grammar::specs::Rules::process_rest))]
fn process(alloc: Global, depth: u32, tokens: &[Token]) -> Parsed<'_, Declaration>
    ensures { Parses marks.declaration result (read depth (rules.key_at KeyProcess ⨾ rules.process_rest) tokens.now) }
{
    let (at, rest) = key_at(tokens, Keyword::KeyProcess)?;
    let (name, rest) = name(alloc, rest)?;
    let ((parameters, body), rest) = process_tail(alloc, depth, rest)?;
    Ok((
        Declaration::Process {
            at,
            name,
            parameters,
            body,
        },
        rest,
    ))
}

// Whether declarations begin with this token.
#[tactic(auto, unfolding(orca_grammar::specs::Rules::declaration))]
fn begins(kind: &TokenKind) -> bool
    ensures { result ≡ is_any (first_of sets rules.declaration) kind.now }
{
    match kind {
        TokenKind::Key { word } => matches!(
            word,
            Keyword::KeyConst
                | Keyword::KeyType
                | Keyword::KeyObject
                | Keyword::KeyFunction
                | Keyword::KeyProcess
        ),
        _ => false,
    }
}

/// Whether a token comes next with which declarations begin.
pub fn begins_declaration(tokens: &[Token]) -> bool
    ensures { result ≡ comes (first_of sets rules.declaration) tokens.now }
{
    match tokens {
        [first, ..] => begins(&first.kind),
        [] => false,
    }
}

/// A declaration.
#[tactic(auto, unfolding(orca_grammar::specs::Rules::declaration, orca_grammar::specs::Rules::constant_rest, orca_grammar::specs::Rules::bound))]
pub fn declaration(alloc: Global, depth: u32, tokens: &[Token]) -> Parsed<'_, Declaration>
    ensures { Parses marks.declaration result (read depth rules.declaration tokens.now) }
{
    let Some((first, _)) = first_token(tokens) else {
        return refuse(ReadError::Unexpected { rest: tokens });
    };
    match &first.kind {
        TokenKind::Key { word } => match word {
            Keyword::KeyConst => constant(alloc, tokens),
            Keyword::KeyType => type_declaration(alloc, depth, tokens),
            Keyword::KeyObject => object(alloc, depth, tokens),
            Keyword::KeyFunction => function(alloc, depth, tokens),
            Keyword::KeyProcess => process(alloc, depth, tokens),
            _ => refuse(ReadError::Unexpected { rest: tokens }),
        },
        _ => refuse(ReadError::Unexpected { rest: tokens }),
    }
}
