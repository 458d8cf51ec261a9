//! Operations, and their heads.

ghost use Rattle.std.specs.Prelude.{◌∷◌, ◌++◌, []};
ghost use Rattle.orca_lexer.specs.declared.token.Keyword.TheVariants.{KeyBegin, KeyDo, KeyEnd, KeyOd};
ghost use Rattle.orca_lexer.specs.declared.token.Symbol.TheVariants.{Closes, Opens, Semicolon};
ghost use Rattle.orca_lexer.specs.declared.token.TokenKind.TheVariants.{Key, Sign};
ghost use Rattle.orca_grammar.specs.Forms.{◌⨾◌, Many};
ghost use Rattle.orca_grammar.specs.Grammar.{read};
ghost use Rattle.orca_grammar.specs.Rules as rules;
ghost use Rattle.orca_tree.specs.Marks as marks;
ghost use Rattle.orca_tree.specs.Marks.{word};
ghost use Rattle.std.specs.List.{flat_map};
ghost use Rattle.parse_exprs.specs.Gives.{Gives, Parses};

use orca_base::Refusal;
use orca_lexer::{Keyword, Symbol, Token};
use orca_tree::{
    Block, Guard, Head, Operation, OperationBody, Statement, TypePhrase, TypedName, Variables,
};
use parse_exprs::{Parsed, ReadError, comes_key, expression, key, key_at, name, sign};
use parse_statements::statements;
use parse_types::{result_type, typed_names, variables};
use std::alloc::Global;

/// The words `end` and `;`, with which blocks, operations and objects end.
pub fn end_line(tokens: &[Token]) -> Result<&[Token], Refusal<ReadError<'_>>>
    ensures { Gives (λ rest. (word (Key KeyEnd) ∷ word (Sign Semicolon) ∷ [], rest.now)) result
        (read 0 (rules.key KeyEnd ⨾ rules.sign Semicolon) tokens.now) }
{
    let rest = key(tokens, Keyword::KeyEnd)?;
    sign(rest, Symbol::Semicolon)
}

// What stands behind the name of a head: the parameters and the result.
fn head_rest(
    alloc: Global,
    depth: u32,
    tokens: &[Token],
) -> Parsed<'_, (Vec<TypedName>, Option<TypePhrase>)>
    ensures { Parses (λ x. word (Sign Opens) ∷ (marks.typed_names x.0.items ++ word (Sign Closes) ∷ marks.result x.1)) result
        (read depth (rules.sign Opens ⨾ rules.typed_names ⨾ rules.sign Closes ⨾ rules.result) tokens.now) }
{
    let rest = sign(tokens, Symbol::Opens)?;
    let (parameters, rest) = typed_names(alloc, depth, rest)?;
    let rest = sign(rest, Symbol::Closes)?;
    let (kind, rest) = result_type(alloc, depth, rest)?;
    Ok(((parameters, kind), rest))
}

/// The head of an operation.
#[tactic(auto, unfolding(orca_grammar::specs::Rules::head))]
pub fn head(alloc: Global, depth: u32, tokens: &[Token]) -> Parsed<'_, Head>
    ensures { Parses marks.head result (read depth rules.head tokens.now) }
{
    let (at, rest) = key_at(tokens, Keyword::KeyOperation)?;
    let (name, rest) = name(alloc, rest)?;
    let ((parameters, kind), rest) = head_rest(alloc, depth, rest)?;
    Ok((
        Head {
            at,
            name,
            parameters,
            result: kind,
        },
        rest,
    ))
}

/// The variables and the statements of a function or a process.
#[tactic(auto, unfolding(orca_grammar::specs::Rules::block))]
pub fn block(alloc: Global, depth: u32, tokens: &[Token]) -> Parsed<'_, Block>
    ensures { Parses marks.block result (read depth rules.block tokens.now) }
{
    let (variables, rest) = variables(alloc, depth, tokens)?;
    let rest = key(rest, Keyword::KeyBegin)?;
    let (statements, rest) = statements(alloc, depth, rest)?;
    let rest = end_line(rest)?;
    Ok((
        Block {
            variables,
            statements,
        },
        rest,
    ))
}

// The statements of a guard, from `do` to the semicolon behind `od`.
fn guard_rest(alloc: Global, depth: u32, tokens: &[Token]) -> Parsed<'_, Vec<Statement>>
    ensures { Parses
        (λ ss. word (Key KeyDo) ∷ (marks.statements ss.items ++ word (Key KeyOd) ∷ word (Sign Semicolon) ∷ [])) result
        (read depth (rules.key KeyDo ⨾ rules.statements ⨾ rules.key KeyOd ⨾ rules.sign Semicolon) tokens.now) }
{
    let rest = key(tokens, Keyword::KeyDo)?;
    let (body, rest) = statements(alloc, depth, rest)?;
    let rest = key(rest, Keyword::KeyOd)?;
    let rest = sign(rest, Symbol::Semicolon)?;
    Ok((body, rest))
}

// A guard: its test and its statements.
#[tactic(auto, unfolding(orca_grammar::specs::Rules::guard))]
fn guard(alloc: Global, depth: u32, tokens: &[Token]) -> Parsed<'_, Guard>
    ensures { Parses marks.guard result (read depth rules.guard tokens.now) }
{
    let (at, rest) = key_at(tokens, Keyword::KeyGuard)?;
    let (test, rest) = expression(alloc, depth, rest)?;
    let (body, rest) = guard_rest(alloc, depth, rest)?;
    Ok((Guard { at, test, body }, rest))
}

// Guards, as long as one comes.
fn guards(alloc: Global, depth: u32, tokens: &[Token]) -> Parsed<'_, Vec<Guard>>
    ensures { Parses (λ gs. flat_map marks.guard gs.items) result (read depth (Many rules.guard) tokens.now) }
{
    let mut parts = Vec::new(alloc);
    let mut rest = tokens;
    'parts: while comes_key(rest, Keyword::KeyGuard) {
        let (part, after) = guard(alloc, depth, rest)?;
        parts.push(part)?;
        rest = after;
    }
    Ok((parts, rest))
}

// The guards of an operation, or its statements.
#[tactic(auto, unfolding(orca_grammar::specs::Rules::operation_body, orca_grammar::specs::Rules::guards, orca_grammar::specs::Rules::guard))]
fn operation_body(alloc: Global, depth: u32, tokens: &[Token]) -> Parsed<'_, OperationBody>
    ensures { Parses marks.operation_body result (read depth rules.operation_body tokens.now) }
{
    if comes_key(tokens, Keyword::KeyGuard) {
        let (first, rest) = guard(alloc, depth, tokens)?;
        let (others, rest) = guards(alloc, depth, rest)?;
        return Ok((OperationBody::Guarded { first, others }, rest));
    }
    let (statements, rest) = statements(alloc, depth, tokens)?;
    Ok((OperationBody::Plain { statements }, rest))
}

// The variables and the body of an operation.
fn operation_rest(
    alloc: Global,
    depth: u32,
    tokens: &[Token],
) -> Parsed<'_, (Vec<Variables>, OperationBody)>
    ensures { Parses
        (λ x. marks.all_variables x.0.items ++ word (Key KeyBegin) ∷ marks.ended (marks.operation_body x.1)) result
        (read depth (rules.variables ⨾ rules.key KeyBegin ⨾ rules.operation_body ⨾ rules.key KeyEnd ⨾ rules.sign Semicolon) tokens.now) }
{
    let (locals, rest) = variables(alloc, depth, tokens)?;
    let rest = key(rest, Keyword::KeyBegin)?;
    let (body, rest) = operation_body(alloc, depth, rest)?;
    let rest = end_line(rest)?;
    Ok(((locals, body), rest))
}

// An operation: its head, its variables and its body.
#[tactic(auto, unfolding(orca_grammar::specs::Rules::operation))]
fn operation(alloc: Global, depth: u32, tokens: &[Token]) -> Parsed<'_, Operation>
    ensures { Parses marks.operation result (read depth rules.operation tokens.now) }
{
    let (head, rest) = head(alloc, depth, tokens)?;
    let rest = sign(rest, Symbol::Semicolon)?;
    let ((variables, body), rest) = operation_rest(alloc, depth, rest)?;
    Ok((
        Operation {
            head,
            variables,
            body,
        },
        rest,
    ))
}

/// Operations, as long as one comes.
#[tactic(auto, unfolding(orca_grammar::specs::Rules::operations))]
pub fn operations(alloc: Global, depth: u32, tokens: &[Token]) -> Parsed<'_, Vec<Operation>>
    ensures { Parses (λ os. flat_map marks.operation os.items) result (read depth rules.operations tokens.now) }
{
    let mut parts = Vec::new(alloc);
    let mut rest = tokens;
    'parts: while comes_key(rest, Keyword::KeyOperation) {
        let (part, after) = operation(alloc, depth, rest)?;
        parts.push(part)?;
        rest = after;
    }
    Ok((parts, rest))
}

// The head of an operation and the semicolon behind it.
#[tactic(auto, unfolding(orca_grammar::specs::Rules::head_line))]
fn head_line(alloc: Global, depth: u32, tokens: &[Token]) -> Parsed<'_, Head>
    ensures { Parses (λ h. marks.head h ++ word (Sign Semicolon) ∷ []) result (read depth rules.head_line tokens.now) }
{
    let (head, rest) = head(alloc, depth, tokens)?;
    let rest = sign(rest, Symbol::Semicolon)?;
    Ok((head, rest))
}

/// Heads of operations, as long as one comes, each with a semicolon behind it.
#[tactic(auto, unfolding(orca_grammar::specs::Rules::heads))]
pub fn heads(alloc: Global, depth: u32, tokens: &[Token]) -> Parsed<'_, Vec<Head>>
    ensures { Parses (λ hs. marks.heads hs.items) result (read depth rules.heads tokens.now) }
{
    let mut parts = Vec::new(alloc);
    let mut rest = tokens;
    'parts: while comes_key(rest, Keyword::KeyOperation) {
        let (part, after) = head_line(alloc, depth, rest)?;
        parts.push(part)?;
        rest = after;
    }
    Ok((parts, rest))
}
