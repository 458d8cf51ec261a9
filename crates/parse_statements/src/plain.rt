//! Statements without statements in them.

ghost use Rattle.std.specs.Prelude.{◌∷◌, ◌++◌};
ghost use Rattle.orca_lexer.specs.declared.token.Keyword.TheVariants.{KeyDelete, KeyFork, KeyInsert, KeyOn, KeyReturn, KeyWriteLine};
ghost use Rattle.orca_lexer.specs.declared.token.Symbol.TheVariants.{Comma};
ghost use Rattle.orca_lexer.specs.declared.token.TokenKind.TheVariants.{Key, Sign};
ghost use Rattle.orca_grammar.specs.Forms.{◌⨾◌, Statement as StatementPhrase};
ghost use Rattle.orca_grammar.specs.Grammar.{read};
ghost use Rattle.orca_grammar.specs.Rules as rules;
ghost use Rattle.orca_tree.specs.Marks as marks;
ghost use Rattle.orca_tree.specs.Marks.{word};
ghost use Rattle.parse_exprs.specs.Gives.{Parses};
ghost use Rattle.parse_statements.specs.Phrases.{phrase};

use orca_lexer::{Keyword, Symbol, Token};
use orca_tree::{Designator, Expression, Statement};
use parse_exprs::{
    Parsed, argument_list, begins_expression, comes_key, comes_sign, designator, expression,
    invocation_rest, key, key_at, name, selectors, sign,
};
use std::alloc::Global;

// The value of a `return`, if it has one.
#[tactic(auto, unfolding(orca_grammar::specs::Rules::return_rest))]
fn returned(alloc: Global, depth: u32, tokens: &[Token]) -> Parsed<'_, Option<Expression>>
    ensures { Parses (λ v. marks.if_any marks.expression v) result (read depth rules.return_rest tokens.now) }
{
    if !begins_expression(tokens) {
        return Ok((None, tokens));
    }
    let (value, rest) = expression(alloc, depth, tokens)?;
    Ok((Some(value), rest))
}

/// `return`, with a value or without.
pub fn return_statement(alloc: Global, depth: u32, tokens: &[Token]) -> Parsed<'_, Statement>
    ensures { Parses marks.statement result (phrase StatementPhrase depth (rules.key_at KeyReturn ⨾ rules.return_rest) tokens.now) }
{
    let (at, rest) = key_at(tokens, Keyword::KeyReturn)?;
    let (value, rest) = returned(alloc, depth, rest)?;
    Ok((Statement::Return { at, value }, rest))
}

// The member on which a process is forked, if it is said.
#[tactic(auto, unfolding(orca_grammar::specs::Rules::on_member))]
fn on_member(alloc: Global, depth: u32, tokens: &[Token]) -> Parsed<'_, Option<Expression>>
    ensures { Parses (λ on. marks.if_any (λ e. word (Key KeyOn) ∷ marks.expression e) on) result (read depth rules.on_member tokens.now) }
{
    if !comes_key(tokens, Keyword::KeyOn) {
        return Ok((None, tokens));
    }
    let rest = key(tokens, Keyword::KeyOn)?;
    let (member, rest) = expression(alloc, depth, rest)?;
    Ok((Some(member), rest))
}

/// `fork` with the process, its arguments, and the member if it is said.
#[tactic(auto, unfolding(orca_grammar::specs::Rules::fork_rest))]
pub fn fork_statement(alloc: Global, depth: u32, tokens: &[Token]) -> Parsed<'_, Statement>
    ensures { Parses marks.statement result (phrase StatementPhrase depth (rules.key_at KeyFork ⨾ rules.fork_rest) tokens.now) }
{
    let (at, rest) = key_at(tokens, Keyword::KeyFork)?;
    let (process, rest) = name(alloc, rest)?;
    let (arguments, rest) = argument_list(alloc, depth, rest)?;
    let (on, rest) = on_member(alloc, depth, rest)?;
    Ok((
        Statement::Fork {
            at,
            process,
            arguments,
            on,
        },
        rest,
    ))
}

/// `WriteLine` with its arguments.
pub fn write_line(alloc: Global, depth: u32, tokens: &[Token]) -> Parsed<'_, Statement>
    ensures { Parses marks.statement result (phrase StatementPhrase depth (rules.key_at KeyWriteLine ⨾ rules.argument_list) tokens.now) }
{
    let (at, rest) = key_at(tokens, Keyword::KeyWriteLine)?;
    let (arguments, rest) = argument_list(alloc, depth, rest)?;
    Ok((Statement::WriteLine { at, arguments }, rest))
}

// An element, and the set or bag that it is put into or taken from, in parentheses.
#[tactic(auto, unfolding(orca_grammar::specs::Rules::element_and_designator))]
fn element_and_designator(
    alloc: Global,
    depth: u32,
    tokens: &[Token],
) -> Parsed<'_, (Expression, Designator)>
    ensures { Parses (λ x. marks.enclosed (marks.expression x.0 ++ word (Sign Comma) ∷ marks.designator x.1)) result
        (read depth rules.element_and_designator tokens.now) }
{
    let rest = sign(tokens, Symbol::Opens)?;
    let (element, rest) = expression(alloc, depth, rest)?;
    let rest = sign(rest, Symbol::Comma)?;
    let (whole, rest) = designator(alloc, depth, rest)?;
    let rest = sign(rest, Symbol::Closes)?;
    Ok(((element, whole), rest))
}

/// `insert` of an element into a set or bag.
pub fn insert_statement(alloc: Global, depth: u32, tokens: &[Token]) -> Parsed<'_, Statement>
    ensures { Parses marks.statement result
        (phrase StatementPhrase depth (rules.key_at KeyInsert ⨾ rules.element_and_designator) tokens.now) }
{
    let (at, rest) = key_at(tokens, Keyword::KeyInsert)?;
    let ((element, into), rest) = element_and_designator(alloc, depth, rest)?;
    Ok((Statement::Insert { at, element, into }, rest))
}

/// `delete` of an element from a set or bag.
pub fn delete_statement(alloc: Global, depth: u32, tokens: &[Token]) -> Parsed<'_, Statement>
    ensures { Parses marks.statement result
        (phrase StatementPhrase depth (rules.key_at KeyDelete ⨾ rules.element_and_designator) tokens.now) }
{
    let (at, rest) = key_at(tokens, Keyword::KeyDelete)?;
    let ((element, from), rest) = element_and_designator(alloc, depth, rest)?;
    Ok((Statement::Delete { at, element, from }, rest))
}

/// A statement that begins with a name: a call, an invocation or an assignment.
#[tactic(auto, unfolding(orca_grammar::specs::Rules::named_statement_rest, orca_grammar::specs::Rules::argument_list, orca_grammar::specs::Rules::assignment_rest))]
pub fn named_statement(alloc: Global, depth: u32, tokens: &[Token]) -> Parsed<'_, Statement>
    ensures { Parses marks.statement result (phrase StatementPhrase depth (rules.name ⨾ rules.named_statement_rest) tokens.now) }
{
    let (name, rest) = name(alloc, tokens)?;
    if comes_sign(rest, Symbol::Opens) {
        let (arguments, rest) = argument_list(alloc, depth, rest)?;
        return Ok((
            Statement::Call {
                function: name,
                arguments,
            },
            rest,
        ));
    }
    if comes_sign(rest, Symbol::Dollar) {
        let rest = sign(rest, Symbol::Dollar)?;
        let ((operation, arguments), rest) = invocation_rest(alloc, depth, rest)?;
        return Ok((
            Statement::Invoke {
                object: name,
                operation,
                arguments,
            },
            rest,
        ));
    }
    let (path, rest) = selectors(alloc, depth, rest)?;
    let rest = sign(rest, Symbol::Becomes)?;
    let (value, rest) = expression(alloc, depth, rest)?;
    Ok((
        Statement::Assign {
            to: Designator { name, path },
            value,
        },
        rest,
    ))
}
