//! Statements, by recursive descent.

ghost use Rattle.std.specs.Prelude.{◌≡◌, ◌≤◌, ◌∷◌, ◌++◌, [], length, IfOk};
ghost use Rattle.orca_lexer.specs.declared.token.Keyword.TheVariants.{KeyDo, KeyFor, KeyIf, KeyOd, KeyRepeat, KeyThen, KeyUntil, KeyWhile};
ghost use Rattle.orca_lexer.specs.declared.token.Symbol.TheVariants.{Range as RangeSign, Semicolon};
ghost use Rattle.orca_lexer.specs.declared.token.TokenKind.TheVariants.{Key, Sign};
ghost use Rattle.orca_grammar.specs.Forms.{◌⨾◌, Nested, Expression as ExpressionPhrase, Statement as StatementPhrase};
ghost use Rattle.orca_grammar.specs.Grammar.{nest_at, read};
ghost use Rattle.orca_grammar.specs.Reading.{comes, is_any};
ghost use Rattle.orca_grammar.specs.Rules as rules;
ghost use Rattle.orca_grammar.specs.Sets.{statement_firsts};
ghost use Rattle.orca_tree.specs.Marks as marks;
ghost use Rattle.orca_tree.specs.Marks.{word};
ghost use Rattle.parse_exprs.specs.Gives.{Parses};
ghost use Rattle.parse_statements.specs.Phrases.{phrase};

use crate::made::{branches, for_loop, repeat_loop, while_loop};
use crate::plain::{
    delete_statement, fork_statement, insert_statement, named_statement, return_statement,
    write_line,
};
use orca_base::refuse;
use orca_lexer::{Keyword, Symbol, Token, TokenKind};
use orca_tree::{Arm, Expression, Range, Statement};
use parse_exprs::{
    Parsed, ReadError, comes_key, expression, first_token, key, key_at, name, sign, too_nested,
};
use std::alloc::Global;

// Whether statements begin with this token.
#[tactic(auto, unfolding(orca_grammar::specs::Sets::statement_firsts))]
fn begins(kind: &TokenKind) -> bool
    ensures { result ≡ is_any statement_firsts kind.now }
{
    match kind {
        TokenKind::Name { .. } => true,
        TokenKind::Key { word } => matches!(
            word,
            Keyword::KeyReturn
                | Keyword::KeyIf
                | Keyword::KeyWhile
                | Keyword::KeyFor
                | Keyword::KeyRepeat
                | Keyword::KeyFork
                | Keyword::KeyWriteLine
                | Keyword::KeyInsert
                | Keyword::KeyDelete
        ),
        _ => false,
    }
}

// Whether a token comes next with which statements begin.
fn begins_statement(tokens: &[Token]) -> bool
    ensures { result ≡ comes statement_firsts tokens.now }
{
    match tokens {
        [first, ..] => begins(&first.kind),
        [] => false,
    }
}

/// A statement, where so many levels of nesting are left.
#[cycle(statements)]
fn statement(alloc: Global, depth: u32, tokens: &[Token]) -> Parsed<'_, Statement>
    ensures { Parses marks.statement result (nest_at depth StatementPhrase tokens.now) }
{
    if depth == 0 {
        return Err(too_nested(tokens, begins_statement(tokens)));
    }
    alternative(alloc, depth - 1, tokens)
}

// The alternative of a statement that the first token decides.
#[cycle(statements)]
#[tactic(auto, unfolding(orca_grammar::specs::Rules::statement_rule))]
fn alternative(alloc: Global, depth: u32, tokens: &[Token]) -> Parsed<'_, Statement>
    ensures { Parses marks.statement result (phrase StatementPhrase depth rules.statement_rule tokens.now) }
{
    let Some((first, _)) = first_token(tokens) else {
        return refuse(ReadError::Unexpected { rest: tokens });
    };
    match &first.kind {
        TokenKind::Name { .. } => named_statement(alloc, depth, tokens),
        TokenKind::Key { word } => match word {
            Keyword::KeyReturn => return_statement(alloc, depth, tokens),
            Keyword::KeyIf => if_statement(alloc, depth, tokens),
            Keyword::KeyWhile => while_statement(alloc, depth, tokens),
            Keyword::KeyFor => for_statement(alloc, depth, tokens),
            Keyword::KeyRepeat => repeat_statement(alloc, depth, tokens),
            Keyword::KeyFork => fork_statement(alloc, depth, tokens),
            Keyword::KeyWriteLine => write_line(alloc, depth, tokens),
            Keyword::KeyInsert => insert_statement(alloc, depth, tokens),
            Keyword::KeyDelete => delete_statement(alloc, depth, tokens),
            _ => refuse(ReadError::Unexpected { rest: tokens }),
        },
        _ => refuse(ReadError::Unexpected { rest: tokens }),
    }
}

// A statement and the semicolon behind it.
#[cycle(statements)]
#[tactic(auto, unfolding(orca_grammar::specs::Rules::statement_line))]
fn statement_line(alloc: Global, depth: u32, tokens: &[Token]) -> Parsed<'_, Statement>
    ensures { Parses (λ s. marks.statement s ++ word (Sign Semicolon) ∷ []) result (read depth rules.statement_line tokens.now) }
{
    let (statement, rest) = statement(alloc, depth, tokens)?;
    let rest = sign(rest, Symbol::Semicolon)?;
    Ok((statement, rest))
}

/// Statements, as long as one comes, each with a semicolon behind it.
#[cycle(statements)]
#[tactic(auto, unfolding(orca_grammar::specs::Rules::statements))]
pub fn statements(alloc: Global, depth: u32, tokens: &[Token]) -> Parsed<'_, Vec<Statement>>
    ensures { Parses (λ ss. marks.statements ss.items) result (read depth rules.statements tokens.now) }
{
    let mut lines = Vec::new(alloc);
    let mut rest = tokens;
    'lines: while begins_statement(rest) {
        let (line, after) = statement_line(alloc, depth, rest)?;
        lines.push(line)?;
        rest = after;
    }
    Ok((lines, rest))
}

// `if` with its arms.
#[cycle(statements)]
#[tactic(auto, unfolding(orca_grammar::specs::Rules::if_rest))]
fn if_statement(alloc: Global, depth: u32, tokens: &[Token]) -> Parsed<'_, Statement>
    ensures { Parses marks.statement result (phrase StatementPhrase depth (rules.key_at KeyIf ⨾ rules.if_rest) tokens.now) }
{
    let (at, rest) = key_at(tokens, Keyword::KeyIf)?;
    let (arms, rest) = arms(alloc, depth, rest)?;
    let rest = key(rest, Keyword::KeyFi)?;
    Ok((branches(at, arms), rest))
}

// The arms of an `if`, from its first test up to `fi`.
#[cycle(statements)]
#[tactic(auto, unfolding(orca_grammar::specs::Rules::arms, orca_grammar::specs::Rules::else_arm))]
fn arms(alloc: Global, depth: u32, tokens: &[Token]) -> Parsed<'_, Vec<Arm>>
    ensures { Parses (λ found. marks.arms found.items) result (read depth rules.arms tokens.now) }
{
    let (mut arms, rest) = when_arms(alloc, depth, tokens)?;
    if !comes_key(rest, Keyword::KeyElse) {
        return Ok((arms, rest));
    }
    let (last, rest) = otherwise(alloc, depth, rest)?;
    arms.push(last)?;
    Ok((arms, rest))
}

// The arms with a test: the first, and each behind an `elsif`.
#[cycle(statements)]
#[tactic(auto, unfolding(orca_grammar::specs::Rules::when_arms, orca_grammar::specs::Rules::elsif_arms))]
fn when_arms(alloc: Global, depth: u32, tokens: &[Token]) -> Parsed<'_, Vec<Arm>>
    ensures arms { Parses (λ found. marks.arms found.items) result (read depth rules.when_arms tokens.now) }
    ensures some { IfOk result (λ x. 1 ≤ length x.0.items) }
{
    let ((test, body), mut rest) = when(alloc, depth, tokens)?;
    let mut arms = vec![in alloc; Arm::When { test, body }]?;
    'arms: while comes_key(rest, Keyword::KeyElsif) {
        let (arm, after) = elsif_arm(alloc, depth, rest)?;
        arms.push(arm)?;
        rest = after;
    }
    Ok((arms, rest))
}

// `elsif` and its arm.
#[cycle(statements)]
#[tactic(auto, unfolding(orca_grammar::specs::Rules::elsif_arm), using(orca_tree::proofs::Rows::when_is))]
fn elsif_arm(alloc: Global, depth: u32, tokens: &[Token]) -> Parsed<'_, Arm>
    ensures { Parses (λ a. word (marks.arm_word a) ∷ marks.arm a) result (read depth rules.elsif_arm tokens.now) }
{
    let rest = key(tokens, Keyword::KeyElsif)?;
    let ((test, body), rest) = when(alloc, depth, rest)?;
    Ok((Arm::When { test, body }, rest))
}

// A test, `then`, and the statements behind it.
#[cycle(statements)]
#[tactic(auto, unfolding(orca_grammar::specs::Rules::when))]
fn when(alloc: Global, depth: u32, tokens: &[Token]) -> Parsed<'_, (Expression, Vec<Statement>)>
    ensures { Parses (λ x. marks.expression x.0 ++ word (Key KeyThen) ∷ marks.statements x.1.items) result
        (read depth rules.when tokens.now) }
{
    let (test, rest) = expression(alloc, depth, tokens)?;
    let rest = key(rest, Keyword::KeyThen)?;
    let (body, rest) = statements(alloc, depth, rest)?;
    Ok(((test, body), rest))
}

// `else` and the statements behind it.
#[cycle(statements)]
#[tactic(auto, unfolding(orca_grammar::specs::Rules::otherwise), using(orca_tree::proofs::Rows::otherwise_is))]
fn otherwise(alloc: Global, depth: u32, tokens: &[Token]) -> Parsed<'_, Arm>
    ensures { Parses (λ a. word (marks.arm_word a) ∷ marks.arm a) result (read depth rules.otherwise tokens.now) }
{
    let rest = key(tokens, Keyword::KeyElse)?;
    let (body, rest) = statements(alloc, depth, rest)?;
    Ok((Arm::Otherwise { body }, rest))
}

// What stands between `while`, or the `..` of a `for`, and its `od`: the test or the last value, and the body.
#[cycle(statements)]
#[tactic(auto, unfolding(orca_grammar::specs::Rules::while_rest))]
fn loop_rest(
    alloc: Global,
    depth: u32,
    tokens: &[Token],
) -> Parsed<'_, (Expression, Vec<Statement>)>
    ensures { Parses
        (λ x. marks.expression x.0 ++ word (Key KeyDo) ∷ (marks.statements x.1.items ++ word (Key KeyOd) ∷ [])) result
        (read depth rules.while_rest tokens.now) }
{
    let (first, rest) = expression(alloc, depth, tokens)?;
    let rest = key(rest, Keyword::KeyDo)?;
    let (body, rest) = statements(alloc, depth, rest)?;
    let rest = key(rest, Keyword::KeyOd)?;
    Ok(((first, body), rest))
}

// `while` with its test and its body.
#[cycle(statements)]
fn while_statement(alloc: Global, depth: u32, tokens: &[Token]) -> Parsed<'_, Statement>
    ensures { Parses marks.statement result (phrase StatementPhrase depth (rules.key_at KeyWhile ⨾ rules.while_rest) tokens.now) }
{
    let (at, rest) = key_at(tokens, Keyword::KeyWhile)?;
    let ((test, body), rest) = loop_rest(alloc, depth, rest)?;
    Ok((while_loop(at, test, body), rest))
}

// The bounds of a `for`, and its body.
#[cycle(statements)]
fn range_rest(alloc: Global, depth: u32, tokens: &[Token]) -> Parsed<'_, (Range, Vec<Statement>)>
    ensures { Parses (λ x. marks.expression x.0.low ++ word (Sign RangeSign) ∷
        (marks.expression x.0.high ++ word (Key KeyDo) ∷ (marks.statements x.1.items ++ word (Key KeyOd) ∷ []))) result
        (read depth (Nested ExpressionPhrase ⨾ rules.sign RangeSign ⨾ rules.while_rest) tokens.now) }
{
    let (low, rest) = expression(alloc, depth, tokens)?;
    let rest = sign(rest, Symbol::Range)?;
    let ((high, body), rest) = loop_rest(alloc, depth, rest)?;
    Ok(((Range { low, high }, body), rest))
}

// `for` with its name, its bounds and its body.
#[cycle(statements)]
#[tactic(auto, unfolding(orca_grammar::specs::Rules::for_rest, orca_grammar::specs::Rules::while_rest))]
fn for_statement(alloc: Global, depth: u32, tokens: &[Token]) -> Parsed<'_, Statement>
    ensures { Parses marks.statement result (phrase StatementPhrase depth (rules.key_at KeyFor ⨾ rules.for_rest) tokens.now) }
{
    let (at, rest) = key_at(tokens, Keyword::KeyFor)?;
    let (name, rest) = name(alloc, rest)?;
    let rest = key(rest, Keyword::KeyIn)?;
    let ((range, body), rest) = range_rest(alloc, depth, rest)?;
    Ok((for_loop(at, name, range, body), rest))
}

// The body of a `repeat`, and its test.
#[cycle(statements)]
#[tactic(auto, unfolding(orca_grammar::specs::Rules::repeat_rest))]
fn repeat_rest(
    alloc: Global,
    depth: u32,
    tokens: &[Token],
) -> Parsed<'_, (Vec<Statement>, Expression)>
    ensures { Parses (λ x. marks.statements x.0.items ++ word (Key KeyUntil) ∷ marks.expression x.1) result
        (read depth rules.repeat_rest tokens.now) }
{
    let (body, rest) = statements(alloc, depth, tokens)?;
    let rest = key(rest, Keyword::KeyUntil)?;
    let (test, rest) = expression(alloc, depth, rest)?;
    Ok(((body, test), rest))
}

// `repeat` with its body and its test.
#[cycle(statements)]
fn repeat_statement(alloc: Global, depth: u32, tokens: &[Token]) -> Parsed<'_, Statement>
    ensures { Parses marks.statement result (phrase StatementPhrase depth (rules.key_at KeyRepeat ⨾ rules.repeat_rest) tokens.now) }
{
    let (at, rest) = key_at(tokens, Keyword::KeyRepeat)?;
    let ((body, test), rest) = repeat_rest(alloc, depth, rest)?;
    Ok((repeat_loop(at, body, test), rest))
}
