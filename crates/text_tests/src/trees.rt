//! Trees: how expressions are grouped, how nesting is counted, and what a unit prints.

ghost use Rattle.std.specs.Prelude.{IfOk};
ghost use Rattle.std.specs.List.{All};
ghost use Rattle.orca_lexer.specs.Tokens.{HasRoom, Tokens};
ghost use Rattle.orca_syntax.specs.TextSyntax.{IsOfText};

use orca_base::{NESTING, Place, Refusal};
use orca_lexer::{Token, tokens};
use orca_tree::{Expression, Operator, Unit, print_tree};
use parse_exprs::{ReadError, expression};
use parse_units::{ParseError, parse, parse_law};
use std::alloc::Global;
use std::test::Fail;

// The tokens of a text.
fn tokens_of(alloc: Global, text: &str) -> Result<Vec<Token>, Fail>
    ensures room { IfOk result (λ v. All HasRoom v.items) }
    ensures tokens { IfOk result (λ v. Tokens text.now v.items) }
{
    if text.len() > 1_000_000 {
        return Err("too long".into());
    }
    match tokens(alloc, text.as_bytes()) {
        Ok(found) => Ok(found),
        Err(_) => Err("no tokens".into()),
    }
}

// The unit that a text is.
pub fn unit_of(alloc: Global, text: &str) -> Result<Unit, Fail>
    ensures { IfOk result (λ u. ∥ IsOfText u ∥₁) }
{
    let tokens = tokens_of(alloc, text)?;
    match parse(alloc, tokens.as_slice()) {
        Ok(unit) => Ok(unit),
        Err(_) => Err("refused".into()),
    }
}

// What an expression of numbers comes to, by the grouping of its tree. Anything else counts 7.
fn value_of(e: &Expression) -> i64 {
    match e {
        Expression::Chain { first, links } => {
            let mut total = value_of(first);
            for link in links {
                let right = value_of(&link.right);
                total = match link.operator {
                    Operator::Add => total.wrapping_add(right),
                    Operator::Subtract => total.wrapping_sub(right),
                    Operator::Multiply => total.wrapping_mul(right),
                    Operator::Equal => i64::from(total == right),
                    Operator::And => total & right,
                    _ => total | right,
                };
            }
            total
        }
        Expression::Number { value, .. } => *value,
        Expression::Negative { operand, .. } => value_of(operand).wrapping_neg(),
        Expression::Parentheses { inner, .. } => value_of(inner),
        _ => 7,
    }
}

// The value, or -1 where the text is nested too deep, -2 at an unexpected token; and how many tokens are left.
fn outcome(alloc: Global, depth: u32, tokens: &[Token]) -> (i64, usize) {
    match expression(alloc, depth, tokens) {
        Ok((e, rest)) => (value_of(&e), rest.len()),
        Err(
            Refusal::Because {
                cause: ReadError::TooNested { rest },
            },
        ) => (-1, rest.len()),
        Err(
            Refusal::Because {
                cause: ReadError::Unexpected { rest },
            },
        ) => (-2, rest.len()),
        Err(Refusal::NoMemory) => (-3, 0),
    }
}

#[test]
fn expressions_are_grouped_and_nesting_is_counted(rt: HostRuntime) -> Result<(), Fail> {
    // In the parentheses stands the fourth nested phrase: expression, factor, expression, factor.
    for (text, depth, want) in [
        ("1 - 2 - 3 * (4 - 5) = 2 and 1)", NESTING, (1, 1)),
        ("1 - 2 - 3 * (4 - 5) = 2 and 1)", 4, (1, 1)),
        ("1 - 2 - 3 * (4 - 5) = 2 and 1)", 3, (-1, 9)),
        ("1 = 1 = 1", NESTING, (1, 2)),
        ("1 - 2 - 3 * (", NESTING, (-2, 0)),
        ("- -5 + 1 * 2", NESTING, (7, 0)),
        ("f(1, a.b[2]) = o$g(true)", NESTING, (1, 0)),
        (
            "from(a.b) + not false - size(\"ab\") * ord('a')",
            NESTING,
            (-35, 0),
        ),
        ("f(1,)", NESTING, (-2, 1)),
        ("1", 0, (-1, 1)),
        (")", 0, (-2, 1)),
    ] {
        let tokens = tokens_of(rt.alloc(), text)?;
        assert_eq!(rt;
            outcome(rt.alloc(), depth, tokens.as_slice()),
            want,
            "at {text}"
        );
    }
    Ok(())
}

// A text with each declaration and each statement, as it is printed.
const PRINTED: &str =
    "module m ; import n ; const c = - 1 ; type t = enum ( a , b ) ; type r = record x : integer ; end ; \
    object specification o ; operation p ( x : char ) : t ; end ; object implementation o ; f : array [ \
    1 .. c ] of t ; operation p ( x : char ) : t ; begin guard x do return a ; od ; end ; begin f := 1 \
    ; end ; function g ( x : shared t ; y : t ) : string ; begin repeat x := 1 ; until y ; end ; \
    process q ( ) ; x , y : set of bag of boolean ; begin if x then elsif y then else fi ; while x do \
    od ; for i in 1 .. 1 do g ( 1 ) ; od ; fork q ( ) on 1 ; insert ( 1 , x ) ; delete ( 1 , x ) ; o $ \
    p ( 1 ) ; WriteLine ( x , '\\'' , \"a\\\"\\n\" , not true ) ; return ; end ;\n";

#[test]
fn a_unit_prints_its_words(rt: HostRuntime) -> Result<(), Fail> {
    let unit = unit_of(rt.alloc(), PRINTED)?;
    assert_eq!(rt; print_tree(rt.alloc(), &unit)?.as_str(), PRINTED);
    parse_law();
    Ok(())
}

#[test]
fn a_sum_of_100000_terms_is_read_and_printed(rt: HostRuntime) -> Result<(), Fail> {
    let mut text = String::from_str(rt.alloc(), "process OrcaMain ( ) ; begin WriteLine ( 1")?;
    for _ in 0..99_999 {
        text.push_str(" + 1")?;
    }
    text.push_str(" ) ; end ;\n")?;
    let unit = unit_of(rt.alloc(), text.as_str())?;
    assert!(rt; print_tree(rt.alloc(), &unit)?.as_str() == text.as_str());
    Ok(())
}

// A declaration of a type with so many `set of`.
fn nested(alloc: Global, sets: u8) -> Result<String, Fail> {
    let mut text = String::from_str(alloc, "type t =")?;
    for _ in 0..sets {
        text.push_str(" set of")?;
    }
    text.push_str(" char;")?;
    Ok(text)
}

// The column at which a unit nests too deep, or 0.
fn deep_column(answer: Result<Unit, Refusal<ParseError>>) -> u32 {
    match answer {
        Err(
            Refusal::Because {
                cause: ParseError::TooNested {
                    at: Place { column, .. },
                },
            },
        ) => column,
        _ => 0,
    }
}

#[test]
fn the_sixty_fifth_level_is_too_deep(rt: HostRuntime) -> Result<(), Fail> {
    // Each `set of` takes seven columns, behind the eight of `type t =` and a blank.
    for (sets, want) in [(63, 0), (64, 458), (65, 458)] {
        let text = nested(rt.alloc(), sets)?;
        let tokens = tokens_of(rt.alloc(), text.as_str())?;
        assert_eq!(rt; deep_column(parse(rt.alloc(), tokens.as_slice())), want);
    }
    Ok(())
}
