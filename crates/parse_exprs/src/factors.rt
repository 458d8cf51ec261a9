//! Factors made of their parts.

ghost use Rattle.std.specs.Prelude.{◌≡◌, ◌∷◌, ◌++◌, [], IfOk};
ghost use Rattle.orca_lexer.specs.declared.token.Keyword.TheVariants.{KeyFrom, KeyNot, KeySize, KeyOrd};
ghost use Rattle.orca_lexer.specs.declared.token.Symbol.TheVariants.{Closes, Dollar, Minus, Opens};
ghost use Rattle.orca_lexer.specs.declared.token.TokenKind.TheVariants.{Key, Sign, Text as AText};
ghost use Rattle.orca_tree.specs.Marks.{word as spelled, word_at as spelled_at, name_mark, arguments as arguments_marks, designator as designator_marks, enclosed, factor as factor_marks, operand, whole};
ghost use Rattle.parse_exprs.specs.Chains.{links_marks};

use orca_base::{NoMemory, Place, Text};
use orca_tree::{Designator, Expression, Link, Name};
use std::alloc::Global;

/// A string.
pub fn text(alloc: Global, at: Place, text: &Text) -> Result<Expression, NoMemory>
    ensures { IfOk result (λ e. operand e ≡ factor_marks (spelled_at at (AText text.now) ∷ [])) }
{
    let text = text.copy(alloc)?;
    Ok(Expression::Text { at, text })
}

/// `not` and its operand.
pub fn negation(alloc: Global, at: Place, inner: Expression) -> Result<Expression, NoMemory>
    ensures { IfOk result (λ e. operand e ≡ factor_marks (spelled_at at (Key KeyNot) ∷ operand inner)) }
{
    let operand = Box::new(alloc, inner)?;
    Ok(Expression::Not { at, operand })
}

/// A minus sign and its operand.
pub fn negative(alloc: Global, at: Place, inner: Expression) -> Result<Expression, NoMemory>
    ensures { IfOk result (λ e. operand e ≡ factor_marks (spelled_at at (Sign Minus) ∷ operand inner)) }
{
    let operand = Box::new(alloc, inner)?;
    Ok(Expression::Negative { at, operand })
}

/// An expression in parentheses.
pub fn parentheses(alloc: Global, at: Place, inner: Expression) -> Result<Expression, NoMemory>
    ensures { IfOk result
        (λ e. operand e ≡ factor_marks (spelled_at at (Sign Opens) ∷ (whole (operand inner) ++ spelled (Sign Closes) ∷ []))) }
{
    let inner = Box::new(alloc, inner)?;
    Ok(Expression::Parentheses { at, inner })
}

/// `size` of an expression.
pub fn size(alloc: Global, at: Place, inner: Expression) -> Result<Expression, NoMemory>
    ensures { IfOk result (λ e. operand e ≡ factor_marks (spelled_at at (Key KeySize) ∷ enclosed (whole (operand inner)))) }
{
    let of = Box::new(alloc, inner)?;
    Ok(Expression::Size { at, of })
}

/// `ord` of an expression.
pub fn ordinal(alloc: Global, at: Place, inner: Expression) -> Result<Expression, NoMemory>
    ensures { IfOk result (λ e. operand e ≡ factor_marks (spelled_at at (Key KeyOrd) ∷ enclosed (whole (operand inner)))) }
{
    let of = Box::new(alloc, inner)?;
    Ok(Expression::Ordinal { at, of })
}

/// `from` of a designator.
pub fn from(at: Place, source: Designator) -> Expression
    ensures { operand result ≡ factor_marks (spelled_at at (Key KeyFrom) ∷ enclosed (designator_marks source)) }
{
    Expression::From { at, source }
}

/// A variable, or a part of one.
pub fn get(from: Designator) -> Expression
    ensures { operand result ≡ factor_marks (designator_marks from) }
{
    Expression::Get { from }
}

/// A call of a function.
pub fn call(function: Name, arguments: Vec<Expression>) -> Expression
    ensures { operand result ≡ factor_marks (name_mark function ∷ enclosed (arguments_marks arguments.items)) }
{
    Expression::Call {
        function,
        arguments,
    }
}

/// An operation on an object.
pub fn invoke(object: Name, operation: Name, arguments: Vec<Expression>) -> Expression
    ensures { operand result ≡
        factor_marks (name_mark object ∷ spelled (Sign Dollar) ∷ name_mark operation ∷ enclosed (arguments_marks arguments.items)) }
{
    Expression::Invoke {
        object,
        operation,
        arguments,
    }
}

/// A first operand with its links, or alone where there are none.
pub fn chain(alloc: Global, first: Expression, links: Vec<Link>) -> Result<Expression, NoMemory>
    ensures { IfOk result (λ e. operand e ≡ operand first ++ links_marks links.items) }
{
    if links.is_empty() {
        return Ok(first);
    }
    let first = Box::new(alloc, first)?;
    Ok(Expression::Chain { first, links })
}
