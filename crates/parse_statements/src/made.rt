//! Statements made of their parts.

ghost use Rattle.std.specs.Prelude.{◌≡◌, ◌∷◌, ◌++◌, []};
ghost use Rattle.orca_lexer.specs.declared.token.Keyword.TheVariants.{KeyDo, KeyFi, KeyFor, KeyIf, KeyIn, KeyOd, KeyRepeat, KeyUntil, KeyWhile};
ghost use Rattle.orca_lexer.specs.declared.token.Symbol.TheVariants.{Range as RangeSign};
ghost use Rattle.orca_lexer.specs.declared.token.TokenKind.TheVariants.{Key, Sign};
ghost use Rattle.orca_tree.specs.Marks as marks;
ghost use Rattle.orca_tree.specs.Marks.{word, word_at, name_mark};

use orca_base::Place;
use orca_tree::{Arm, Expression, Name, Range, Statement};

/// `if` with its arms.
pub fn branches(at: Place, arms: Vec<Arm>) -> Statement
    ensures { marks.statement result ≡ marks.statement_of (word_at at (Key KeyIf) ∷ (marks.arms arms.items ++ word (Key KeyFi) ∷ [])) }
{
    Statement::If { at, arms }
}

/// `while` with its test and its body.
pub fn while_loop(at: Place, test: Expression, body: Vec<Statement>) -> Statement
    ensures { marks.statement result ≡
        marks.statement_of (word_at at (Key KeyWhile) ∷
        (marks.expression test ++ word (Key KeyDo) ∷ (marks.statements body.items ++ word (Key KeyOd) ∷ []))) }
{
    Statement::While { at, test, body }
}

/// `for` with its name, its bounds and its body.
pub fn for_loop(at: Place, name: Name, range: Range, body: Vec<Statement>) -> Statement
    ensures { marks.statement result ≡
        marks.statement_of (word_at at (Key KeyFor) ∷ name_mark name ∷ word (Key KeyIn) ∷
        (marks.expression range.low ++ word (Sign RangeSign) ∷
        (marks.expression range.high ++ word (Key KeyDo) ∷ (marks.statements body.items ++ word (Key KeyOd) ∷ [])))) }
{
    Statement::For {
        at,
        name,
        range,
        body,
    }
}

/// `repeat` with its body and its test.
pub fn repeat_loop(at: Place, body: Vec<Statement>, test: Expression) -> Statement
    ensures { marks.statement result ≡
        marks.statement_of (word_at at (Key KeyRepeat) ∷ (marks.statements body.items ++ word (Key KeyUntil) ∷ marks.expression test)) }
{
    Statement::Repeat { at, body, test }
}
