//! Places of expressions.

ghost use Rattle.std.specs.Prelude.{◌≡◌};
ghost use Rattle.orca_syntax.specs.Places.{expr_place};
ghost use Rattle.orca_syntax.specs.Shown.{expr};

use orca_base::Place;
use orca_tree::Expression;

/// The place of an expression, which is that of its first token.
#[tactic(auto, using(orca_syntax::proofs::ShownLaws::phrases))]
pub fn place_of(e: &Expression) -> Place
    ensures { result ≡ expr_place (expr e.now) }
{
    match e {
        Expression::Chain { first, .. } => place_of(first),
        Expression::Number { at, .. }
        | Expression::Char { at, .. }
        | Expression::Text { at, .. }
        | Expression::Truth { at, .. }
        | Expression::Not { at, .. }
        | Expression::Negative { at, .. }
        | Expression::Parentheses { at, .. }
        | Expression::From { at, .. }
        | Expression::Size { at, .. }
        | Expression::Ordinal { at, .. } => *at,
        Expression::Get { from } => from.name.at,
        Expression::Call { function, .. } => function.at,
        Expression::Invoke { object, .. } => object.at,
    }
}
