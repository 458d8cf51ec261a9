//! The place of a phrase, which is that of its first token.

ghost use Rattle.std.specs.Prelude.{◌≡◌, Some};
ghost use Rattle.orca_tree.specs.Marks.{bound, expression, statement, type_phrase};
ghost use Rattle.orca_tree.specs.Places.{first_place};

use crate::tree::{Bound, Expression, Statement, TypePhrase};
use orca_base::Place;

impl Bound {
    /// The place of its first token.
    pub fn place(&self) -> Place
        ensures { first_place (bound self.now) ≡ Some result }
    {
        match self {
            Bound::Number { at, .. } | Bound::Negative { at, .. } => *at,
            Bound::Named { name } => name.at,
        }
    }
}

impl TypePhrase {
    /// The place of its first token.
    pub fn place(&self) -> Place
        ensures { first_place (type_phrase self.now) ≡ Some result }
    {
        match self {
            TypePhrase::Integer { at }
            | TypePhrase::Boolean { at }
            | TypePhrase::Char { at }
            | TypePhrase::Text { at }
            | TypePhrase::Array { at, .. }
            | TypePhrase::Set { at, .. }
            | TypePhrase::Bag { at, .. } => *at,
            TypePhrase::Named { name } => name.at,
        }
    }
}

impl Expression {
    /// The place of its first token; a chain begins with its first operand.
    pub fn place(&self) -> Place
        ensures { first_place (expression self.now) ≡ Some result }
    {
        match self {
            Expression::Chain { first, .. } => first.place(),
            Expression::Number { at, .. }
            | Expression::Char { at, .. }
            | Expression::Text { at, .. }
            | Expression::Truth { at, .. }
            | Expression::Not { at, .. }
            | Expression::Negative { at, .. }
            | Expression::Parentheses { at, .. }
            | Expression::From { at, .. }
            | Expression::Size { at, .. }
            | Expression::Ordinal { at, .. } => *at,
            Expression::Get { from } => from.name.at,
            Expression::Call { function, .. } => function.at,
            Expression::Invoke { object, .. } => object.at,
        }
    }
}

impl Statement {
    /// The place of its first token.
    pub fn place(&self) -> Place
        ensures { first_place (statement self.now) ≡ Some result }
    {
        match self {
            Statement::Return { at, .. }
            | Statement::If { at, .. }
            | Statement::While { at, .. }
            | Statement::For { at, .. }
            | Statement::Repeat { at, .. }
            | Statement::Fork { at, .. }
            | Statement::WriteLine { at, .. }
            | Statement::Insert { at, .. }
            | Statement::Delete { at, .. } => *at,
            Statement::Assign { to, .. } => to.name.at,
            Statement::Call { function, .. } => function.at,
            Statement::Invoke { object, .. } => object.at,
        }
    }
}
