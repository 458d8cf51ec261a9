//! The words of expressions.

ghost use Rattle.std.specs.Prelude.{◌≡◌, ◌∷◌, ◌++◌, [], OnOk};
ghost use Rattle.std.specs.List.{flat_map};
ghost use Rattle.orca_lexer.specs.declared.token.Symbol.TheVariants.{Dollar};
ghost use Rattle.orca_lexer.specs.declared.token.TokenKind.TheVariants.{Sign};
ghost use Rattle.orca_grammar.specs.Forms.{spelled};
ghost use Rattle.orca_tree.specs.Marks.{arguments, designator, enclosed, expression, link, name_mark, operand, selector, selectors, word};

use super::Speller;
use crate::tree::{Designator, Expression, Link, Name, Selector};
use orca_base::NoMemory;
use orca_lexer::{Keyword, Symbol, TokenKind};

#[tactic(auto, using(crate::proofs::Spelled::spelling))]
impl Speller {
    #[cycle(spell_expressions)]
    pub(super) fn expression(&mut self, e: &Expression) -> Result<(), NoMemory>
        ensures { OnOk result (self.new ≡ self.old ++ spelled (operand e.now)) }
    {
        match e {
            Expression::Chain { first, links } => {
                self.expression(first)?;
                self.links(links)
            }
            Expression::Number { value, .. } => self.number(*value),
            Expression::Char { code, .. } => self.put(TokenKind::Char { code: *code }),
            Expression::Text { text, .. } => self.text(text),
            Expression::Truth { value, .. } => self.truth(*value),
            Expression::Not { operand, .. } => {
                self.key(Keyword::KeyNot)?;
                self.expression(operand)
            }
            Expression::Negative { operand, .. } => {
                self.sign(Symbol::Minus)?;
                self.expression(operand)
            }
            Expression::Parentheses { inner, .. } => self.in_parentheses(inner),
            Expression::From { source, .. } => self.from(source),
            Expression::Size { of, .. } => {
                self.key(Keyword::KeySize)?;
                self.in_parentheses(of)
            }
            Expression::Ordinal { of, .. } => {
                self.key(Keyword::KeyOrd)?;
                self.in_parentheses(of)
            }
            Expression::Get { from } => self.designator(from),
            Expression::Call {
                function,
                arguments,
            } => self.call(function, arguments),
            Expression::Invoke {
                object,
                operation,
                arguments,
            } => self.invoke(object, operation, arguments),
        }
    }

    // An expression in parentheses.
    #[cycle(spell_expressions)]
    fn in_parentheses(&mut self, e: &Expression) -> Result<(), NoMemory>
        ensures { OnOk result (self.new ≡ self.old ++ spelled (enclosed (expression e.now))) }
    {
        self.sign(Symbol::Opens)?;
        self.expression(e)?;
        self.sign(Symbol::Closes)
    }

    // The words of links: each operator with its right operand.
    #[cycle(spell_expressions)]
    #[tactic(auto, using(crate::proofs::Spelled::spelling_steps))]
    fn links(&mut self, links: &[Link]) -> Result<(), NoMemory>
        ensures { OnOk result (self.new ≡ self.old ++ spelled (flat_map link links.now)) }
    {
        for link in links {
            self.operator(link.operator)?;
            self.expression(&link.right)?;
        }
        Ok(())
    }

    // The words of a `from`.
    #[cycle(spell_expressions)]
    fn from(&mut self, source: &Designator) -> Result<(), NoMemory>
        ensures { OnOk result (self.new ≡ self.old ++ TokenKind.Key Keyword.KeyFrom ∷ spelled (enclosed (designator source.now))) }
    {
        self.key(Keyword::KeyFrom)?;
        self.sign(Symbol::Opens)?;
        self.designator(source)?;
        self.sign(Symbol::Closes)
    }

    #[cycle(spell_expressions)]
    pub(super) fn designator(&mut self, d: &Designator) -> Result<(), NoMemory>
        ensures { OnOk result (self.new ≡ self.old ++ spelled (designator d.now)) }
    {
        self.name(&d.name)?;
        self.path(&d.path)
    }

    // The words of selectors.
    #[cycle(spell_expressions)]
    #[tactic(auto, using(crate::proofs::Spelled::spelling_steps))]
    fn path(&mut self, path: &[Selector]) -> Result<(), NoMemory>
        ensures { OnOk result (self.new ≡ self.old ++ spelled (selectors path.now)) }
    {
        for step in path {
            self.selector(step)?;
        }
        Ok(())
    }

    // The words of a selector.
    #[cycle(spell_expressions)]
    fn selector(&mut self, step: &Selector) -> Result<(), NoMemory>
        ensures { OnOk result (self.new ≡ self.old ++ spelled (selector step.now)) }
    {
        match step {
            Selector::Field { name, .. } => {
                self.sign(Symbol::Period)?;
                self.name(name)
            }
            Selector::Index { index, .. } => {
                self.sign(Symbol::OpensIndex)?;
                self.expression(index)?;
                self.sign(Symbol::ClosesIndex)
            }
        }
    }

    #[cycle(spell_expressions)]
    pub(super) fn call(&mut self, function: &Name, given: &[Expression]) -> Result<(), NoMemory>
        ensures { OnOk result (self.new ≡ self.old ++ spelled (name_mark function.now ∷ enclosed (arguments given.now))) }
    {
        self.name(function)?;
        self.argument_list(given)
    }

    #[cycle(spell_expressions)]
    pub(super) fn invoke(
        &mut self,
        object: &Name,
        operation: &Name,
        given: &[Expression],
    ) -> Result<(), NoMemory>
        ensures { OnOk result
            (self.new ≡ self.old ++
            spelled (name_mark object.now ∷ word (Sign Dollar) ∷ name_mark operation.now ∷ enclosed (arguments given.now))) }
    {
        self.name(object)?;
        self.sign(Symbol::Dollar)?;
        self.name(operation)?;
        self.argument_list(given)
    }

    /// Arguments in parentheses.
    #[cycle(spell_expressions)]
    pub(super) fn argument_list(&mut self, given: &[Expression]) -> Result<(), NoMemory>
        ensures { OnOk result (self.new ≡ self.old ++ spelled (enclosed (arguments given.now))) }
    {
        self.sign(Symbol::Opens)?;
        self.arguments(given)?;
        self.sign(Symbol::Closes)
    }

    // Arguments with commas between them.
    #[cycle(spell_expressions)]
    #[tactic(auto, using(crate::proofs::Spelled::spelling_steps))]
    fn arguments(&mut self, given: &[Expression]) -> Result<(), NoMemory>
        ensures { OnOk result (self.new ≡ self.old ++ spelled (arguments given.now)) }
    {
        for (index, e) in given.iter().enumerate() {
            self.separator(Symbol::Comma, index)?;
            self.expression(e)?;
        }
        Ok(())
    }
}
