//! The words of statements.

ghost use Rattle.std.specs.Prelude.{◌≡◌, ◌∷◌, ◌++◌, [], OnOk};
ghost use Rattle.orca_lexer.specs.declared.token.Keyword.TheVariants.{KeyDo, KeyFi, KeyOd, KeyUntil};
ghost use Rattle.orca_lexer.specs.declared.token.Symbol.TheVariants.{Comma};
ghost use Rattle.orca_lexer.specs.declared.token.TokenKind.TheVariants.{Key, Sign};
ghost use Rattle.orca_grammar.specs.Forms.{spelled};
ghost use Rattle.orca_lexer.specs.declared.token.TokenKind.{TokenKind};
ghost use Rattle.orca_tree.specs.Fronts.{in_front};
ghost use Rattle.orca_tree.specs.Marks.{arguments, arm, arm_word, arms, designator, enclosed, expression, if_any, name_mark, statement, statements, word};

use super::Speller;
use crate::tree::{Arm, Designator, Expression, Name, Range, Statement};
use orca_base::NoMemory;
use orca_lexer::{Keyword, Symbol};

#[tactic(auto, using(crate::proofs::Spelled::spelling))]
impl Speller {
    #[cycle(spell_statements)]
    pub(super) fn statement(&mut self, s: &Statement) -> Result<(), NoMemory>
        ensures { OnOk result (self.new ≡ self.old ++ spelled (statement s.now)) }
    {
        match s {
            Statement::Return { value, .. } => self.return_with(value),
            Statement::If { arms, .. } => self.choice(arms),
            Statement::While { test, body, .. } => self.while_loop(body, test),
            Statement::For {
                name,
                range,
                body,
                ..
            } => self.for_loop(name, range, body),
            Statement::Repeat { body, test, .. } => self.repeat_loop(body, test),
            Statement::Fork {
                process,
                arguments,
                on,
                ..
            } => self.fork(process, arguments, on),
            Statement::WriteLine { arguments, .. } => {
                self.key(Keyword::KeyWriteLine)?;
                self.argument_list(arguments)
            }
            Statement::Insert { element, into, .. } => {
                self.key(Keyword::KeyInsert)?;
                self.element_and_designator(element, into)
            }
            Statement::Delete { element, from, .. } => {
                self.key(Keyword::KeyDelete)?;
                self.element_and_designator(element, from)
            }
            Statement::Assign { to, value } => {
                self.designator(to)?;
                self.sign(Symbol::Becomes)?;
                self.expression(value)
            }
            Statement::Call {
                function,
                arguments,
            } => self.call(function, arguments),
            Statement::Invoke {
                object,
                operation,
                arguments,
            } => self.invoke(object, operation, arguments),
        }
    }

    /// Statements, each with a semicolon behind it.
    #[cycle(spell_statements)]
    #[tactic(auto, using(crate::proofs::Spelled::spelling_steps))]
    pub(super) fn statements(&mut self, all: &[Statement]) -> Result<(), NoMemory>
        ensures { OnOk result (self.new ≡ self.old ++ spelled (statements all.now)) }
    {
        for s in all {
            self.statement(s)?;
            self.sign(Symbol::Semicolon)?;
        }
        Ok(())
    }

    // The arms of an `if`, and its `fi`.
    #[cycle(spell_statements)]
    fn choice(&mut self, all: &[Arm]) -> Result<(), NoMemory>
        ensures { OnOk result (self.new ≡ self.old ++ Key Keyword.KeyIf ∷ spelled (arms all.now ++ word (Key KeyFi) ∷ [])) }
    {
        self.key(Keyword::KeyIf)?;
        self.arms(all)?;
        self.key(Keyword::KeyFi)
    }

    // The words of arms, each but the first behind its keyword.
    #[cycle(spell_statements)]
    #[tactic(auto, using(crate::proofs::Spelled::spelling_steps))]
    fn arms(&mut self, all: &[Arm]) -> Result<(), NoMemory>
        ensures { OnOk result (self.new ≡ self.old ++ spelled (arms all.now)) }
    {
        for (index, arm) in all.iter().enumerate() {
            self.arm_word(arm, index)?;
            self.arm(arm)?;
        }
        Ok(())
    }

    // The words of an arm, behind its keyword.
    #[cycle(spell_statements)]
    fn arm(&mut self, a: &Arm) -> Result<(), NoMemory>
        ensures { OnOk result (self.new ≡ self.old ++ spelled (arm a.now)) }
    {
        match a {
            Arm::When { test, body } => self.when(body, test),
            Arm::Otherwise { body } => self.statements(body),
        }
    }

    // A test, `then`, and the statements behind it.
    #[cycle(spell_statements)]
    fn when(&mut self, body: &[Statement], test: &Expression) -> Result<(), NoMemory>
        ensures { OnOk result (self.new ≡ self.old ++ spelled (expression test.now ++ word (Key Keyword.KeyThen) ∷ statements body.now)) }
    {
        self.expression(test)?;
        self.key(Keyword::KeyThen)?;
        self.statements(body)
    }

    // The words of a `while`.
    #[cycle(spell_statements)]
    fn while_loop(&mut self, body: &[Statement], test: &Expression) -> Result<(), NoMemory>
        ensures { OnOk result
            (self.new ≡ self.old ++ Key Keyword.KeyWhile ∷
            spelled (expression test.now ++ word (Key KeyDo) ∷ (statements body.now ++ word (Key KeyOd) ∷ []))) }
    {
        self.key(Keyword::KeyWhile)?;
        self.expression(test)?;
        self.body(body)
    }

    // The words of a `for`.
    #[cycle(spell_statements)]
    fn for_loop(&mut self, name: &Name, range: &Range, body: &[Statement]) -> Result<(), NoMemory>
        ensures { OnOk result
            (self.new ≡ self.old ++ Key Keyword.KeyFor ∷ TokenKind.Name name.now.text ∷ Key Keyword.KeyIn ∷
            spelled (expression range.now.low ++ word (Sign Symbol.Range) ∷
            (expression range.now.high ++ word (Key KeyDo) ∷ (statements body.now ++ word (Key KeyOd) ∷ [])))) }
    {
        self.key(Keyword::KeyFor)?;
        self.name(name)?;
        self.key(Keyword::KeyIn)?;
        self.range(range)?;
        self.body(body)
    }

    /// Statements between `do` and `od`.
    #[cycle(spell_statements)]
    pub(super) fn body(&mut self, body: &[Statement]) -> Result<(), NoMemory>
        ensures { OnOk result (self.new ≡ self.old ++ Key KeyDo ∷ spelled (statements body.now ++ word (Key KeyOd) ∷ [])) }
    {
        self.key(Keyword::KeyDo)?;
        self.statements(body)?;
        self.key(Keyword::KeyOd)
    }

    // The words of a `repeat`.
    #[cycle(spell_statements)]
    fn repeat_loop(&mut self, body: &[Statement], test: &Expression) -> Result<(), NoMemory>
        ensures { OnOk result
            (self.new ≡ self.old ++ Key Keyword.KeyRepeat ∷ spelled (statements body.now ++ word (Key KeyUntil) ∷ expression test.now)) }
    {
        self.key(Keyword::KeyRepeat)?;
        self.statements(body)?;
        self.key(Keyword::KeyUntil)?;
        self.expression(test)
    }

    /// The word in front of each arm but the first.
    fn arm_word(&mut self, a: &Arm, index: usize) -> Result<(), NoMemory>
        ensures { OnOk result (self.new ≡ self.old ++ in_front index (arm_word a.now)) }
    {
        if index == 0 {
            return Ok(());
        }
        match a {
            Arm::When { .. } => self.key(Keyword::KeyElsif),
            Arm::Otherwise { .. } => self.key(Keyword::KeyElse),
        }
    }

    // The words of a range.
    fn range(&mut self, r: &Range) -> Result<(), NoMemory>
        ensures { OnOk result (self.new ≡ self.old ++ spelled (expression r.now.low ++ word (Sign Symbol.Range) ∷ expression r.now.high)) }
    {
        self.expression(&r.low)?;
        self.sign(Symbol::Range)?;
        self.expression(&r.high)
    }

    // The words of a `return`.
    fn return_with(&mut self, value: &Option<Expression>) -> Result<(), NoMemory>
        ensures { OnOk result (self.new ≡ self.old ++ Key Keyword.KeyReturn ∷ spelled (if_any expression value.now)) }
    {
        self.key(Keyword::KeyReturn)?;
        match value {
            Some(value) => self.expression(value),
            None => Ok(()),
        }
    }

    // The words of a `fork`.
    fn fork(
        &mut self,
        process: &Name,
        given: &[Expression],
        on: &Option<Expression>,
    ) -> Result<(), NoMemory>
        ensures { OnOk result
            (self.new ≡ self.old ++ Key Keyword.KeyFork ∷
            spelled (name_mark process.now ∷
            (enclosed (arguments given.now) ++ if_any (λ e. word (Key Keyword.KeyOn) ∷ expression e) on.now))) }
    {
        self.key(Keyword::KeyFork)?;
        self.call(process, given)?;
        match on {
            Some(on) => {
                self.key(Keyword::KeyOn)?;
                self.expression(on)
            }
            None => Ok(()),
        }
    }

    // An element, and the set or bag that it is put into or taken from.
    fn element_and_designator(
        &mut self,
        element: &Expression,
        d: &Designator,
    ) -> Result<(), NoMemory>
        ensures { OnOk result (self.new ≡ self.old ++ spelled (enclosed (expression element.now ++ word (Sign Comma) ∷ designator d.now))) }
    {
        self.sign(Symbol::Opens)?;
        self.expression(element)?;
        self.sign(Symbol::Comma)?;
        self.designator(d)?;
        self.sign(Symbol::Closes)
    }
}
