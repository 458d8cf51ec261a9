//! The words of a tree: its tokens in order.

ghost use Rattle.std.specs.Prelude.{◌≡◌, ◌∷◌, ◌++◌, [], IfOk, List, OnOk};
ghost use Rattle.std.specs.List.{flat_map};
ghost use Rattle.orca_lexer.specs.declared.token.TokenKind.{TokenKind};
ghost use Rattle.orca_grammar.specs.Forms.{spelled};
ghost use Rattle.orca_tree.specs.Fronts.{in_front};
ghost use Rattle.orca_tree.specs.Marks.{bound, declaration, import_line, module_line, name_mark, operator_token, truth_token, type_phrase, unit as unit_marks};

mod declarations;
mod expressions;
mod statements;

use crate::tree::{Bound, Declaration, Name, Operator, TypePhrase, Unit};
use orca_base::{NoMemory, Text};
use orca_lexer::{Keyword, Symbol, TokenKind};
use std::alloc::Global;
use std::marker::Model;

/// The words of a text: its tokens in order.
pub fn words(alloc: Global, unit: &Unit) -> Result<Vec<TokenKind>, NoMemory>
    ensures { IfOk result (λ v. v.items ≡ spelled (unit_marks unit.now)) }
{
    let mut speller = Speller {
        alloc,
        words: Vec::new(alloc),
    };
    speller.unit(unit)?;
    Ok(speller.words)
}

/// Words, one after the other.
#[derive(Drop)]
struct Speller {
    alloc: Global,
    words: Vec<TokenKind>,
}

impl Model for Speller {
    ghost Value = { List TokenKind };

    ghost view = { λ s. s.words.items };
}

impl Speller {
    // The words of a unit.
    #[tactic(auto, using(crate::proofs::Spelled::spelling))]
    fn unit(&mut self, u: &Unit) -> Result<(), NoMemory>
        ensures { OnOk result (self.new ≡ self.old ++ spelled (unit_marks u.now)) }
    {
        self.module_line(&u.module)?;
        self.imports(&u.imports)?;
        self.declarations(&u.declarations)
    }

    // The words of a module's line, if there is one.
    fn module_line(&mut self, line: &Option<Name>) -> Result<(), NoMemory>
        ensures { OnOk result (self.new ≡ self.old ++ spelled (module_line line.now)) }
    {
        match line {
            Some(name) => {
                self.key(Keyword::KeyModule)?;
                self.name(name)?;
                self.sign(Symbol::Semicolon)
            }
            None => Ok(()),
        }
    }

    // The words of imports.
    #[tactic(auto, using(crate::proofs::Spelled::spelling_steps))]
    fn imports(&mut self, all: &[Name]) -> Result<(), NoMemory>
        ensures { OnOk result (self.new ≡ self.old ++ spelled (flat_map import_line all.now)) }
    {
        for name in all {
            self.key(Keyword::KeyImport)?;
            self.name(name)?;
            self.sign(Symbol::Semicolon)?;
        }
        Ok(())
    }

    // The words of declarations.
    #[tactic(auto, using(crate::proofs::Spelled::spelling_steps))]
    fn declarations(&mut self, all: &[Declaration]) -> Result<(), NoMemory>
        ensures { OnOk result (self.new ≡ self.old ++ spelled (flat_map declaration all.now)) }
    {
        for declaration in all {
            self.declaration(declaration)?;
        }
        Ok(())
    }

    // Puts a token behind those that are there.
    fn put(&mut self, kind: TokenKind) -> Result<(), NoMemory>
        ensures { OnOk result (self.new ≡ self.old ++ kind ∷ []) }
    {
        self.words.push(kind)?;
        Ok(())
    }

    // Puts a keyword.
    fn key(&mut self, word: Keyword) -> Result<(), NoMemory>
        ensures { OnOk result (self.new ≡ self.old ++ TokenKind.Key word ∷ []) }
    {
        self.put(TokenKind::Key { word })
    }

    // Puts a symbol.
    fn sign(&mut self, symbol: Symbol) -> Result<(), NoMemory>
        ensures { OnOk result (self.new ≡ self.old ++ TokenKind.Sign symbol ∷ []) }
    {
        self.put(TokenKind::Sign { symbol })
    }

    /// A symbol in front of each part of a list but the first.
    #[tactic(auto, using(crate::proofs::Led::fronts))]
    fn separator(&mut self, symbol: Symbol, index: usize) -> Result<(), NoMemory>
        ensures { OnOk result (self.new ≡ self.old ++ in_front index (TokenKind.Sign symbol)) }
    {
        if index == 0 {
            Ok(())
        } else {
            self.sign(symbol)
        }
    }

    // Puts a number.
    fn number(&mut self, value: i64) -> Result<(), NoMemory>
        ensures { OnOk result (self.new ≡ self.old ++ TokenKind.Number value ∷ []) }
    {
        self.put(TokenKind::Number { value })
    }

    // Puts a string.
    fn text(&mut self, text: &Text) -> Result<(), NoMemory>
        ensures { OnOk result (self.new ≡ self.old ++ TokenKind.Text text.now ∷ []) }
    {
        let text = text.copy(self.alloc)?;
        self.put(TokenKind::Text { text })
    }

    // Puts a name.
    fn name(&mut self, name: &Name) -> Result<(), NoMemory>
        ensures { OnOk result (self.new ≡ self.old ++ spelled (name_mark name.now ∷ [])) }
    {
        let name = name.text.copy(self.alloc)?;
        self.put(TokenKind::Name { name })
    }

    // Puts `true` or `false`.
    fn truth(&mut self, value: bool) -> Result<(), NoMemory>
        ensures { OnOk result (self.new ≡ self.old ++ truth_token value ∷ []) }
    {
        if value {
            self.key(Keyword::KeyTrue)
        } else {
            self.key(Keyword::KeyFalse)
        }
    }

    // Puts an operator.
    fn operator(&mut self, operator: Operator) -> Result<(), NoMemory>
        ensures { OnOk result (self.new ≡ self.old ++ operator_token operator ∷ []) }
    {
        match operator {
            Operator::Or => self.key(Keyword::KeyOr),
            Operator::And => self.key(Keyword::KeyAnd),
            Operator::Equal => self.sign(Symbol::Equals),
            Operator::Different => self.sign(Symbol::Differs),
            Operator::Less => self.sign(Symbol::Less),
            Operator::AtMost => self.sign(Symbol::AtMost),
            Operator::Greater => self.sign(Symbol::Greater),
            Operator::AtLeast => self.sign(Symbol::AtLeast),
            Operator::In => self.key(Keyword::KeyIn),
            Operator::Add => self.sign(Symbol::Plus),
            Operator::Subtract => self.sign(Symbol::Minus),
            Operator::Join => self.sign(Symbol::Joins),
            Operator::Multiply => self.sign(Symbol::Times),
            Operator::Divide => self.sign(Symbol::Over),
            Operator::Remainder => self.sign(Symbol::Percent),
        }
    }

    // The words of a bound.
    fn bound(&mut self, b: &Bound) -> Result<(), NoMemory>
        ensures { OnOk result (self.new ≡ self.old ++ spelled (bound b.now)) }
    {
        match b {
            Bound::Number { value, .. } => self.number(*value),
            Bound::Negative { value, .. } => {
                self.sign(Symbol::Minus)?;
                self.number(*value)
            }
            Bound::Named { name } => self.name(name),
        }
    }

    // The words of a type.
    #[tactic(auto, using(crate::proofs::Spelled::spelling))]
    fn type_phrase(&mut self, t: &TypePhrase) -> Result<(), NoMemory>
        ensures { OnOk result (self.new ≡ self.old ++ spelled (type_phrase t.now)) }
    {
        match t {
            TypePhrase::Integer { .. } => self.key(Keyword::KeyInteger),
            TypePhrase::Boolean { .. } => self.key(Keyword::KeyBoolean),
            TypePhrase::Char { .. } => self.key(Keyword::KeyChar),
            TypePhrase::Text { .. } => self.key(Keyword::KeyString),
            TypePhrase::Named { name } => self.name(name),
            TypePhrase::Array {
                low,
                high,
                element,
                ..
            } => {
                self.key(Keyword::KeyArray)?;
                self.sign(Symbol::OpensIndex)?;
                self.bound(low)?;
                self.sign(Symbol::Range)?;
                self.bound(high)?;
                self.sign(Symbol::ClosesIndex)?;
                self.key(Keyword::KeyOf)?;
                self.type_phrase(element)
            }
            TypePhrase::Set { element, .. } => {
                self.key(Keyword::KeySet)?;
                self.key(Keyword::KeyOf)?;
                self.type_phrase(element)
            }
            TypePhrase::Bag { element, .. } => {
                self.key(Keyword::KeyBag)?;
                self.key(Keyword::KeyOf)?;
                self.type_phrase(element)
            }
        }
    }
}
