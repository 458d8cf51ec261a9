//! The words of declarations.

ghost use Rattle.std.specs.Prelude.{◌≡◌, ◌∷◌, ◌++◌, [], OnOk};
ghost use Rattle.std.specs.List.{flat_map};
ghost use Rattle.orca_lexer.specs.declared.token.Keyword.TheVariants.{KeyEnd};
ghost use Rattle.orca_lexer.specs.declared.token.Symbol.TheVariants.{Colon, Semicolon};
ghost use Rattle.orca_lexer.specs.declared.token.TokenKind.TheVariants.{Key, Sign};
ghost use Rattle.orca_grammar.specs.Forms.{spelled};
ghost use Rattle.orca_tree.specs.Marks.{all_variables, block, bound, declaration, definition, enclosed, ended, guard, head, heads, if_any, mode, name_mark, names, opening, operation, operation_body, parameter, parameters, type_phrase, typed_name, typed_names, variables, word};

use super::Speller;
use crate::tree::{
    Block, Bound, Declaration, Definition, Guard, Head, Mode, Name, Operation, OperationBody,
    Parameter, Statement, TypePhrase, TypedName, Variables,
};
use orca_base::NoMemory;
use orca_lexer::{Keyword, Symbol};

#[tactic(auto, using(crate::proofs::Spelled::spelling))]
impl Speller {
    pub(super) fn declaration(&mut self, d: &Declaration) -> Result<(), NoMemory>
        ensures { OnOk result (self.new ≡ self.old ++ spelled (declaration d.now)) }
    {
        match d {
            Declaration::Constant { name, value, .. } => self.constant(name, value),
            Declaration::Type {
                name,
                definition,
                ..
            } => self.type_declaration(name, definition),
            Declaration::Specification { name, heads, .. } => self.specification(name, heads),
            Declaration::Implementation {
                name,
                fields,
                operations,
                opening,
                ..
            } => self.implementation(name, fields, operations, opening),
            Declaration::Function {
                name,
                parameters,
                result,
                body,
                ..
            } => {
                self.key(Keyword::KeyFunction)?;
                self.parameter_list(name, parameters)?;
                self.result(result)?;
                self.sign(Symbol::Semicolon)?;
                self.block(body)
            }
            Declaration::Process {
                name,
                parameters,
                body,
                ..
            } => {
                self.key(Keyword::KeyProcess)?;
                self.parameter_list(name, parameters)?;
                self.sign(Symbol::Semicolon)?;
                self.block(body)
            }
        }
    }

    // The words of a constant.
    fn constant(&mut self, name: &Name, value: &Bound) -> Result<(), NoMemory>
        ensures { OnOk result
            (self.new ≡ self.old ++ Key Keyword.KeyConst ∷
            spelled (name_mark name.now ∷ word (Sign Symbol.Equals) ∷ (bound value.now ++ word (Sign Semicolon) ∷ []))) }
    {
        self.key(Keyword::KeyConst)?;
        self.name(name)?;
        self.sign(Symbol::Equals)?;
        self.bound(value)?;
        self.sign(Symbol::Semicolon)
    }

    // The words of a type's declaration.
    fn type_declaration(&mut self, name: &Name, of: &Definition) -> Result<(), NoMemory>
        ensures { OnOk result
            (self.new ≡ self.old ++ Key Keyword.KeyType ∷
            spelled (name_mark name.now ∷ word (Sign Symbol.Equals) ∷ (definition of.now ++ word (Sign Semicolon) ∷ []))) }
    {
        self.key(Keyword::KeyType)?;
        self.name(name)?;
        self.sign(Symbol::Equals)?;
        self.definition(of)?;
        self.sign(Symbol::Semicolon)
    }

    // The words of a definition.
    fn definition(&mut self, d: &Definition) -> Result<(), NoMemory>
        ensures { OnOk result (self.new ≡ self.old ++ spelled (definition d.now)) }
    {
        match d {
            Definition::Record { fields, .. } => {
                self.key(Keyword::KeyRecord)?;
                self.fields(fields)?;
                self.key(Keyword::KeyEnd)
            }
            Definition::Enumeration { names, .. } => {
                self.key(Keyword::KeyEnum)?;
                self.sign(Symbol::Opens)?;
                self.names(names)?;
                self.sign(Symbol::Closes)
            }
            Definition::Alias { of } => self.type_phrase(of),
        }
    }

    // The words of fields.
    #[tactic(auto, using(crate::proofs::Spelled::spelling_steps))]
    fn fields(&mut self, all: &[TypedName]) -> Result<(), NoMemory>
        ensures { OnOk result (self.new ≡ self.old ++ spelled (flat_map (λ f. typed_name f ++ word (Sign Semicolon) ∷ []) all.now)) }
    {
        for field in all {
            self.typed_name(field)?;
            self.sign(Symbol::Semicolon)?;
        }
        Ok(())
    }

    // The words of a specification.
    fn specification(&mut self, name: &Name, all: &[Head]) -> Result<(), NoMemory>
        ensures { OnOk result
            (self.new ≡ self.old ++ Key Keyword.KeyObject ∷ Key Keyword.KeySpecification ∷
            spelled (name_mark name.now ∷ word (Sign Semicolon) ∷ ended (heads all.now))) }
    {
        self.key(Keyword::KeyObject)?;
        self.key(Keyword::KeySpecification)?;
        self.name(name)?;
        self.sign(Symbol::Semicolon)?;
        self.heads(all)?;
        self.end()
    }

    // Heads, each with a semicolon behind it.
    #[tactic(auto, using(crate::proofs::Spelled::spelling_steps))]
    fn heads(&mut self, all: &[Head]) -> Result<(), NoMemory>
        ensures { OnOk result (self.new ≡ self.old ++ spelled (heads all.now)) }
    {
        for head in all {
            self.head(head)?;
            self.sign(Symbol::Semicolon)?;
        }
        Ok(())
    }

    // The words of an operation's head.
    fn head(&mut self, h: &Head) -> Result<(), NoMemory>
        ensures { OnOk result (self.new ≡ self.old ++ spelled (head h.now)) }
    {
        self.key(Keyword::KeyOperation)?;
        self.name(&h.name)?;
        self.sign(Symbol::Opens)?;
        self.typed_names(&h.parameters)?;
        self.sign(Symbol::Closes)?;
        self.result(&h.result)
    }

    // The words of an implementation.
    fn implementation(
        &mut self,
        name: &Name,
        fields: &[Variables],
        operations: &[Operation],
        begins: &Option<Vec<Statement>>,
    ) -> Result<(), NoMemory>
        ensures { OnOk result
            (self.new ≡ self.old ++ Key Keyword.KeyObject ∷ Key Keyword.KeyImplementation ∷
            spelled (name_mark name.now ∷ word (Sign Semicolon)
            ∷ ended (all_variables fields.now ++ (flat_map operation operations.now ++ if_any (λ ss. opening ss.items) begins.now)))) }
    {
        self.key(Keyword::KeyObject)?;
        self.key(Keyword::KeyImplementation)?;
        self.name(name)?;
        self.sign(Symbol::Semicolon)?;
        self.variables(fields)?;
        self.operations(operations)?;
        self.opening(begins)?;
        self.end()
    }

    // The statements that open an object, if there are such.
    fn opening(&mut self, begins: &Option<Vec<Statement>>) -> Result<(), NoMemory>
        ensures { OnOk result (self.new ≡ self.old ++ spelled (if_any (λ ss. opening ss.items) begins.now)) }
    {
        match begins {
            Some(statements) => {
                self.key(Keyword::KeyBegin)?;
                self.statements(statements)
            }
            None => Ok(()),
        }
    }

    // The words of operations.
    #[tactic(auto, using(crate::proofs::Spelled::spelling_steps))]
    fn operations(&mut self, all: &[Operation]) -> Result<(), NoMemory>
        ensures { OnOk result (self.new ≡ self.old ++ spelled (flat_map operation all.now)) }
    {
        for operation in all {
            self.operation(operation)?;
        }
        Ok(())
    }

    // The words of an operation.
    fn operation(&mut self, o: &Operation) -> Result<(), NoMemory>
        ensures { OnOk result (self.new ≡ self.old ++ spelled (operation o.now)) }
    {
        self.head(&o.head)?;
        self.sign(Symbol::Semicolon)?;
        self.variables(&o.variables)?;
        self.key(Keyword::KeyBegin)?;
        self.operation_body(&o.body)?;
        self.end()
    }

    // The guards of an operation, or its statements.
    fn operation_body(&mut self, body: &OperationBody) -> Result<(), NoMemory>
        ensures { OnOk result (self.new ≡ self.old ++ spelled (operation_body body.now)) }
    {
        match body {
            OperationBody::Guarded { first, others } => {
                self.guard(first)?;
                self.guards(others)
            }
            OperationBody::Plain { statements } => self.statements(statements),
        }
    }

    // The words of guards.
    #[tactic(auto, using(crate::proofs::Spelled::spelling_steps))]
    fn guards(&mut self, all: &[Guard]) -> Result<(), NoMemory>
        ensures { OnOk result (self.new ≡ self.old ++ spelled (flat_map guard all.now)) }
    {
        for guard in all {
            self.guard(guard)?;
        }
        Ok(())
    }

    // The words of a guard.
    fn guard(&mut self, g: &Guard) -> Result<(), NoMemory>
        ensures { OnOk result (self.new ≡ self.old ++ spelled (guard g.now)) }
    {
        self.key(Keyword::KeyGuard)?;
        self.expression(&g.test)?;
        self.body(&g.body)?;
        self.sign(Symbol::Semicolon)
    }

    // The words of a block.
    fn block(&mut self, b: &Block) -> Result<(), NoMemory>
        ensures { OnOk result (self.new ≡ self.old ++ spelled (block b.now)) }
    {
        self.variables(&b.variables)?;
        self.key(Keyword::KeyBegin)?;
        self.statements(&b.statements)?;
        self.end()
    }

    /// The end of a declaration.
    fn end(&mut self) -> Result<(), NoMemory>
        ensures { OnOk result (self.new ≡ self.old ++ Key KeyEnd ∷ Sign Semicolon ∷ []) }
    {
        self.key(Keyword::KeyEnd)?;
        self.sign(Symbol::Semicolon)
    }

    /// A name, and parameters in parentheses.
    fn parameter_list(&mut self, name: &Name, all: &[Parameter]) -> Result<(), NoMemory>
        ensures { OnOk result (self.new ≡ self.old ++ spelled (name_mark name.now ∷ enclosed (parameters all.now))) }
    {
        self.name(name)?;
        self.sign(Symbol::Opens)?;
        self.parameters(all)?;
        self.sign(Symbol::Closes)
    }

    // Parameters with semicolons between them.
    #[tactic(auto, using(crate::proofs::Spelled::spelling_steps))]
    fn parameters(&mut self, all: &[Parameter]) -> Result<(), NoMemory>
        ensures { OnOk result (self.new ≡ self.old ++ spelled (parameters all.now)) }
    {
        for (index, parameter) in all.iter().enumerate() {
            self.separator(Symbol::Semicolon, index)?;
            self.parameter(parameter)?;
        }
        Ok(())
    }

    // The words of a parameter.
    fn parameter(&mut self, p: &Parameter) -> Result<(), NoMemory>
        ensures { OnOk result (self.new ≡ self.old ++ spelled (parameter p.now)) }
    {
        self.name(&p.name)?;
        self.sign(Symbol::Colon)?;
        self.mode(p.mode)?;
        self.type_phrase(&p.kind)
    }

    // How a parameter is passed.
    fn mode(&mut self, m: Mode) -> Result<(), NoMemory>
        ensures { OnOk result (self.new ≡ self.old ++ spelled (mode m)) }
    {
        match m {
            Mode::Value => Ok(()),
            Mode::Shared => self.key(Keyword::KeyShared),
            Mode::Out => self.key(Keyword::KeyOut),
        }
    }

    /// The type of a result, if there is one.
    fn result(&mut self, of: &Option<TypePhrase>) -> Result<(), NoMemory>
        ensures { OnOk result (self.new ≡ self.old ++ spelled (if_any (λ t. word (Sign Colon) ∷ type_phrase t) of.now)) }
    {
        match of {
            Some(of) => {
                self.sign(Symbol::Colon)?;
                self.type_phrase(of)
            }
            None => Ok(()),
        }
    }

    // The words of variables.
    #[tactic(auto, using(crate::proofs::Spelled::spelling_steps))]
    fn variables(&mut self, all: &[Variables]) -> Result<(), NoMemory>
        ensures { OnOk result (self.new ≡ self.old ++ spelled (all_variables all.now)) }
    {
        for some in all {
            self.variables_of_type(some)?;
        }
        Ok(())
    }

    // The words of variables of one type.
    fn variables_of_type(&mut self, v: &Variables) -> Result<(), NoMemory>
        ensures { OnOk result (self.new ≡ self.old ++ spelled (variables v.now)) }
    {
        self.names(&v.names)?;
        self.sign(Symbol::Colon)?;
        self.type_phrase(&v.kind)?;
        self.sign(Symbol::Semicolon)
    }

    // Names with commas between them.
    #[tactic(auto, using(crate::proofs::Spelled::spelling_steps))]
    fn names(&mut self, all: &[Name]) -> Result<(), NoMemory>
        ensures { OnOk result (self.new ≡ self.old ++ spelled (names all.now)) }
    {
        for (index, name) in all.iter().enumerate() {
            self.separator(Symbol::Comma, index)?;
            self.name(name)?;
        }
        Ok(())
    }

    // Names with their types, with semicolons between them.
    #[tactic(auto, using(crate::proofs::Spelled::spelling_steps))]
    fn typed_names(&mut self, all: &[TypedName]) -> Result<(), NoMemory>
        ensures { OnOk result (self.new ≡ self.old ++ spelled (typed_names all.now)) }
    {
        for (index, one) in all.iter().enumerate() {
            self.separator(Symbol::Semicolon, index)?;
            self.typed_name(one)?;
        }
        Ok(())
    }

    // A name with its type.
    fn typed_name(&mut self, t: &TypedName) -> Result<(), NoMemory>
        ensures { OnOk result (self.new ≡ self.old ++ spelled (typed_name t.now)) }
    {
        self.name(&t.name)?;
        self.sign(Symbol::Colon)?;
        self.type_phrase(&t.kind)
    }
}
