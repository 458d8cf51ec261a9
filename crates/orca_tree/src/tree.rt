//! The tree of a source text, as the grammar has it: one variant for each alternative, parentheses kept.
//!
//! A chain of operators of one level lies flat, a first operand and its links, so a long chain is no deep tree: for each
//! expression that is open there are at most five chains, one in another. A place is that of the first token of what it stands in.

use orca_base::{Place, Text};

/// A name in a text.
#[derive(Drop)]
pub struct Name {
    pub at: Place,
    pub text: Text,
}

/// A text: its module's name, if it has a `module` line, the modules that it imports, and its declarations.
#[derive(Drop)]
pub struct Unit {
    pub module: Option<Name>,
    pub imports: Vec<Name>,
    pub declarations: Vec<Declaration>,
}

/// A declaration.
pub enum Declaration {
    /// `const` name `=` value.
    Constant {
        at: Place,
        name: Name,
        value: Bound,
    },
    /// `type` name `=` definition.
    Type {
        at: Place,
        name: Name,
        definition: Definition,
    },
    /// `object specification`: the heads of its operations.
    Specification {
        at: Place,
        name: Name,
        heads: Vec<Head>,
    },
    /// `object implementation`: fields, operations, and the statements that open an object, where there are any.
    Implementation {
        at: Place,
        name: Name,
        fields: Vec<Variables>,
        operations: Vec<Operation>,
        opening: Option<Vec<Statement>>,
    },
    /// `function`, with the type of its result, where it has one.
    Function {
        at: Place,
        name: Name,
        parameters: Vec<Parameter>,
        result: Option<TypePhrase>,
        body: Block,
    },
    /// `process`.
    Process {
        at: Place,
        name: Name,
        parameters: Vec<Parameter>,
        body: Block,
    },
}

// By hand, so that a declaration that is dropped is one call, and isn't laid out form by form wherever that happens.
impl Drop for Declaration {
    fn drop(self) {
        match self {
            Declaration::Constant {
                at: _,
                name: _name,
                value: _value,
            } => {}
            Declaration::Type {
                at: _,
                name: _name,
                definition: _definition,
            } => {}
            Declaration::Specification {
                at: _,
                name: _name,
                heads: _heads,
            } => {}
            Declaration::Implementation {
                at: _,
                name: _name,
                fields: _fields,
                operations: _operations,
                opening: _opening,
            } => {}
            Declaration::Function {
                at: _,
                name: _name,
                parameters: _parameters,
                result: _result,
                body: _body,
            } => {}
            Declaration::Process {
                at: _,
                name: _name,
                parameters: _parameters,
                body: _body,
            } => {}
        }
    }
}

/// What a declared type is.
#[derive(Drop)]
pub enum Definition {
    /// `record` fields `end`.
    Record { at: Place, fields: Vec<TypedName> },
    /// `enum` with its names.
    Enumeration { at: Place, names: Vec<Name> },
    /// A type, as it is written.
    Alias { of: TypePhrase },
}

/// A bound of an array, or the value of a constant.
#[derive(Drop)]
pub enum Bound {
    /// A number.
    Number { at: Place, value: i64 },
    /// A number behind `-`.
    Negative { at: Place, value: i64 },
    /// The name of a constant.
    Named { name: Name },
}

/// A type.
#[cycle(types)]
pub enum TypePhrase {
    /// `integer`.
    Integer {
        at: Place,
    },
    /// `boolean`.
    Boolean {
        at: Place,
    },
    /// `char`.
    Char {
        at: Place,
    },
    /// `string`.
    Text {
        at: Place,
    },
    /// A declared type, or an object type.
    Named {
        name: Name,
    },
    /// `array [` low `..` high `] of` element.
    Array {
        at: Place,
        low: Bound,
        high: Bound,
        element: Box<TypePhrase>,
    },
    /// `set of` element.
    Set {
        at: Place,
        element: Box<TypePhrase>,
    },
    /// `bag of` element.
    Bag {
        at: Place,
        element: Box<TypePhrase>,
    },
}

// By hand, so that a type that is dropped is one call, and isn't laid out form by form wherever that happens.
impl Drop for TypePhrase {
    #[cycle(type_drops)]
    fn drop(self) {
        match self {
            TypePhrase::Integer { at: _ }
            | TypePhrase::Boolean { at: _ }
            | TypePhrase::Char { at: _ }
            | TypePhrase::Text { at: _ } => {}
            TypePhrase::Named { name: _name } => {}
            TypePhrase::Array {
                at: _,
                low: _low,
                high: _high,
                element: _element,
            } => {}
            TypePhrase::Set {
                at: _,
                element: _element,
            } => {}
            TypePhrase::Bag {
                at: _,
                element: _element,
            } => {}
        }
    }
}

/// A name with its type: a record's field, or an operation's parameter.
#[derive(Drop)]
pub struct TypedName {
    pub name: Name,
    pub kind: TypePhrase,
}

/// Variables or fields of one type.
#[derive(Drop)]
pub struct Variables {
    pub names: Vec<Name>,
    pub kind: TypePhrase,
}

/// How a parameter is passed.
#[derive(Clone, Copy, Debug, PartialEq, Eq)]
pub enum Mode {
    /// By its value.
    Value,
    /// `shared`.
    Shared,
    /// `out`.
    Out,
}

/// A parameter of a function or a process.
#[derive(Drop)]
pub struct Parameter {
    pub name: Name,
    pub mode: Mode,
    pub kind: TypePhrase,
}

/// The head of an operation.
#[derive(Drop)]
pub struct Head {
    pub at: Place,
    pub name: Name,
    pub parameters: Vec<TypedName>,
    pub result: Option<TypePhrase>,
}

/// An operation of an implementation.
#[derive(Drop)]
pub struct Operation {
    pub head: Head,
    pub variables: Vec<Variables>,
    pub body: OperationBody,
}

/// The body of an operation: guarded alternatives, of which there is at least one, or statements alone.
#[derive(Drop)]
pub enum OperationBody {
    /// Guarded alternatives.
    Guarded { first: Guard, others: Vec<Guard> },
    /// Statements alone.
    Plain { statements: Vec<Statement> },
}

/// A guarded alternative.
#[derive(Drop)]
pub struct Guard {
    pub at: Place,
    pub test: Expression,
    pub body: Vec<Statement>,
}

/// The variables and the statements of a function or a process.
#[derive(Drop)]
pub struct Block {
    pub variables: Vec<Variables>,
    pub statements: Vec<Statement>,
}

/// A statement.
#[cycle(statements)]
pub enum Statement {
    /// `return`, with a value or without.
    Return {
        at: Place,
        value: Option<Expression>,
    },
    /// `if` arms `fi`.
    If {
        at: Place,
        arms: Vec<Arm>,
    },
    /// `while` test `do` body `od`.
    While {
        at: Place,
        test: Expression,
        body: Vec<Statement>,
    },
    /// `for` name `in` range `do` body `od`.
    For {
        at: Place,
        name: Name,
        range: Range,
        body: Vec<Statement>,
    },
    /// `repeat` body `until` test.
    Repeat {
        at: Place,
        body: Vec<Statement>,
        test: Expression,
    },
    /// `fork` process, and the member `on` which it runs, where one is given.
    Fork {
        at: Place,
        process: Name,
        arguments: Vec<Expression>,
        on: Option<Expression>,
    },
    /// `WriteLine` with arguments.
    WriteLine {
        at: Place,
        arguments: Vec<Expression>,
    },
    /// `insert` an element into a set or bag.
    Insert {
        at: Place,
        element: Expression,
        into: Designator,
    },
    /// `delete` an element from a set or bag.
    Delete {
        at: Place,
        element: Expression,
        from: Designator,
    },
    /// designator `:=` value.
    Assign {
        to: Designator,
        value: Expression,
    },
    /// A call of a function.
    Call {
        function: Name,
        arguments: Vec<Expression>,
    },
    /// A call of an operation, object `$` operation.
    Invoke {
        object: Name,
        operation: Name,
        arguments: Vec<Expression>,
    },
}

// By hand, so that a statement that is dropped is one call, and isn't laid out form by form wherever that happens.
impl Drop for Statement {
    #[cycle(statement_drops)]
    fn drop(self) {
        match self {
            Statement::Return {
                at: _,
                value: _value,
            } => {}
            Statement::If { at: _, arms: _arms } => {}
            Statement::While {
                at: _,
                test: _test,
                body: _body,
            } => {}
            Statement::For {
                at: _,
                name: _name,
                range: _range,
                body: _body,
            } => {}
            Statement::Repeat {
                at: _,
                body: _body,
                test: _test,
            } => {}
            Statement::Fork {
                at: _,
                process: _process,
                arguments: _arguments,
                on: _on,
            } => {}
            Statement::WriteLine {
                at: _,
                arguments: _arguments,
            } => {}
            Statement::Insert {
                at: _,
                element: _element,
                into: _into,
            } => {}
            Statement::Delete {
                at: _,
                element: _element,
                from: _from,
            } => {}
            Statement::Assign {
                to: _to,
                value: _value,
            } => {}
            Statement::Call {
                function: _function,
                arguments: _arguments,
            } => {}
            Statement::Invoke {
                object: _object,
                operation: _operation,
                arguments: _arguments,
            } => {}
        }
    }
}

/// An arm of an `if`: one with a test, or the `else` at its end.
#[derive(Drop)]
#[cycle(statements)]
pub enum Arm {
    /// A test `then` a body.
    When {
        test: Expression,
        body: Vec<Statement>,
    },
    /// `else` a body.
    Otherwise {
        body: Vec<Statement>,
    },
}

/// The bounds of a loop that counts up.
#[derive(Drop)]
pub struct Range {
    pub low: Expression,
    pub high: Expression,
}

/// An expression.
#[cycle(expressions)]
pub enum Expression {
    /// Operators of one level, grouped from the left.
    Chain {
        first: Box<Expression>,
        links: Vec<Link>,
    },
    /// A number.
    Number {
        at: Place,
        value: i64,
    },
    /// A character.
    Char {
        at: Place,
        code: u8,
    },
    /// A string.
    Text {
        at: Place,
        text: Text,
    },
    /// `true` or `false`.
    Truth {
        at: Place,
        value: bool,
    },
    /// `not` operand.
    Not {
        at: Place,
        operand: Box<Expression>,
    },
    /// `-` operand.
    Negative {
        at: Place,
        operand: Box<Expression>,
    },
    /// An expression in parentheses.
    Parentheses {
        at: Place,
        inner: Box<Expression>,
    },
    /// `from`: an element that is taken out of a set or bag.
    From {
        at: Place,
        source: Designator,
    },
    /// `size` of an expression.
    Size {
        at: Place,
        of: Box<Expression>,
    },
    /// `ord` of an expression.
    Ordinal {
        at: Place,
        of: Box<Expression>,
    },
    /// The value of a variable, or of a part of one.
    Get {
        from: Designator,
    },
    /// A call of a function.
    Call {
        function: Name,
        arguments: Vec<Expression>,
    },
    /// A call of an operation, object `$` operation.
    Invoke {
        object: Name,
        operation: Name,
        arguments: Vec<Expression>,
    },
}

// By hand, so that an expression that is dropped is one call, and isn't laid out form by form wherever that happens.
impl Drop for Expression {
    #[cycle(expression_drops)]
    fn drop(self) {
        match self {
            Expression::Number { at: _, value: _ }
            | Expression::Char { at: _, code: _ }
            | Expression::Truth { at: _, value: _ } => {}
            Expression::Chain {
                first: _first,
                links: _links,
            } => {}
            Expression::Text { at: _, text: _text } => {}
            Expression::Not {
                at: _,
                operand: _operand,
            } => {}
            Expression::Negative {
                at: _,
                operand: _operand,
            } => {}
            Expression::Parentheses {
                at: _,
                inner: _inner,
            } => {}
            Expression::From {
                at: _,
                source: _source,
            } => {}
            Expression::Size { at: _, of: _of } => {}
            Expression::Ordinal { at: _, of: _of } => {}
            Expression::Get { from: _from } => {}
            Expression::Call {
                function: _function,
                arguments: _arguments,
            } => {}
            Expression::Invoke {
                object: _object,
                operation: _operation,
                arguments: _arguments,
            } => {}
        }
    }
}

/// An operator and its right operand, in a chain.
#[derive(Drop)]
#[cycle(expressions)]
pub struct Link {
    pub operator: Operator,
    pub right: Expression,
}

/// An operator between two operands.
#[derive(Clone, Copy, Debug, PartialEq, Eq)]
pub enum Operator {
    /// `or`.
    Or,
    /// `and`.
    And,
    /// `=`.
    Equal,
    /// `/=`.
    Different,
    /// `<`.
    Less,
    /// `<=`.
    AtMost,
    /// `>`.
    Greater,
    /// `>=`.
    AtLeast,
    /// `in`.
    In,
    /// `+`.
    Add,
    /// `-`.
    Subtract,
    /// `&`.
    Join,
    /// `*`.
    Multiply,
    /// `/`.
    Divide,
    /// `%`.
    Remainder,
}

/// A variable, or a part of one.
#[derive(Drop)]
#[cycle(expressions)]
pub struct Designator {
    pub name: Name,
    pub path: Vec<Selector>,
}

/// A step to a part: a record's field, or an array's element.
#[derive(Drop)]
#[cycle(expressions)]
pub enum Selector {
    /// `.` name.
    Field { at: Place, name: Name },
    /// `[` index `]`.
    Index { at: Place, index: Expression },
}
