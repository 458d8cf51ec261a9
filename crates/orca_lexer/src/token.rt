//! The tokens of a text.

ghost use Rattle.std.specs.Prelude.{◌≡◌, ◌↔◌, IsTrue};

use orca_base::{Place, Text};

/// A keyword of the language.
#[derive(Clone, Copy, Debug, PartialEq, Eq)]
pub enum Keyword {
    KeyAnd,
    KeyArray,
    KeyBag,
    KeyBegin,
    KeyBoolean,
    KeyChar,
    KeyConst,
    KeyDelete,
    KeyDo,
    KeyElse,
    KeyElsif,
    KeyEnd,
    KeyEnum,
    KeyFalse,
    KeyFi,
    KeyFor,
    KeyFork,
    KeyFrom,
    KeyFunction,
    KeyGuard,
    KeyIf,
    KeyImplementation,
    KeyImport,
    KeyIn,
    KeyInsert,
    KeyInteger,
    KeyModule,
    KeyNot,
    KeyObject,
    KeyOd,
    KeyOf,
    KeyOn,
    KeyOperation,
    KeyOr,
    KeyOrd,
    KeyOut,
    KeyProcess,
    KeyRecord,
    KeyRepeat,
    KeyReturn,
    KeySet,
    KeyShared,
    KeySize,
    KeySpecification,
    KeyString,
    KeyThen,
    KeyTrue,
    KeyType,
    KeyUntil,
    KeyWhile,
    KeyOutput,
    KeyWriteLine,
}

/// A symbol of the language.
#[derive(Clone, Copy, Debug, PartialEq, Eq)]
pub enum Symbol {
    /// `:=`
    Becomes,
    /// `..`
    Range,
    /// `/=`
    Differs,
    /// `<=`
    AtMost,
    /// `>=`
    AtLeast,
    /// `;`
    Semicolon,
    /// `:`
    Colon,
    /// `,`
    Comma,
    /// `.`
    Period,
    /// `=`
    Equals,
    /// `<`
    Less,
    /// `>`
    Greater,
    /// `+`
    Plus,
    /// `-`
    Minus,
    /// `*`
    Times,
    /// `/`
    Over,
    /// `%`
    Percent,
    /// `&`
    Joins,
    /// `(`
    Opens,
    /// `)`
    Closes,
    /// `[`
    OpensIndex,
    /// `]`
    ClosesIndex,
    /// `$`
    Dollar,
}

impl Symbol {
    /// Whether both are the same symbol.
    pub fn is(self, other: Symbol) -> bool
        ensures { IsTrue result ↔ (self ≡ other) }
    {
        self == other
    }
}

impl Keyword {
    /// Whether both are the same keyword.
    pub fn is(self, other: Keyword) -> bool
        ensures { IsTrue result ↔ (self ≡ other) }
    {
        self == other
    }
}

/// What a token stands for.
#[derive(Debug, Drop)]
pub enum TokenKind {
    /// A name, which is not a keyword.
    Name { name: Text },
    /// A number, from 0 to 9,223,372,036,854,775,807.
    Number { value: i64 },
    /// A character, with its escape resolved: one of codes 32 to 126, 9 or 10.
    Char { code: u8 },
    /// The characters of a string, with escapes resolved: each is one of codes 32 to 126, 9 or 10.
    Text { text: Text },
    /// A keyword.
    Key { word: Keyword },
    /// A symbol.
    Sign { symbol: Symbol },
}

/// A token: what it stands for, its slice of the text from `start` up to `end`, in bytes from 0, and the place at which that
/// begins.
#[derive(Debug, Drop)]
pub struct Token {
    pub kind: TokenKind,
    pub start: u32,
    pub end: u32,
    pub at: Place,
}

/// Each keyword with its text.
pub const KEYWORDS: [(&[u8], Keyword); 52] = [
    (b"and", Keyword::KeyAnd),
    (b"array", Keyword::KeyArray),
    (b"bag", Keyword::KeyBag),
    (b"begin", Keyword::KeyBegin),
    (b"boolean", Keyword::KeyBoolean),
    (b"char", Keyword::KeyChar),
    (b"const", Keyword::KeyConst),
    (b"delete", Keyword::KeyDelete),
    (b"do", Keyword::KeyDo),
    (b"else", Keyword::KeyElse),
    (b"elsif", Keyword::KeyElsif),
    (b"end", Keyword::KeyEnd),
    (b"enum", Keyword::KeyEnum),
    (b"false", Keyword::KeyFalse),
    (b"fi", Keyword::KeyFi),
    (b"for", Keyword::KeyFor),
    (b"fork", Keyword::KeyFork),
    (b"from", Keyword::KeyFrom),
    (b"function", Keyword::KeyFunction),
    (b"guard", Keyword::KeyGuard),
    (b"if", Keyword::KeyIf),
    (b"implementation", Keyword::KeyImplementation),
    (b"import", Keyword::KeyImport),
    (b"in", Keyword::KeyIn),
    (b"insert", Keyword::KeyInsert),
    (b"integer", Keyword::KeyInteger),
    (b"module", Keyword::KeyModule),
    (b"not", Keyword::KeyNot),
    (b"object", Keyword::KeyObject),
    (b"od", Keyword::KeyOd),
    (b"of", Keyword::KeyOf),
    (b"on", Keyword::KeyOn),
    (b"operation", Keyword::KeyOperation),
    (b"or", Keyword::KeyOr),
    (b"ord", Keyword::KeyOrd),
    (b"out", Keyword::KeyOut),
    (b"process", Keyword::KeyProcess),
    (b"record", Keyword::KeyRecord),
    (b"repeat", Keyword::KeyRepeat),
    (b"return", Keyword::KeyReturn),
    (b"set", Keyword::KeySet),
    (b"shared", Keyword::KeyShared),
    (b"size", Keyword::KeySize),
    (b"specification", Keyword::KeySpecification),
    (b"string", Keyword::KeyString),
    (b"then", Keyword::KeyThen),
    (b"true", Keyword::KeyTrue),
    (b"type", Keyword::KeyType),
    (b"until", Keyword::KeyUntil),
    (b"while", Keyword::KeyWhile),
    (b"Output", Keyword::KeyOutput),
    (b"WriteLine", Keyword::KeyWriteLine),
];

/// Each symbol with its text.
pub const SYMBOLS: [(&[u8], Symbol); 23] = [
    (b":=", Symbol::Becomes),
    (b"..", Symbol::Range),
    (b"/=", Symbol::Differs),
    (b"<=", Symbol::AtMost),
    (b">=", Symbol::AtLeast),
    (b";", Symbol::Semicolon),
    (b":", Symbol::Colon),
    (b",", Symbol::Comma),
    (b".", Symbol::Period),
    (b"=", Symbol::Equals),
    (b"<", Symbol::Less),
    (b">", Symbol::Greater),
    (b"+", Symbol::Plus),
    (b"-", Symbol::Minus),
    (b"*", Symbol::Times),
    (b"/", Symbol::Over),
    (b"%", Symbol::Percent),
    (b"&", Symbol::Joins),
    (b"(", Symbol::Opens),
    (b")", Symbol::Closes),
    (b"[", Symbol::OpensIndex),
    (b"]", Symbol::ClosesIndex),
    (b"$", Symbol::Dollar),
];
