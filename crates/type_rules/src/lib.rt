//! The rules of typing, as definitions: what each name stands for, what types there are, and where a rule is broken.
//!
//! The floor above uses `breaches` of specs/Breaches.antt, the list of all breaches of a program in text order, with the files in order,
//! and `IsTypeError`, its first; and the type `TypeError`. `typing_examples` computes programs, one for each of the 41 rules.
//!
//! specs/ in reading order, each over those before it. Types: a type is layers round a base, and goes by numbers of top-level names
//! where it goes by name. TopLevel: these names and their numbers (`top_names`, `number_of`), and what a name stands for in a module
//! (`stands_for`). Rules: a breach, and `Found`, what is found of a phrase: what it is, unless a breach stands inside, and its breaches.
//! Constants: chains of constants and bounds. TypePhrases: types as they are written (`phrase`) and declared types (`declared_type`), each
//! with the size of its opening value and its nesting, by recursion on how many declarations there are; a type that holds itself. Scopes:
//! the names of a body, what a call passes, the operations of an object type, what may stand where. Expressions (`typed`), Statements
//! (`stmt_breaches`), Declarations (`decl_breaches`): by recursion on the syntax. A rule's sentence stands above the test that it asks for,
//! with its number; `asks rule at test` is its breach at that place where the test fails. Breaches are listed in any order and put
//! into text order at the end, so no definition rests on the order of evaluation.
//!
//! It stands on the syntax of texts (orca_syntax) and on the rules of linking (link_rules). No code stands here.
#![tactic(auto)]

mod breach;
mod law;
mod names;
mod signature;
mod type_error;
mod types;

pub use breach::Breach;
pub use law::{typing_examples, typing_law};
pub use names::{Chain, LocalRole, Owner, Predeclared};
pub use signature::{Formal, Signature};
pub use type_error::TypeError;
pub use types::{Base, DataType, Layer, Measured};
