//! What an accepted program means, as definitions: what its operations and makings give, what its processes do next, and which
//! operations are reads (docs/LANGUAGE.md, Meaning).
//!
//! The floors above use `performs_of` and `computes_of` of specs/Meanings.antt, the two records over which histories are defined, and
//! what these are made of: `eval` and `run`, by recursion on the syntax, `calls`, by recursion on the levels of calls that are left, and
//! `loop`, by recursion on a number above the turns that are left. Compiled code, what is done to variables and the classes of operations are
//! proved against these definitions. The specs stand in reading order in specs/Lib.antt.
//!
//! **Names.** A phrase is evaluated in the scope of `type_rules` that its types come from. The frame has a value for each name of that
//! scope, in the scope's order: parameters, variables, an object's fields, and in front of these the variables of the loops that are
//! open, the innermost first. So a name's value stands at the place of the name in the scope, and nothing is looked up by name at run
//! time; a body's names but the loops' keep their distance from the frame's end, which a compiler takes for slots. A name that the body
//! doesn't have is a constant, an enumeration's name or `nil`, and its value is in the text.
//!
//! An accepted program links, breaks no rule of typing, and keeps within the limits. For what doesn't occur in one (a name without a type, a call of what is no
//! function, a value of another type, an action in an implementation) the definitions give some answer, of which nothing is claimed.
//!
//! specs/Fitting.antt says what fits, and `typed_law` that programs keep it (specs/Preservation.antt). `meaning_law` says that more turns change nothing but whether a process is busy, and that a read
//! leaves its object as it was; `fitting_law` that parts of what fits fit, and that what fits goes on fitting. The other functions compute
//! the definitions on programs, and wrong rules beside the right ones. No code stands here.
#![tactic(auto)]

mod law;

pub use law::{
    class_examples, examples_are_typed, fitting_examples, fitting_law, meaning_law,
    object_examples, phrase_examples, process_examples, typed_law, value_examples, wrong_rules,
};
