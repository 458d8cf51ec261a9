//! What a checked program gives: that one which links and is well typed, whose texts are texts, and which keeps within the limits, has all
//! that preservation takes of a program.
//!
//! The floor above uses `accepted_law`: from what a machine of the language can keep of its program follows `IsAccepted` (meaning_rules,
//! specs/Accepted.antt), and with it `typed_law`. `IsWithinLimits` (specs/Limits.antt) is the limit of tokens and declared names together,
//! and that of parameters. `StartsFit` says what bodies begin in, `AreNumbers` of how many bits numbers are, `MakesKnown` that each object
//! that a process makes is of a type that has a specification, and `CallsKnown` that arguments fit no operation but one that has a head.
//!
//! It stands on the rules of linking and of typing and on the meaning of programs. No code stands here.
#![tactic(auto)]

mod law;

pub use law::accepted_law;
