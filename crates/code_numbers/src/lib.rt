//! How great the numbers are by which a program's code and its tries go, as a law of the definitions: a number that the code gives to an
//! object has 32 bits, and the number of a guard that decides a try has 16, where the numbers of the program fit (`AreNumbers` of
//! accepted_law, which an accepted program within the limits keeps).
//!
//! So a machine may keep them in such words, as ids of objects and answers to tries do.
//!
//! No code stands here. Its main clause is `objects` of `numbers_law`.
#![tactic(auto)]

mod law;

pub use law::numbers_law;
