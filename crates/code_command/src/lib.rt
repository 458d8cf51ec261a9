//! The command `code`: what it prints of a checked program.
//!
//! The floor above reads the files, has the program linked and checked, and prints what `listing_of` gives, or why it gives nothing. It
//! stands on the compiler (code_programs) and its listing (stack_code), on the places that stand beside packed code, and on the names of
//! the top level.
//!
//! Not in it: reading files, statuses and their lines. Which notes the source's lines are no clause says (docs/LANGUAGE.md, The listing,
//! has it in words).
//!
//! Its main clause is `listed` of `listing_of`: what is printed is the listing of the code that the definitions have of the program, with
//! notes, each of one line, in front of its lines or without.
#![tactic(auto)]

mod heads;
mod lines;
mod listing;
mod notes;
mod sheets;

pub use listing::listing_of;
