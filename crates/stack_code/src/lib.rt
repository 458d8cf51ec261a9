//! Compiled code that can't get stuck: a program's code in instruction words of 8 bytes, with the long instructions beside them; what makes
//! code sound; and its listing.
//!
//! The main clause is `never` of `sound_code_cannot_get_stuck`, and that `Code` is sound (`code_cannot_get_stuck`); `steps` is what a
//! machine's loop cites. The code of every program is sound (`compiled_code_is_sound`), so `pack` makes `Code` of what a compiler emitted
//! (emitted_code).
//!
//! Not in it: which code a phrase gets (code_rules), a compiler, and a machine. Whose program a `Code` is its machine keeps.
#![tactic(auto)]

mod bodies;
mod body_code;
mod code;
mod law;
mod print;
mod program;
mod safe;
mod word;

pub use bodies::{PackedBody, PackedOperation, PackedType};
pub use body_code::{BodyCode, TooGreat, pack_body};
pub use code::Code;
pub use law::{
    bad_code_is_unsound, compiled_code_is_sound, each_round_passes_a_turn, listing_examples,
    sound_code_cannot_get_stuck,
};
pub use print::{print_code, print_noted};
pub use program::pack;
pub use safe::code_cannot_get_stuck;
pub use word::{Word, packed};
