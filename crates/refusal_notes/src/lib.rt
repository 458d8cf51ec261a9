//! Notes on refusals: where in the text the place is, and in plain sentences what is asked there (docs/FORMATS.md, Notes).
//!
//! The floor above uses `note`, which is exactly what `note_of` of specs/Notes.antt says: the file and the place, the line of the text, a
//! mark under the place, and the sentences of its cause; and `word_at` and `line_at`, the word at a place, and a line. The sentences stand in
//! one table (texts.rt), one text for each rule of the lexer, of linking and of typing, each limit, and each other cause that `Cause` lists. It
//! stands on the names of orca_base and of the lexer's rules, reads no file and judges no text: which cause holds, and where, its caller knows.
#![tactic(auto)]

mod cause;
mod excerpt;
mod spot;
mod texts;
mod whole;

pub use cause::{Cause, Hint, HistoryPart, ScriptRule, UsageRule};
pub use excerpt::{line_at, word_at};
pub use spot::Spot;
pub use texts::text_of;
pub use whole::note;
