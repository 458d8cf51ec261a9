//! Notes on why texts are no program: of a fault of the front end and the text of its file the note on it (docs/FORMATS.md, Notes).
//!
//! The floor above uses `text_note`, `link_note` and `type_note`, which lay a note out by `refusal_notes`; `IsTextNote`, `IsLinkNote` and
//! `IsTypeNote` (specs/Faults.antt) say which. It judges no text: that a fault is one of the text its caller knows. Which hint an
//! unexpected token has no clause says.
//!
//! Its main clause is that of `type_note`.
#![tactic(auto)]

mod causes;
mod faults;

pub use faults::{link_note, text_note, type_note};
