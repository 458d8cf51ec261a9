//! What is estimated of the objects that a program makes, as definitions (docs/RUNTIME.md, Choice of copies).
//!
//! The floor above uses `estimates` of specs/Estimates.antt: the estimates of a program's sites. It is defined over the uses of objects in
//! bodies, by their syntax alone (specs/Uses.antt), and over the meaning's own scopes, object types and classes of operations
//! (meaning_rules). `estimate_examples` computes it. The main clause is `sites_are_objects`: a text's n-th site is the object n of the
//! processes that run it, so that answers about all sites, parted by text (`choices_of` of specs/Sites.antt), are a run's choices.
//!
//! No code stands here.
#![tactic(auto)]

mod law;

pub use law::{answers_by_text, estimate_examples, sites_are_objects};
