//! Where objects are kept: policies that choose between a copy at every member and one alone, and the text that says what was chosen
//! (docs/RUNTIME.md, Choice of copies).
//!
//! The floor above uses the trait `Policy`, over any policy: what it was asked, with its answers, is told, and each question adds itself
//! and its answer alone; its rule says what it answers, and stays. A box of a policy is one, with the same rule. Of the three policies
//! here each rule is known: `CostPolicy` answers by the costs (`by_cost` of specs/), `AlwaysReplicated` as it is named, `Fixed` by its
//! list. The main clause is `choose_all`'s: each site is asked about once, in order, and the choices are the policy's rule's.
//! `choose_by_cost` gives what costs less, by a box of a new `CostPolicy`, and `choice_text` has a line for each site. `choice_examples`
//! computes both.
//!
//! It stands on `site_estimates`, and knows nothing of programs and members: where a single copy stands, and how it is called, isn't said.
#![tactic(auto)]

mod asking;
mod boxed;
mod cost;
mod examples;
mod fixed;
mod policy;
mod replicated;
mod text;

pub use asking::{choose_all, choose_all_by_cost};
pub use boxed::choose_by_cost;
pub use cost::{CostPolicy, choice_by_cost};
pub use examples::choice_examples;
pub use fixed::Fixed;
pub use policy::{Asked, Policy};
pub use replicated::AlwaysReplicated;
pub use text::choice_text;
