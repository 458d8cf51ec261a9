//! What a policy chooses for the sites of a program: what the command `choice` prints of it, and the choices of a run.
//!
//! The floor above has the program read, linked, checked and its limits judged. It prints what `choice_lines` gives: a line for each site,
//! with its estimate, and where a policy keeps its object. `run_choices` gives what the policy chooses text by text, as a run's settings
//! have it. The main clauses are `lines`, that the text is that of the program's estimates and of the policy's rule (`choice_lines` of
//! specs/Lines.antt), and `chosen`, that a run's choices are those too (`choices_by_text`). `line_examples` computes them of two programs,
//! by three rules. It stands on `access_estimates` and on `replica_choice`; it reads no file, and prints nothing itself.
#![tactic(auto)]

mod examples;
mod lines;
mod runs;

pub use examples::line_examples;
pub use lines::choice_lines;
pub use runs::run_choices;
