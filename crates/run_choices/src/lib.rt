//! The settings of a run, with where its objects are kept as a policy chooses.
//!
//! The floor above has the words of a run read, and its program checked and its limits judged; it hands the settings to `run_loop`. Where
//! no member may be lost, the policy is asked about each site of the program, in order, and the settings' choices are its answers; where
//! one may be lost it is asked nothing, and each object is at every member. The main clause is `settings`: they are `run_settings` of
//! specs/Chosen.antt, of the policy's rule and of what it was told before. `settings_examples` computes them of a program, with a member
//! that may be lost and without. It stands on `choice_command`, on the words' options (`command_line`), and on the settings of
//! `world_rules`; it runs nothing.
#![tactic(auto)]

mod examples;
mod settings;

pub use examples::settings_examples;
pub use settings::run_settings;
