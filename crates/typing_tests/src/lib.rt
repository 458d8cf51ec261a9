//! That types which hold themselves are found, in about as many steps as there are names.
//!
//! A cycle of many types shows that `type_cycles` searches so: a clause says what is found, and none how long it takes. What programs
//! break which rules of typing is tried by `cases`. Nothing stands on it.
#![tactic(auto)]

#[cfg(test)]
mod cycles;
