//! Which declared types hold themselves.
//!
//! The floor above uses `holds_themselves`: of each name of the top level whether it declares a type that holds itself, by its number, as
//! type_rules says (`AreRound` of specs/). The table of the types that each names is given (`parts_of` of type_forms).
//!
//! Types that lead to one another are a component. A search gives each type a membership in one (`Membership`). Nothing is proved of it:
//! one look at each type and its parts tells whether the memberships are right, and where they are, a type holds itself exactly where a
//! part has its rank. So it takes as many steps as there are names of types in declarations. Where they aren't right, which this search
//! never leaves, types are followed one by one, as the definition does.
#![tactic(auto)]

mod components;
mod cycles;
mod levels;
mod search;

pub use cycles::holds_themselves;
