//! More single steps of the group's rules, which the check computes: each is a sentence of docs/RUNTIME.md that no row of
//! `group_rules` shows, so that a rule which differs there is refused.
//!
//! It stands on `group_rules`. Its functions carry no code. Each has a clause that the check computes, a step written out,
//! but for `kinds_law`, which says of all packets of the rules which kind they travel as.
#![tactic(auto)]

mod hearing;
mod kinds;
mod ordering;
mod receiving;
mod resetting;

pub use hearing::{
    gathers_anew, late_member_is_spared, old_report, sequencer_is_heard, sequencer_silence,
};
pub use kinds::kinds_law;
pub use ordering::{note_orders, own_waits, pending_in_order, two_wait};
pub use receiving::{
    accept_purges, acknowledges_again, later_is_answered, newer_body, order_without_body,
    reported_once,
};
pub use resetting::{answered_again, install_takes_base, own_result_spares};
