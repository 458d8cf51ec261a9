//! The inside of the machine that runs compiled code: instructions on integers and truths, calls and returns.
//!
//! `go` runs from where a machine stands (`MachineState`) through calls and returns, until the outermost body ends, it
//! faults, no turn is left, or an instruction isn't for it. What it does is what `exec` of `code_rules` says, for every code, and what it
//! may not decline says `covers` (specs/Covering.antt). That is its main clause, `RunsUntil` (specs/Running.antt).
//!
//! Inside, the fast path (fast_path.rt) does frequent instructions one after the other, some fused with those behind them (fused.rt),
//! and may defer any; what leaves a body is done outside of it (calls.rt), and there alone is asked whether what was deferred is covered.
//! The values stand in a `Deck` of `value_deck`.
//!
//! Not in it: who makes the code, values other than integers and truths, paths, actions, guards, and the traits `Performer` and
//! `Processor`, whose machine this is to become.
#![tactic(auto)]

mod calls;
mod code;
mod covering;
mod fast_ops;
mod fast_path;
mod fused;
mod op;
mod return_stack;
mod runs;

pub use code::{Body, BodyNo, Code, OperationCode, TypeCode};
pub use op::Op;
pub use return_stack::{ReturnAddress, ReturnStack};
pub use runs::{Ending, MachineRun, MachineState, go};
