//! Compiled code, as definitions, and that it means the source (docs/proofs/code.md): what a compiler is to make, what a machine is to do
//! with it, and the law that both together are the meaning (meaning_rules).
//!
//! The main clause is `means` of `code_law`: `Means us (program_code us)`, of every list of sources. What else it says follows of any code
//! that means a program.
//! The floors above use `program_code` (specs/Program.antt), which is the code that a compiler makes, exactly; `step` and `exec`
//! (specs/Machine.antt), which say what each instruction does; `does`, `tries`, `makes` (specs/Performing.antt), `go` and `answer`
//! (specs/Resuming.antt), which are a performer and a processor over them; and `IsRunning`, `IsTrying`, `IsMaking` (specs/Stepping.antt),
//! which a machine's loop keeps, with the number of instructions as its measure. `Means` (specs/Correct.antt) says that code does what
//! `performs_of` and `computes_of` say. The specs stand in reading order in specs/Lib.antt.
//!
//! The machine's instructions are defined by the meaning's own functions on values and variables, so that nothing is said twice: what is
//! proved here is where the variables stand, in which order operands come, where code goes on, and what is counted. The equation needs no
//! typing: for phrases that break a rule both sides give the same answer. A slot that a body hasn't is the fault IndexOutside, a function
//! that isn't there NoReturn; only too few operands, or an address without an instruction, is stuck, and no run of a program's code comes
//! to one.
//!
//! A process keeps a configuration and nothing of the replies and turns that were. For which of them it stands is `stands`.
//!
//! Not in it: a compiler, code that is packed or listed, and a machine; there is no code in it at all.
#![tactic(auto)]

mod law;

pub use law::{code_law, phrases_example, program_example};
