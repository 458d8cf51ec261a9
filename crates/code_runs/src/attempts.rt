//! Tries of operations.

ghost use Rattle.std.specs.Prelude.{◌≡◌, ◌+◌, ◌<◌, ◌≤◌, ◌^◌, IfOk, Some, drop, option_map, take};
ghost use Rattle.value_core.specs.Datum.{data_of, list_of};
ghost use Rattle.value_core.specs.View.{datum_of};
ghost use Rattle.value_core.specs.declared.meaning.Tried.{Tried as TriedTree};
ghost use Rattle.meaning_rules.specs.Operations.{reply_of as rule_reply};
ghost use Rattle.code_rules.specs.Performing as rules;
ghost use Rattle.code_rules.specs.Performing.{To, attempted, part_of, tries};
ghost use Rattle.emitted_code.specs.Views.{program_seen};
ghost use Rattle.code_steps.specs.Bodies.{config_of, effect_in};
ghost use Rattle.code_runs.specs.Attempts.{attempt_seen};
ghost use Rattle.code_runs.specs.Runs.{Gives, HasRoomThroughout, HasSmallGuard, HasSmallGuards, IsCame, ends_with};

use crate::beginnings::{NOBODY, begin, values_behind, values_in_front};
use crate::runs::run;
use code_steps::{BodyNo, Config, Effect, add_copies, add_spare, operation_at};
use emitted_code::{Emitted, EmittedBody};
use frame_variables::Frame;
use orca_base::{FaultKind, KindNo, NoMemory, OPERATION_TURNS, OpNo};
use std::alloc::Global;
use value_core::{ObjectState, Parts, Reply, Tried, Value};

// A try of an operation: which body it is, and what it is tried on. It changes neither.
#[derive(Clone, Copy)]
struct Attempt<'a, 'p> {
    body: BodyNo,
    part: &'a EmittedBody<'p>,
    state: &'a ObjectState,
    args: &'a Parts,
}

// The reply, by the value that was returned.
fn reply_of(value: Option<Value>) -> Reply
    ensures { result ≡ rule_reply (option_map datum_of value) }
{
    match value {
        None => Reply::Done,
        Some(value) => Reply::Gave { value },
    }
}

// The number of a guard, in 16 bits.
fn guard_number(number: u64) -> u16
    ensures { number < 2 ^ 16 → result ≡ number }
{
    u16::try_from(number).unwrap_or(u16::MAX)
}

// The guard behind a test that came out so.
fn next_guard(truth: bool, guard: u64) -> u64
    requires { guard < 2 ^ 63 }
    ensures next { result ≡ rules.next_guard truth guard }
    ensures most { result ≤ guard + 1 }
{
    if truth { guard } else { guard + 1 }
}

impl<'a, 'p> Attempt<'a, 'p> {
    // What the slots hold where a guard or a body begins: the arguments, the variables with their opening values, the object's fields,
    // and zeros.
    fn slots(self, alloc: Global) -> Result<Parts, NoMemory>
        ensures { IfOk result (λ p. list_of p ≡ (attempt_seen self.entry).slots) }
    {
        let mut slots = self.args.copy(alloc)?;
        add_copies(alloc, &self.part.opens, &mut slots)?;
        add_copies(alloc, self.state.as_slice(), &mut slots)?;
        add_spare(self.part.spare, &mut slots)?;
        Ok(slots)
    }

    // Where a guard or a body begins, at its address.
    fn begin(self, alloc: Global, address: usize) -> Result<Config<'static>, NoMemory>
        ensures { IfOk result (λ c. config_of c ≡ part_of (attempt_seen self.entry) address) }
    {
        begin(alloc, NOBODY, self.body, address, self.slots(alloc)?)
    }

    // What the body leaves of the object's fields.
    fn fields(self, alloc: Global, frame: Frame<'_>) -> Result<Parts, NoMemory>
        ensures { IfOk result (λ p.
            p ≡ data_of (drop (attempt_seen self.entry).own (take (attempt_seen self.entry).names frame.entry))) }
    {
        let own = self.args.len() + self.part.opens.len();
        let values = frame.into_values(alloc)?.into_vec();
        let mut fields = Parts::new(alloc);
        let behind = values_behind(&values, own);
        add_copies(
            alloc,
            values_in_front(behind, self.state.len()),
            &mut fields,
        )?;
        Ok(fields)
    }

    // What came of a guard or its body, which halted so.
    fn tried(
        self,
        alloc: Global,
        guard: u64,
        effect: Effect,
        config: Config<'_>,
    ) -> Result<Tried, NoMemory>
        ensures { ((x : TriedTree) →
            ends_with (attempt_seen self.entry) guard (effect_in effect (config_of config.entry)) ≡ To x → HasSmallGuard x) →
            IfOk result (λ t. IsCame (ends_with (attempt_seen self.entry) guard (effect_in effect (config_of config.entry))) t) }
    {
        let number = guard_number(guard);
        match effect {
            Effect::Ends { value } => Ok(Tried::Did {
                guard: number,
                state: self.fields(alloc, config.run.frame)?,
                reply: reply_of(value),
            }),
            Effect::Fails { fault } => Ok(Tried::Broke {
                guard: number,
                fault,
            }),
            Effect::Blocks => Ok(Tried::Blocked),
            _ => Ok(Tried::Broke {
                guard: number,
                fault: FaultKind::TooLong,
            }),
        }
    }

    // The whole try, from its first guard on, or its body.
    fn run(self, alloc: Global, code: &Emitted<'_>, first: u16) -> Result<Tried, NoMemory>
        ensures { HasRoomThroughout (program_seen code.now) →
            HasSmallGuards (attempted (program_seen code.now) (attempt_seen self.entry) first) →
            IfOk result (λ t. Gives (attempted (program_seen code.now) (attempt_seen self.entry) first) t) }
    {
        let mut guard = u64::from(first);
        let mut config = self.begin(alloc, 0)?;
        'guards: for _guard in 0..u32::MAX {
            let mut left = u64::from(OPERATION_TURNS) + 1;
            match run(alloc, code, &mut config, &mut left)? {
                Effect::Tests { truth, address } => {
                    guard = next_guard(truth, guard);
                    config = self.begin(alloc, address)?;
                }
                effect => return self.tried(alloc, guard, effect, config),
            }
        }
        Err(NoMemory)
    }
}

/// What a try of an operation on a state gives: what the code comes to with some number of instructions (`tries` of code_rules;
/// docs/LANGUAGE.md, Code). The output object has one operation, which changes nothing. Where the code is stuck nothing is said. The state
/// and the arguments are lent, and stay as they are.
///
/// # Errors
/// Want of memory, which is also answered after 2^64 - 1 instructions of a guard or body, and where 2^32 - 1 guards were tested. Code that
/// means a program comes to neither.
pub fn try_operation(
    alloc: Global,
    code: &Emitted<'_>,
    kind: KindNo,
    op: OpNo,
    state: &ObjectState,
    args: &Parts,
) -> Result<Tried, NoMemory>
    ensures { HasRoomThroughout (program_seen code.now) → HasSmallGuards (tries (program_seen code.now) kind op state.now args.now) →
        IfOk result (λ t. Gives (tries (program_seen code.now) kind op state.now args.now) t) }
{
    if kind.0 == 0 {
        return Ok(Tried::Did {
            guard: 0,
            state: state.copy(alloc)?,
            reply: Reply::Done,
        });
    }
    let number = usize::from(op.0);
    let kind = usize::from(kind.0);
    match operation_at(code, kind, number) {
        Some(operation) => {
            let attempt = Attempt {
                body: BodyNo::Operation { kind, number },
                part: &operation.body,
                state,
                args,
            };
            attempt.run(alloc, code, operation.first)
        }
        None => Ok(Tried::Blocked),
    }
}
