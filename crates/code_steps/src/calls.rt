//! Calls of functions, and what leaves a body.

ghost use Rattle.std.specs.Prelude.{◌≡◌, ◌+◌, ◌++◌, ◌∷◌, ◌<◌, ◌^◌, IfOk, OnOk, Some, map, option_map};
ghost use Rattle.value_core.specs.Datum.{list_of};
ghost use Rattle.value_core.specs.View.{datum_of};
ghost use Rattle.meaning_rules.specs.Expressions.{result as given_result};
ghost use Rattle.frame_variables.specs.Gives.{Gives, passed_of, state_of};
ghost use Rattle.code_rules.specs.Instructions as rules;
ghost use Rattle.code_rules.specs.Machine as machine;
ghost use Rattle.emitted_code.specs.Views.{body_seen, program_seen, shape_of};
ghost use Rattle.code_steps.specs.Bodies.{caller_of, config_of, effect_in};

use crate::arguments::take_args;
use crate::bodies::function_at;
use crate::config::{BodyNo, Caller, Config, Effect, failed};
use crate::operands::Operands;
use crate::slots::{add_copies, add_spare, first_values};
use crate::variables::clear_run;
use emitted_code::{Emitted, EmittedBody, Shape};
use frame_variables::{Frame, Passed, Run, Stop, exchange_frame, fitting, fitting_passed, store};
use orca_base::{FaultKind, NoMemory};
use std::alloc::Global;
use std::mem;
use value_core::{Parts, Value};

// So many bodies may wait (docs/LANGUAGE.md, Faults).
const MOST_WAITING: usize = 64;

// Puts what the names of a called body hold behind other values: what was given, and of what is lent what the body opens with.
fn add_names(
    alloc: Global,
    opens: &[Value],
    args: &[Passed],
    all: &mut Parts,
) -> Result<(), NoMemory>
    ensures { OnOk result (list_of all.new ≡ list_of all.old ++ machine.filled (map datum_of opens.now) (map passed_of args.now)) }
{
    match (opens, args) {
        ([_, opens @ ..], [Passed::Given { value }, args @ ..]) => {
            all.push(value.copy(alloc)?)?;
            add_names(alloc, opens, args, all)
        }
        ([opening, opens @ ..], [Passed::Lent { .. }, args @ ..]) => {
            all.push(opening.copy(alloc)?)?;
            add_names(alloc, opens, args, all)
        }
        ([_, ..], []) => add_copies(alloc, opens, all),
        ([], _) => Ok(()),
    }
}

// What the slots of a called body hold: the names, and behind them those of its loops.
fn slots_of(alloc: Global, part: &EmittedBody<'_>, args: &[Passed]) -> Result<Parts, NoMemory>
    ensures { IfOk result (λ p. list_of p ≡ machine.with_spare (body_seen part.now)
        (machine.filled (body_seen part.now).opens (map passed_of args.now))) }
{
    let mut slots = Parts::new(alloc);
    add_names(alloc, &part.opens, args, &mut slots)?;
    add_spare(part.spare, &mut slots)?;
    Ok(slots)
}

// A function's body begins, with these arguments; who calls it waits.
fn begin(
    alloc: Global,
    part: &EmittedBody<'_>,
    function: usize,
    args: Vec<Passed>,
    config: &mut Config<'_>,
) -> Result<Effect, NoMemory>
    requires { config.old.pc + 1 < 2 ^ 64 }
    ensures { IfOk result (λ e. machine.entered (Some (body_seen part.now)) function (map passed_of args.items) (config_of config.old)
        (config_of config.old).stack ≡ effect_in e (config_of config.new)) }
{
    let slots = slots_of(alloc, part, &args)?;
    let frame = exchange_frame(Frame::new(alloc, slots)?, &mut config.run);
    let stack = mem::replace(&mut config.stack, Operands::new(alloc));
    config.callers.push(Caller {
        body: config.body,
        pc: config.pc + 1,
        stack,
        frame,
        given: args,
        names: part.opens.len(),
    })?;
    config.body = BodyNo::Function { number: function };
    config.pc = 0;
    Ok(Effect::Turns)
}

// A function's body begins, with these arguments, where it is there and so many bodies may wait.
fn enter(
    alloc: Global,
    code: &Emitted<'_>,
    function: usize,
    args: Vec<Passed>,
    config: &mut Config<'_>,
) -> Result<Effect, NoMemory>
    requires { config.old.pc + 1 < 2 ^ 64 }
    ensures { IfOk result (λ e. machine.enter (program_seen code.now) function (map passed_of args.items) (config_of config.old)
        (config_of config.old).stack ≡ effect_in e (config_of config.new)) }
{
    if config.callers.len() >= MOST_WAITING {
        return Ok(Effect::Fails {
            fault: FaultKind::TooDeep,
        });
    }
    match function_at(code, function) {
        Some(part) => begin(alloc, part, function, args, config),
        None => Ok(Effect::Fails {
            fault: FaultKind::NoReturn,
        }),
    }
}

/// A call of a function.
///
/// # Errors
/// Want of memory.
pub fn call(
    alloc: Global,
    code: &Emitted<'_>,
    function: usize,
    shapes: &[Shape],
    config: &mut Config<'_>,
) -> Result<Effect, NoMemory>
    requires { config.old.pc + 1 < 2 ^ 64 }
    ensures { IfOk result (λ e.
        machine.act (program_seen code.now) (Some (rules.Call function (map shape_of shapes.now))) (config_of config.old) ≡
        effect_in e (config_of config.new)) }
{
    let Some(args) = take_args(alloc, shapes, &mut config.stack)? else {
        return Ok(Effect::Stuck);
    };
    match fitting_passed(&args) {
        Ok(()) => enter(alloc, code, function, args, config),
        Err(stop) => failed(stop),
    }
}

// Stores what names hold at the places that were lent, one after the other; it is moved out of these values.
fn put_back(
    alloc: Global,
    given: &[Passed],
    values: &mut [Value],
    run: &mut Run<'_>,
) -> Result<(), Stop>
    ensures { Gives (λ u. u) result (state_of run.new)
        (machine.put_back (map machine.lent (map passed_of given.now)) (map datum_of values.old) (state_of run.old)) }
{
    match (given, values) {
        ([Passed::Given { .. }, given @ ..], [_, values @ ..]) => put_back(
            alloc, given, values, run,
        ),
        ([Passed::Lent { to }, given @ ..], [value, values @ ..]) => {
            store(alloc, to, mem::replace(value, Value::Int(0)), run)?;
            put_back(alloc, given, values, run)
        }
        _ => Ok(()),
    }
}

// What a call gives, for its value: 0 where it gives nothing.
fn value_of(given: Option<Value>) -> Value
    ensures { datum_of result ≡ given_result (option_map datum_of given) }
{
    match given {
        Some(value) => value,
        None => Value::Int(0),
    }
}

// The body that waited last goes on, with what the one that is left hands back to it, and with its value.
fn return_to<'a>(
    alloc: Global,
    caller: Caller<'a>,
    value: Option<Value>,
    config: &mut Config<'a>,
) -> Result<Effect, NoMemory>
    ensures { IfOk result (λ e. machine.leave (config_of config.old).process (option_map datum_of value) (config_of config.old).locals
        (caller_of caller.entry ∷ (config_of config.old).frames) ≡ effect_in e (config_of config.new)) }
{
    let Caller {
        body,
        pc,
        stack,
        frame,
        given,
        names,
    } = caller;
    let inner = exchange_frame(frame, &mut config.run);
    let mut values = first_values(alloc, inner, names)?;
    clear_run(&mut config.run);
    match put_back(alloc, &given, &mut values, &mut config.run) {
        Ok(()) => {
            config.body = body;
            config.pc = pc;
            config.stack = stack;
            config.stack.push(value_of(value))?;
            Ok(Effect::Steps)
        }
        Err(stop) => failed(stop),
    }
}

/// A body is left, with a value or none.
///
/// # Errors
/// Want of memory.
pub fn leave(
    alloc: Global,
    value: Option<Value>,
    config: &mut Config<'_>,
) -> Result<Effect, NoMemory>
    ensures { IfOk result (λ e. machine.leave (config_of config.old).process (option_map datum_of value) (config_of config.old).locals
        (config_of config.old).frames ≡ effect_in e (config_of config.new)) }
{
    match config.callers.pop() {
        Some(caller) => return_to(alloc, caller, value, config),
        None => Ok(Effect::Ends { value }),
    }
}

/// A body is left with the value on top.
///
/// # Errors
/// Want of memory.
pub fn give(alloc: Global, config: &mut Config<'_>) -> Result<Effect, NoMemory>
    ensures { IfOk result (λ e. (code : machine.Code) → machine.act code (Some rules.Result) (config_of config.old) ≡
        effect_in e (config_of config.new)) }
{
    let Some(value) = config.stack.pop() else {
        return Ok(Effect::Stuck);
    };
    match fitting(&value) {
        Ok(()) => leave(alloc, Some(value), config),
        Err(stop) => failed(stop),
    }
}
