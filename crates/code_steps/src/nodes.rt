//! `addnode` and `deletenode`.

ghost use Rattle.std.specs.Prelude.{◌≡◌, IfOk, map, option_map, pos};
ghost use Rattle.orca_base.specs.declared.fault.FaultKind.TheVariants.{NoReturn};
ghost use Rattle.value_core.specs.Datum as datum;
ghost use Rattle.value_core.specs.View.{datum_of};
ghost use Rattle.meaning_rules.specs.Calls.{Adds, Deletes, invoked};
ghost use Rattle.frame_variables.specs.declared.stop.Stop.TheVariants.{Faults};
ghost use Rattle.frame_variables.specs.Gives.{Gives, passed_of, state_of};
ghost use Rattle.code_rules.specs.Instructions as rules;
ghost use Rattle.code_rules.specs.Machine.{no_calls};
ghost use Rattle.emitted_code.specs.Views.{shape_of};
ghost use Rattle.code_steps.specs.Moves.{Moves};
ghost use Rattle.code_steps.specs.Passing.{PushesGiven};

use crate::advance::{Advance, stopped};
use crate::arguments::take_args;
use crate::operands::Operands;
use crate::variables::clear_run;
use emitted_code::Shape;
use frame_variables::{Passed, Run, Stop, add_node, delete_node};
use orca_base::{FaultKind, NoMemory};
use std::alloc::Global;
use value_core::Value;

// What a change of a graph gives is pushed: 0 where it gives nothing.
fn push_given(given: Result<Option<Value>, Stop>, stack: &mut Operands) -> Result<Advance, NoMemory>
    ensures { IfOk result (λ a. PushesGiven given stack.old a stack.new) }
{
    match given {
        Ok(Some(value)) => {
            stack.push(value)?;
            Ok(Advance::Next)
        }
        Ok(None) => {
            stack.push(Value::Int(0))?;
            Ok(Advance::Next)
        }
        Err(stop) => stopped(stop),
    }
}

// What a change of a graph stops with where its arguments aren't what it asks for, which no typed program has.
fn no_return() -> Stop
    ensures { result ≡ Faults NoReturn }
{
    Stop::Faults {
        fault: FaultKind::NoReturn,
    }
}

// The node that comes to a graph, where the arguments lend one.
fn add_to(
    alloc: Global,
    args: &[Passed],
    fresh: Value,
    run: &mut Run<'_>,
) -> Result<Option<Value>, Stop>
    ensures { Gives (option_map datum_of) result (state_of run.new)
        (invoked no_calls Adds (datum_of fresh) (map passed_of args.now) (state_of run.old)) }
{
    match args {
        [Passed::Lent { to }, ..] => add_node(alloc, to, fresh, run),
        [Passed::Given { .. }, ..] => Err(no_return()),
        [] => Err(no_return()),
    }
}

// The node of a name goes, where the arguments give one and lend a graph.
fn delete_from(alloc: Global, args: &[Passed], run: &mut Run<'_>) -> Result<Option<Value>, Stop>
    ensures { Gives (option_map datum_of) result (state_of run.new)
        (invoked no_calls Deletes (datum.int (pos 0)) (map passed_of args.now) (state_of run.old)) }
{
    match args {
        [Passed::Given { value }, Passed::Lent { to }, ..] => delete_node(alloc, to, value, run),
        [Passed::Given { .. }, Passed::Given { .. }, ..] => Err(no_return()),
        [Passed::Given { .. }] => Err(no_return()),
        [Passed::Lent { .. }, ..] => Err(no_return()),
        [] => Err(no_return()),
    }
}

/// `addnode`: a new node opens so, in the graph that the argument lends.
pub fn add(
    alloc: Global,
    fresh: &Value,
    shapes: &[Shape],
    stack: &mut Operands,
    run: &mut Run<'_>,
) -> Result<Advance, NoMemory>
    ensures { IfOk result (λ a.
        Moves (rules.AddNode (datum_of fresh.now) (map shape_of shapes.now)) stack.old run.old.frame a stack.new run.new.frame) }
{
    let Some(args) = take_args(alloc, shapes, stack)? else {
        return Ok(Advance::Stuck);
    };
    let fresh = fresh.copy(alloc)?;
    clear_run(run);
    push_given(add_to(alloc, &args, fresh, run), stack)
}

/// `deletenode`: the node that the first argument names, in the graph that the second one lends.
pub fn delete(
    alloc: Global,
    shapes: &[Shape],
    stack: &mut Operands,
    run: &mut Run<'_>,
) -> Result<Advance, NoMemory>
    ensures { IfOk result (λ a. Moves (rules.DeleteNode (map shape_of shapes.now)) stack.old run.old.frame a stack.new run.new.frame) }
{
    let Some(args) = take_args(alloc, shapes, stack)? else {
        return Ok(Advance::Stuck);
    };
    clear_run(run);
    push_given(delete_from(alloc, &args, run), stack)
}
