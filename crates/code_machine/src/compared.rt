//! Whether two processes stand at the same place.

ghost use Rattle.std.specs.Prelude.{◌≡◌, ◌↔◌, ◌∷◌, IsTrue, map, slice_get};
ghost use Rattle.std.specs.List.{All};
ghost use Rattle.value_core.specs.View.{datum_of};
ghost use Rattle.frame_variables.specs.Gives.{passed_of};
ghost use Rattle.code_rules.specs.Machine.{lent};
ghost use Rattle.code_steps.specs.Bodies.{caller_of, config_of, number_of};
ghost use Rattle.code_runs.specs.Processes.{phase_of, with_reply};
ghost use Rattle.code_machine.specs.Counted.{AreCounted, IsCounted, IsCountedPhase};
ghost use Rattle.code_machine.specs.Topped.{topped};

use code_runs::Phase;
use code_steps::{BodyNo, Caller, Config, Operands};
use frame_variables::{Frame, Passed, Step};
use value_core::Value;

// ---- values

// Whether values are equal, one by one.
fn are_equal(one: &[Value], other: &[Value]) -> bool
    ensures { IsTrue result ↔ (one.now ≡ other.now) }
{
    if one.len() != other.len() {
        return false;
    }
    'values: for (place, value) in one.iter().enumerate() {
        if !value.is(&other[place]) {
            return false;
        }
    }
    true
}

// Whether operands are the same.
fn same_operands(one: &Operands, other: &Operands) -> bool
    ensures { IsTrue result ↔ (one.now ≡ other.now) }
{
    are_equal(one.as_slice(), other.as_slice())
}

// Whether operands are others, with one more on top.
fn has_on_top(one: &Operands, top: &Value, other: &Operands) -> bool
    ensures { IsTrue result ↔ (one.now ≡ datum_of top.now ∷ other.now) }
{
    match one.as_slice().split_last() {
        Some((value, below)) => value.is(top) && are_equal(below, other.as_slice()),
        None => false,
    }
}

// Whether two frames have the same value at a place, or both none.
fn same_slot(one: &Frame<'_>, other: &Frame<'_>, slot: usize) -> bool
    ensures { IsTrue result ↔ (slice_get one.now slot ≡ slice_get other.now slot) }
{
    match (one.get(slot), other.get(slot)) {
        (None, None) => true,
        (Some(value), Some(other_value)) => value.is(other_value),
        _ => false,
    }
}

// Whether variables hold the same, where each value has a number.
fn same_frame(one: &Frame<'_>, other: &Frame<'_>) -> bool
    requires one { IsCounted one.now }
    requires other { IsCounted other.now }
    ensures { IsTrue result ↔ (one.now ≡ other.now) }
{
    'slots: for slot in 0..usize::MAX {
        if !same_slot(one, other, slot) {
            return false;
        }
        if one.get(slot).is_none() {
            return true;
        }
    }
    true
}

// ---- what was lent

// Whether two steps are the same.
fn same_step(one: &Step, other: &Step) -> bool
    ensures { IsTrue result ↔ (one.now ≡ other.now) }
{
    match (one, other) {
        (
            Step::Index { low, index },
            Step::Index {
                low: other_low,
                index: other_index,
            },
        ) => low == other_low && index == other_index,
        (Step::Field { place }, Step::Field { place: other_place }) => place == other_place,
        (Step::Node { name }, Step::Node { name: other_name }) => name == other_name,
        _ => false,
    }
}

// Whether two paths are the same.
fn same_path(one: &[Step], other: &[Step]) -> bool
    ensures { IsTrue result ↔ (one.now ≡ other.now) }
{
    if one.len() != other.len() {
        return false;
    }
    'steps: for (place, step) in one.iter().enumerate() {
        if !same_step(step, &other[place]) {
            return false;
        }
    }
    true
}

// Whether two arguments lend the same, or both nothing.
fn same_passed(one: &Passed, other: &Passed) -> bool
    ensures { IsTrue result ↔ (lent (passed_of one.now) ≡ lent (passed_of other.now)) }
{
    match (one, other) {
        (Passed::Given { .. }, Passed::Given { .. }) => true,
        (Passed::Lent { to }, Passed::Lent { to: other_to }) => {
            to.slot == other_to.slot && same_path(&to.path, &other_to.path)
        }
        _ => false,
    }
}

// Whether arguments lend the same.
fn same_given(one: &[Passed], other: &[Passed]) -> bool
    ensures { IsTrue result ↔ (map lent (map passed_of one.now) ≡ map lent (map passed_of other.now)) }
{
    if one.len() != other.len() {
        return false;
    }
    'passed: for (place, passed) in one.iter().enumerate() {
        if !same_passed(passed, &other[place]) {
            return false;
        }
    }
    true
}

// ---- bodies

// Whether two bodies are the same one.
fn same_body(one: BodyNo, other: BodyNo) -> bool
    ensures { IsTrue result ↔ (number_of one ≡ number_of other) }
{
    match (one, other) {
        (
            BodyNo::Function { number },
            BodyNo::Function {
                number: other_number,
            },
        ) => number == other_number,
        (BodyNo::Process { text }, BodyNo::Process { text: other_text }) => text == other_text,
        (BodyNo::Making { kind }, BodyNo::Making { kind: other_kind }) => kind == other_kind,
        (
            BodyNo::Operation { kind, number },
            BodyNo::Operation {
                kind: other_kind,
                number: other_number,
            },
        ) => kind == other_kind && number == other_number,
        _ => false,
    }
}

// Whether two bodies wait alike.
fn same_caller(one: &Caller<'_>, other: &Caller<'_>) -> bool
    requires one { IsCounted one.now.frame }
    requires other { IsCounted other.now.frame }
    ensures { IsTrue result ↔ (caller_of one.now ≡ caller_of other.now) }
{
    same_body(one.body, other.body)
        && one.pc == other.pc
        && same_operands(&one.stack, &other.stack)
        && same_frame(&one.frame, &other.frame)
        && same_given(&one.given, &other.given)
        && one.names == other.names
}

// Whether all do.
fn same_callers(one: &[Caller<'_>], other: &[Caller<'_>]) -> bool
    requires one { All (λ w. IsCounted w.frame) one.now }
    requires other { All (λ w. IsCounted w.frame) other.now }
    ensures { IsTrue result ↔ (map caller_of one.now ≡ map caller_of other.now) }
{
    if one.len() != other.len() {
        return false;
    }
    'callers: for (place, caller) in one.iter().enumerate() {
        if !same_caller(caller, &other[place]) {
            return false;
        }
    }
    true
}

// ---- where a process stands

// Whether operands are the same, with a reply on top that isn't pushed yet.
fn same_replied(
    one: &Operands,
    reply: &Option<Value>,
    other: &Operands,
    other_reply: &Option<Value>,
) -> bool
    ensures { IsTrue result ↔ (topped reply.now one.now ≡ topped other_reply.now other.now) }
{
    match (reply, other_reply) {
        (None, None) => same_operands(one, other),
        (None, Some(other_value)) => has_on_top(one, other_value, other),
        (Some(value), None) => has_on_top(other, value, one),
        (Some(value), Some(other_value)) => value.is(other_value) && same_operands(one, other),
    }
}

// Whether two runs stand at the same place, with such replies.
fn same_config(
    one: &Config<'_>,
    reply: &Option<Value>,
    other: &Config<'_>,
    other_reply: &Option<Value>,
) -> bool
    requires one { AreCounted (config_of one.now) }
    requires other { AreCounted (config_of other.now) }
    ensures { IsTrue result ↔ (with_reply reply.now (config_of one.now) ≡ with_reply other_reply.now (config_of other.now)) }
{
    one.process == other.process
        && same_body(one.body, other.body)
        && one.pc == other.pc
        && same_replied(&one.stack, reply, &other.stack, other_reply)
        && same_frame(&one.run.frame, &other.run.frame)
        && same_callers(&one.callers, &other.callers)
}

/// Whether two processes stand at the same place, where each value of their variables has a number.
pub fn same_phase(one: &Phase<'_>, other: &Phase<'_>) -> bool
    requires one { IsCountedPhase (phase_of one.now) }
    requires other { IsCountedPhase (phase_of other.now) }
    ensures { IsTrue result ↔ (phase_of one.now ≡ phase_of other.now) }
{
    match (one, other) {
        (
            Phase::Running { config, reply },
            Phase::Running {
                config: other_config,
                reply: other_reply,
            },
        ) => same_config(config, reply, other_config, other_reply),
        (
            Phase::Asking { action, config },
            Phase::Asking {
                action: other_action,
                config: other_config,
            },
        ) => action.is(other_action) && same_config(config, &None, other_config, &None),
        (
            Phase::Finished { action },
            Phase::Finished {
                action: other_action,
            },
        ) => action.is(other_action),
        _ => false,
    }
}
