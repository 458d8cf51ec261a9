//! Messages of pools and flags.

ghost use Rattle.std.specs.Prelude.{◌≡◌, IfOk};
ghost use Rattle.value_core.specs.declared.action.Action.TheVariants.{Make};
ghost use Rattle.value_core.specs.Datum.{list_of};
ghost use Rattle.bag_copies.specs.Asks.{AsksCall, AsksFork, given};

use orca_base::{CallNo, KindNo, NoMemory, ObjectId, OpNo, ProcessNo, TextNo};
use std::alloc::Global;
use value_core::{Action, Message, Parts, Value};

/// The message of a make.
pub fn make(process: u16, call: u64, kind: KindNo, object: ObjectId) -> Message
    ensures process { result.process.0 ≡ process }
    ensures call { result.call.0 ≡ call }
    ensures action { result.action ≡ Make kind object }
{
    Message {
        process: ProcessNo(process),
        call: CallNo(call),
        action: Action::Make { kind, object },
    }
}

/// The message of a call, with this argument where there is one.
pub fn call(
    alloc: Global,
    process: u16,
    call: u64,
    operation: (KindNo, OpNo),
    object: ObjectId,
    argument: Option<i64>,
) -> Result<Message, NoMemory>
    ensures { IfOk result (λ m. AsksCall m process call operation object argument) }
{
    let (kind, op) = operation;
    let args = arguments(alloc, argument)?;
    Ok(Message {
        process: ProcessNo(process),
        call: CallNo(call),
        action: Action::Call {
            kind,
            op,
            object,
            args,
        },
    })
}

/// The message of a fork of the text 1, on the member 1, that is handed an object and a number.
pub fn fork(
    alloc: Global,
    process: u16,
    call: u64,
    object: ObjectId,
    number: i64,
) -> Result<Message, NoMemory>
    ensures { IfOk result (λ m. AsksFork m process call object number) }
{
    let mut args = Parts::new(alloc);
    args.push(Value::Object(object))?;
    args.push(Value::Int(number))?;
    Ok(Message {
        process: ProcessNo(process),
        call: CallNo(call),
        action: Action::Fork {
            process: TextNo(1),
            args,
            place_on: Some(1),
        },
    })
}

// This integer alone, or nothing.
fn arguments(alloc: Global, argument: Option<i64>) -> Result<Parts, NoMemory>
    ensures { IfOk result (λ args. list_of args ≡ given argument) }
{
    let mut args = Parts::new(alloc);
    let Some(number) = argument else {
        return Ok(args);
    };
    args.push(Value::Int(number))?;
    Ok(args)
}
