//! A program of one process and one object type, written by hand, and what it comes to.

use crate::attempts::try_operation;
use crate::makings::make_object;
use crate::process::{CodeProcess, answer, go, start};
use emitted_code::{Emitted, EmittedBody, EmittedOperation, EmittedType, Instr, Listing};
use frame_variables::integer_in;
use orca_base::{KindNo, NoMemory, OpNo, ProcessNo, TextNo};
use orca_tree::Operator;
use std::alloc::Global;
use value_core::{Action, Halt, Making, Parts, Reply, Tried, Value};

// A body without loops.
fn body<'p>(alloc: Global, instrs: Vec<Instr<'p>>, opens: Vec<Value>) -> EmittedBody<'p> {
    EmittedBody {
        code: Listing {
            instrs,
            spots: Vec::new(alloc),
        },
        opens,
        spare: 0,
    }
}

// OrcaMain begins two turns, makes an object, calls its operation with 7, puts what is replied into a variable, and ends.
fn main_text(alloc: Global) -> Result<EmittedBody<'static>, NoMemory> {
    let instrs = vec![in alloc;
        Instr::Turn,
        Instr::Turn,
        Instr::Make {
            kind: KindNo(1),
            count: 1,
            slot: 0
        },
        Instr::Pop,
        Instr::Push {
            value: Value::Int(7)
        },
        Instr::Invoke {
            kind: KindNo(1),
            operation: OpNo(0),
            count: 1,
            object: 0
        },
        Instr::Put {
            slot: 1,
            path: Vec::new(alloc)
        },
        Instr::End,
    ]?;
    Ok(body(alloc, instrs, vec![in alloc; Value::Int(0), Value::Int(0)]?))
}

// An operation of two guards: where its argument is 1 it puts 5 into the field and gives 9, and the other guard is false.
fn operation(alloc: Global) -> Result<EmittedOperation<'static>, NoMemory> {
    let instrs = vec![in alloc;
        Instr::Get {
            slot: 0,
            path: Vec::new(alloc)
        },
        Instr::Push {
            value: Value::Int(1)
        },
        Instr::Apply {
            operator: Operator::Equal
        },
        Instr::Guard { to: 8 },
        Instr::Push {
            value: Value::Int(5)
        },
        Instr::Put {
            slot: 1,
            path: Vec::new(alloc)
        },
        Instr::Push {
            value: Value::Int(9)
        },
        Instr::Result,
        Instr::Push {
            value: Value::Truth(false)
        },
        Instr::Guard { to: 11 },
        Instr::Return,
        Instr::Blocked,
    ]?;
    Ok(EmittedOperation {
        body: body(alloc, instrs, Vec::new(alloc)),
        first: 1,
    })
}

// Its object type, whose field is 3 where an object is made.
fn object_type(alloc: Global) -> Result<EmittedType<'static>, NoMemory> {
    let instrs = vec![in alloc;
        Instr::Push {
            value: Value::Int(3)
        },
        Instr::Put {
            slot: 0,
            path: Vec::new(alloc)
        },
        Instr::End,
    ]?;
    Ok(EmittedType {
        making: body(alloc, instrs, vec![in alloc; Value::Int(0)]?),
        operations: vec![in alloc; operation(alloc)?]?,
    })
}

fn program(alloc: Global) -> Result<Emitted<'static>, NoMemory> {
    Ok(Emitted {
        functions: Vec::new(alloc),
        texts: vec![in alloc; main_text(alloc)?]?,
        main: TextNo(0),
        types: vec![in alloc; Some(object_type(alloc)?)]?,
    })
}

// Whether these values are one integer, this one.
fn is_one(values: &Parts, number: i64) -> bool {
    match values.as_slice() {
        [value] => integer_in(value) == number,
        _ => false,
    }
}

fn one(alloc: Global, number: i64) -> Result<Parts, NoMemory> {
    let mut values = Parts::new(alloc);
    values.push(Value::Int(number))?;
    Ok(values)
}

fn is_at_call(halt: &Halt) -> bool {
    match halt {
        Halt::At {
            action: Action::Call { args, .. },
        } => is_one(args, 7),
        _ => false,
    }
}

fn is_gift(reply: &Reply, number: i64) -> bool {
    match reply {
        Reply::Gave { value } => integer_in(value) == number,
        _ => false,
    }
}

// Whether a try ran by this guard, left one integer and gave another.
fn is_done(tried: &Tried, by: u16, left: i64, given: i64) -> bool {
    match tried {
        Tried::Did {
            guard,
            state,
            reply,
        } => *guard == by && is_one(state, left) && is_gift(reply, given),
        _ => false,
    }
}

// Whether a try without guards left one integer.
fn is_kept(tried: &Tried, left: i64) -> bool {
    match tried {
        Tried::Did { guard, state, .. } => *guard == 0 && is_one(state, left),
        _ => false,
    }
}

#[test]
fn a_process_stops_at_turns_and_actions(rt: HostRuntime) -> Result<(), NoMemory> {
    let alloc = rt.alloc();
    let code = program(alloc)?;
    let process = start(alloc, &code, TextNo(0), ProcessNo(0), &Parts::new(alloc))?;
    let (process, halt) = go(alloc, &code, process, 1)?;
    assert!(rt; matches!(halt, Halt::Paused));
    assert!(rt; process.turns == 1);
    let (process, halt) = go(alloc, &code, process, 5)?;
    assert!(rt;
        matches!(
            halt,
            Halt::At {
                action: Action::Make { .. }
            }
        )
    );
    assert!(rt; process.turns == 2);
    let process = answer(process, Reply::Done);
    let (process, halt) = go(alloc, &code, process, 5)?;
    assert!(rt; is_at_call(&halt));
    let value = Value::Int(9);
    let process: CodeProcess<'_> = answer(process, Reply::Gave { value });
    let (process, halt) = go(alloc, &code, process, 5)?;
    assert!(rt;
        matches!(
            halt,
            Halt::At {
                action: Action::Ended
            }
        )
    );
    assert!(rt; process.turns == 2);
    Ok(())
}

#[test]
fn an_operation_is_tried_guard_by_guard(rt: HostRuntime) -> Result<(), NoMemory> {
    let alloc = rt.alloc();
    let code = program(alloc)?;
    let state = one(alloc, 3)?;
    let kind = KindNo(1);
    let tried = try_operation(alloc, &code, kind, OpNo(0), &state, &one(alloc, 1)?)?;
    assert!(rt; is_done(&tried, 1, 5, 9));
    let tried = try_operation(alloc, &code, kind, OpNo(0), &state, &one(alloc, 2)?)?;
    assert!(rt; matches!(tried, Tried::Blocked));
    assert!(rt; is_one(&state, 3));
    let tried = try_operation(alloc, &code, KindNo(0), OpNo(0), &state, &state)?;
    assert!(rt; is_kept(&tried, 3));
    Ok(())
}

#[test]
fn an_object_is_made_by_its_type(rt: HostRuntime) -> Result<(), NoMemory> {
    let alloc = rt.alloc();
    let code = program(alloc)?;
    let made = match make_object(alloc, &code, KindNo(1))? {
        Making::Made { state } => is_one(&state, 3),
        Making::Broke { .. } => false,
    };
    assert!(rt; made);
    let none = match make_object(alloc, &code, KindNo(2))? {
        Making::Made { state } => state.is_empty(),
        Making::Broke { .. } => false,
    };
    assert!(rt; none);
    Ok(())
}
