//! A program of two bodies, written by hand, and what it comes to.

use crate::config::{BodyNo, Config, Effect};
use crate::operands::Operands;
use crate::slots::add_copies;
use crate::stepping::step;
use emitted_code::{Emitted, EmittedBody, Instr, Listing, Mark, Shape};
use frame_variables::{Frame, Run, integer_in};
use orca_base::{NoMemory, ProcessNo, TextNo};
use orca_tree::Operator;
use std::alloc::Global;
use value_core::{BoxedParts, Parts, Value};

// A body with one slot for a loop.
fn body<'p>(alloc: Global, instrs: Vec<Instr<'p>>, opens: Vec<Value>) -> EmittedBody<'p> {
    EmittedBody {
        code: Listing {
            instrs,
            spots: Vec::new(alloc),
        },
        opens,
        spare: 1,
    }
}

// OrcaMain calls a function, whose second parameter is `out`, with 3 and the second element of an array, and counts from 1 to 3. The
// function puts the sum of its first parameter and 40 into the second.
fn program(alloc: Global) -> Result<Emitted<'static>, NoMemory> {
    let mut arr = Parts::new(alloc);
    arr.push(Value::Int(7))?;
    arr.push(Value::Int(9))?;
    let main = body(
        alloc,
        vec![in alloc;
            Instr::Push {
                value: Value::Int(3)
            },
            Instr::Push {
                value: Value::Int(2)
            },
            Instr::Call {
                function: 1,
                shapes: vec![in alloc;
                    Shape::Gives,
                    Shape::Lends {
                        slot: 0,
                        path: vec![in alloc; Mark::ByIndex { low: 1 }]?
                    }
                ]?
            },
            Instr::Pop,
            Instr::Push {
                value: Value::Int(1)
            },
            Instr::Push {
                value: Value::Int(3)
            },
            Instr::Count { slot: 1, to: 11 },
            Instr::Turn,
            Instr::Get {
                slot: 1,
                path: Vec::new(alloc)
            },
            Instr::Pop,
            Instr::Upto { slot: 1, to: 7 },
            Instr::End,
        ]?,
        vec![in alloc; Value::Array(BoxedParts::new(alloc, arr)?)]?,
    );
    let f = body(
        alloc,
        vec![in alloc;
            Instr::Get {
                slot: 0,
                path: Vec::new(alloc)
            },
            Instr::Push {
                value: Value::Int(40)
            },
            Instr::Apply {
                operator: Operator::Add
            },
            Instr::Put {
                slot: 1,
                path: Vec::new(alloc)
            },
            Instr::Return,
        ]?,
        vec![in alloc; Value::Int(0), Value::Int(5)]?,
    );
    let functions = vec![in alloc; None, Some(f)]?;
    let texts = vec![in alloc; main]?;
    Ok(Emitted {
        functions,
        texts,
        main: TextNo(0),
        types: Vec::new(alloc),
    })
}

// Where OrcaMain begins.
fn beginning(alloc: Global, code: &Emitted<'_>) -> Result<Config<'static>, NoMemory> {
    let mut slots = Parts::new(alloc);
    if let Some(main) = code.texts.get(0) {
        add_copies(alloc, &main.opens, &mut slots)?;
    }
    slots.push(Value::Int(0))?;
    Ok(Config {
        process: ProcessNo(0),
        body: BodyNo::Process { text: 0 },
        pc: 0,
        stack: Operands::new(alloc),
        run: Run {
            frame: Frame::new(alloc, slots)?,
            replies: &[],
            left: 0,
        },
        callers: Vec::new(alloc),
    })
}

// Whether the array in the first slot holds 7 and 43: what was there, and 3 and 40.
fn is_filled(config: &Config<'_>) -> bool {
    match config.run.frame.get(0) {
        Some(Value::Array(parts)) => match parts.as_parts().as_slice() {
            [first, second] => integer_in(first) == 7 && integer_in(second) == 43,
            _ => false,
        },
        _ => false,
    }
}

#[test]
fn a_program_runs_to_its_end(rt: HostRuntime) -> Result<(), NoMemory> {
    let alloc = rt.alloc();
    let code = program(alloc)?;
    let mut config = beginning(alloc, &code)?;
    let mut turns = 0u32;
    for _ in 0..100 {
        match step(alloc, &code, &mut config)? {
            Effect::Steps => {}
            Effect::Turns => turns = turns.saturating_add(1),
            effect => {
                assert!(rt; matches!(effect, Effect::Ends { value: None }));
                break;
            }
        }
    }
    assert!(rt; turns == 4);
    assert!(rt; is_filled(&config));
    Ok(())
}
