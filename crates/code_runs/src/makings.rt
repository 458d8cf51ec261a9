//! Makings of objects.

ghost use Rattle.std.specs.Prelude.{◌≡◌, IfOk, Some};
ghost use Rattle.code_rules.specs.Performing.{made_by, makes, type_made};
ghost use Rattle.emitted_code.specs.Views.{body_seen, program_seen};
ghost use Rattle.code_steps.specs.Bodies.{config_of, effect_in, number_of};
ghost use Rattle.code_steps.specs.declared.config.BodyNo.TheVariants.{Making as OfMaking};
ghost use Rattle.code_runs.specs.Runs.{Gives, HasRoomThroughout, IsCame, come_to};

use crate::beginnings::{NOBODY, begin};
use crate::runs::run;
use code_steps::{BodyNo, Config, Effect, add_copies, add_spare, body_at, first_values};
use emitted_code::{Emitted, EmittedBody};
use orca_base::{FaultKind, KindNo, NoMemory, OPERATION_TURNS};
use std::alloc::Global;
use value_core::{Making, Parts};

// What was made, of which so many values are the object's, where its body halted so.
fn made(
    alloc: Global,
    fields: usize,
    effect: Effect,
    config: Config<'_>,
) -> Result<Making, NoMemory>
    ensures { IfOk result (λ m. IsCame (made_by fields (come_to (effect_in effect (config_of config.entry)) 0)) m) }
{
    match effect {
        Effect::Ends { .. } => {
            let state = Parts::from_vec(first_values(alloc, config.run.frame, fields)?);
            Ok(Making::Made { state })
        }
        Effect::Fails { fault } => Ok(Making::Broke { fault }),
        _ => Ok(Making::Broke {
            fault: FaultKind::TooLong,
        }),
    }
}

// What the making of an object gives, whose body is this.
fn make_by(
    alloc: Global,
    code: &Emitted<'_>,
    kind: usize,
    part: &EmittedBody<'_>,
) -> Result<Making, NoMemory>
    ensures { HasRoomThroughout (program_seen code.now) → IfOk result (λ m.
        Gives (type_made (program_seen code.now) (number_of (OfMaking kind)) (Some (body_seen part.now))) m) }
{
    let fields = part.opens.len();
    let mut slots = Parts::new(alloc);
    add_copies(alloc, &part.opens, &mut slots)?;
    add_spare(part.spare, &mut slots)?;
    let mut config = begin(alloc, NOBODY, BodyNo::Making { kind }, 0, slots)?;
    let mut left = u64::from(OPERATION_TURNS) + 1;
    let effect = run(alloc, code, &mut config, &mut left)?;
    made(alloc, fields, effect, config)
}

/// What the making of an object gives, by the number of its type: what the code comes to with some number of instructions (`makes` of
/// code_rules; docs/LANGUAGE.md, Code). An object of a type without code has no fields. Where the code is stuck nothing is said.
///
/// # Errors
/// Want of memory, which is also answered after 2^64 - 1 instructions.
pub fn make_object(alloc: Global, code: &Emitted<'_>, kind: KindNo) -> Result<Making, NoMemory>
    ensures { HasRoomThroughout (program_seen code.now) → IfOk result (λ m. Gives (makes (program_seen code.now) kind) m) }
{
    let number = usize::from(kind.0);
    match body_at(code, BodyNo::Making { kind: number }) {
        Some(part) => make_by(alloc, code, number, part),
        None => Ok(Making::Made {
            state: Parts::new(alloc),
        }),
    }
}
