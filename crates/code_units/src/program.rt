//! The code of a program.

ghost use Rattle.std.specs.Prelude.{◌≡◌, IfOk, List, length, map, option_and_then, option_map, slice_get};
ghost use Rattle.link_rules.specs.Units.{Source};
ghost use Rattle.type_rules.specs.TopLevel.{top_names};
ghost use Rattle.meaning_rules.specs.Programs.{main_text, process_texts, specifications};
ghost use Rattle.code_rules.specs.Program.{function_at, process_at, program_code, type_at};
ghost use Rattle.program_bodies.specs.Codes.{IsCode};
ghost use Rattle.emitted_code.specs.Views.{body_seen, program_seen, type_seen};

use crate::bodies::compile_function;
use crate::objects::compile_type;
use crate::processes::compile_process;
use emitted_code::{Emitted, EmittedBody, EmittedType};
use orca_base::{NoMemory, TextNo};
use program_bodies::Code;
use std::alloc::Global;

// The function that is this one of the top level's names; none of what is no function.
fn compile_top<'p>(
    alloc: Global,
    code: &Code<'p>,
    number: usize,
) -> Result<Option<EmittedBody<'p>>, NoMemory>
    ensures { (us : List Source) → IsCode us code.now →
        IfOk result (λ o. option_map body_seen o ≡ option_and_then (function_at us) (slice_get (top_names us) number)) }
{
    match code.function(number) {
        None => Ok(None),
        Some(block) => {
            let own = compile_function(alloc, code, block)?;
            Ok(Some(own))
        }
    }
}

// How many names the top level has.
fn top_count(code: &Code<'_>) -> usize
    ensures { (us : List Source) → IsCode us code.now → result ≡ length (top_names us) }
{
    code.rule_tables().forms.index.tops().len()
}

// How many object types have a specification.
fn type_count(code: &Code<'_>) -> usize
    ensures { (us : List Source) → IsCode us code.now → result ≡ length (specifications us) }
{
    code.tables().specifications().len()
}

// The text that a run begins with.
fn main_of(code: &Code<'_>) -> TextNo
    ensures { (us : List Source) → IsCode us code.now → result ≡ main_text us }
{
    code.tables().main_text()
}

// The functions, by their numbers at the top.
fn compile_functions<'p>(
    alloc: Global,
    code: &Code<'p>,
) -> Result<Vec<Option<EmittedBody<'p>>>, NoMemory>
    ensures { (us : List Source) → IsCode us code.now → IfOk result (λ v. map (option_map body_seen) v.items ≡ map (function_at us) (top_names us)) }
{
    let mut all = Vec::new(alloc);
    let count = top_count(code);
    'tops: for number in 0..count {
        let own = compile_top(alloc, code, number)?;
        all.push(own)?;
    }
    Ok(all)
}

// The processes, by the numbers of their texts.
fn compile_processes<'p>(alloc: Global, code: &Code<'p>) -> Result<Vec<EmittedBody<'p>>, NoMemory>
    ensures { (us : List Source) → IsCode us code.now → IfOk result (λ v. map body_seen v.items ≡ map (process_at us) (process_texts us)) }
{
    let mut all = Vec::new(alloc);
    let processes = code.tables().processes();
    'processes: for (place, item) in processes.iter().enumerate() {
        let own = compile_process(alloc, code, place, item)?;
        all.push(own)?;
    }
    Ok(all)
}

// The object types, by their numbers less one.
fn compile_types<'p>(
    alloc: Global,
    code: &Code<'p>,
) -> Result<Vec<Option<EmittedType<'p>>>, NoMemory>
    ensures { (us : List Source) → IsCode us code.now → IfOk result (λ v. map (option_map type_seen) v.items ≡ map (type_at us) (specifications us)) }
{
    let mut all = Vec::new(alloc);
    let count = type_count(code);
    'specified: for place in 0..count {
        let own = compile_type(alloc, code, place)?;
        all.push(own)?;
    }
    Ok(all)
}

/// The code of a program. It is exactly that of the definitions (code_rules): of each function, process, operation and making, at its number.
///
/// # Errors
/// Want of memory.
pub fn compile<'p>(alloc: Global, code: &Code<'p>) -> Result<Emitted<'p>, NoMemory>
    ensures { (us : List Source) → IsCode us code.now → IfOk result (λ p. program_seen p ≡ program_code us) }
{
    let functions = compile_functions(alloc, code)?;
    let texts = compile_processes(alloc, code)?;
    let types = compile_types(alloc, code)?;
    let main = main_of(code);
    Ok(Emitted {
        functions,
        texts,
        main,
        types,
    })
}
