//! A checked program, compiled to be run.

ghost use Rattle.std.specs.Prelude.{◌≡◌, IfOk};
ghost use Rattle.orca_base.specs.Refusal.{IfBecause};
ghost use Rattle.accepted_law.specs.Limits.{IsWithinLimits};
ghost use Rattle.program_limits.specs.Passed.{Passes};
ghost use Rattle.program_bodies.specs.Codes.{sources};
ghost use Rattle.machine_laws.specs.ValueLaws.{ValueLaws};
ghost use Rattle.machine_laws.specs.LawsOnce.{ValueLaws-prop};
ghost use Rattle.code_machine.specs.Compiled.{IsCompiled, compiled_once};

use code_units::compile;
use emitted_code::Emitted;
use machine_laws::machine_laws;
use orca_base::Refusal;
use program_bodies::Code;
use program_limits::{PassedLimit, within_limits};
use std::alloc::Global;
use type_decls::Checked;

/// What performs and computes a checked program, by its code. It keeps that program (`tables.checked()`), and nothing of it changes.
///
/// It meets `Performer` and `Processor` with the meanings of the program's sources, `performs_of` and `computes_of` of meaning_rules
/// (specs/Meanings.antt there), and what fits is that of meaning_rules too (specs/Fitting.antt there).
#[derive(Drop)]
pub struct CodeMachine<'p> {
    pub tables: Code<'p>,
    pub code: Emitted<'p>,
    pub ghost within: { IsWithinLimits (sources tables.checked) },
    pub ghost compiled: { IsCompiled (sources tables.checked) code } by { compiled_once (sources tables.checked) code },
    pub ghost laws: { ValueLaws } by { ValueLaws-prop },
}

impl<'p> CodeMachine<'p> {
    /// The machine of a checked program. Its cost is that of `Code::new` and of `compile` of code_units.
    ///
    /// # Errors
    /// The limit that the program passes: of parameters (255), or of tokens and declared names together (100,000); and want of memory.
    pub fn new(alloc: Global, checked: Checked<'p>) -> Result<CodeMachine<'p>, Refusal<PassedLimit>>
        ensures program { IfOk result (λ m. m.tables.checked ≡ checked.entry) }
        ensures passed { IfBecause result (Passes (sources checked.entry)) }
    {
        within_limits(alloc, checked.program)?;
        machine_laws();
        let tables = Code::new(alloc, checked)?;
        let code = compile(alloc, &tables)?;
        Ok(CodeMachine { tables, code })
    }
}
