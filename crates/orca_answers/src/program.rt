//! The program in the files: the first reason why it can't be run, or what runs it.

ghost use Rattle.std.specs.Prelude.{◌≡◌, List, map, IfOk, OnOk};
ghost use Rattle.accepted_law.specs.Limits.{IsWithinLimits};
ghost use Rattle.program_bodies.specs.Codes.{sources};
ghost use Rattle.link_rules.specs.Units.{source};
ghost use Rattle.orca_base.specs.Refusal.{IfBecause};
ghost use Rattle.orca_front.specs.Sources.{AreUnits, IsAccepted, file_of};
ghost use Rattle.orca_io.specs.Files.{File};
ghost use Rattle.orca_answers.specs.Programs.{IsProgramFault, program_line, program_status, units_of};

use code_machine::CodeMachine;
use command_files::front_status;
use command_output::LIMIT;
use orca_base::{NoMemory, Refusal, refuse};
use orca_front::{FrontFault, SourceFile, accepted, fault_line, linked};
use orca_modules::Program;
use program_limits::{PassedLimit, within_limits};
use replay_command::passed_line;
use std::alloc::Global;
use type_decls::Checked;

/// Why sources are no accepted program.
#[derive(Debug, Drop)]
pub enum ProgramFault {
    /// Some text is no unit, or the units don't link, or break a rule of typing.
    Refused { fault: FrontFault },
    /// They would be one, and pass this limit.
    Limited { passed: PassedLimit },
}

impl ProgramFault {
    /// The status with which the program ends for it.
    pub fn status(&self) -> u8
        ensures { result ≡ program_status self.now }
    {
        match self {
            ProgramFault::Refused { fault } => front_status(fault),
            ProgramFault::Limited { .. } => LIMIT,
        }
    }

    /// The line that tells it.
    pub fn line(&self, alloc: Global) -> Result<Vec<u8>, NoMemory>
        ensures { IfOk result (λ line. line.items ≡ program_line self.now) }
    {
        match self {
            ProgramFault::Refused { fault } => fault_line(alloc, fault),
            ProgramFault::Limited { passed } => passed_line(alloc, *passed),
        }
    }
}

/// The program that sources are, where they link.
pub fn linked_program(
    alloc: Global,
    files: &[SourceFile<'_>],
) -> Result<Program, Refusal<ProgramFault>>
    ensures program { IfOk result (λ p. AreUnits (map file_of files.now) (map source p.units.items)) }
    ensures refused { IfBecause result (IsProgramFault (map file_of files.now)) }
{
    match linked(alloc, files) {
        Ok(program) => Ok(program),
        Err(Refusal::Because { cause }) => refuse(ProgramFault::Refused { fault: cause }),
        Err(Refusal::NoMemory) => Err(Refusal::NoMemory),
    }
}

/// The program beside its tables, where it breaks no rule of typing.
pub fn typed<'p>(alloc: Global, program: &'p Program) -> Result<Checked<'p>, Refusal<ProgramFault>>
    ensures program { IfOk result (λ c. c.program.now ≡ program.now) }
    ensures accepted { (files : List File) → AreUnits files (map source program.now.units.items) →
        IfOk result (λ _. IsAccepted files (map source program.now.units.items)) }
    ensures refused { (files : List File) → AreUnits files (map source program.now.units.items) → IfBecause result (IsProgramFault files) }
{
    match accepted(alloc, program) {
        Ok(checked) => Ok(checked),
        Err(Refusal::Because { cause }) => refuse(ProgramFault::Refused { fault: cause }),
        Err(Refusal::NoMemory) => Err(Refusal::NoMemory),
    }
}

/// Whether the program keeps within the limits.
pub fn fits(alloc: Global, program: &Program) -> Result<(), Refusal<ProgramFault>>
    ensures within { OnOk result (IsWithinLimits (map source program.now.units.items)) }
    ensures refused { (files : List File) → IsAccepted files (map source program.now.units.items) →
        IfBecause result (IsProgramFault files) }
{
    match within_limits(alloc, program) {
        Ok(()) => Ok(()),
        Err(Refusal::Because { cause }) => refuse(ProgramFault::Limited { passed: cause }),
        Err(Refusal::NoMemory) => Err(Refusal::NoMemory),
    }
}

// What runs a checked program, where it keeps within the limits.
fn checked_machine<'p>(
    alloc: Global,
    checked: Checked<'p>,
) -> Result<CodeMachine<'p>, Refusal<ProgramFault>>
    ensures of { IfOk result (λ m. m.tables.checked ≡ checked.entry) }
    ensures refused { (files : List File) → IsAccepted files (sources checked.entry) → IfBecause result (IsProgramFault files) }
{
    match CodeMachine::new(alloc, checked) {
        Ok(machine) => Ok(machine),
        Err(Refusal::Because { cause }) => refuse(ProgramFault::Limited { passed: cause }),
        Err(Refusal::NoMemory) => Err(Refusal::NoMemory),
    }
}

/// Whether the program that sources link to is accepted, or why not.
pub fn judged(alloc: Global, program: &Program) -> Result<(), Refusal<ProgramFault>>
    ensures within { OnOk result (IsWithinLimits (map source program.now.units.items)) }
    ensures accepted { (files : List File) → AreUnits files (map source program.now.units.items) →
        OnOk result (IsAccepted files (map source program.now.units.items)) }
    ensures refused { (files : List File) → AreUnits files (map source program.now.units.items) → IfBecause result (IsProgramFault files) }
{
    match typed(alloc, program) {
        Ok(_checked) => fits(alloc, program),
        Err(refused) => Err(refused),
    }
}

/// What runs the program that sources link to, where it is accepted, or why it isn't.
pub fn machine_of<'p>(
    alloc: Global,
    program: &'p Program,
) -> Result<CodeMachine<'p>, Refusal<ProgramFault>>
    ensures of { IfOk result (λ m. units_of m ≡ map source program.now.units.items) }
    ensures accepted { (files : List File) → AreUnits files (map source program.now.units.items) →
        IfOk result (λ _. IsAccepted files (map source program.now.units.items)) }
    ensures refused { (files : List File) → AreUnits files (map source program.now.units.items) → IfBecause result (IsProgramFault files) }
{
    match typed(alloc, program) {
        Ok(checked) => checked_machine(alloc, checked),
        Err(refusal) => Err(refusal),
    }
}
