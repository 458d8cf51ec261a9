//! The program that is made of a number: its text, and what runs it.

ghost use Rattle.std.specs.Prelude.{◌≡◌, ◌<◌, ◌≤◌, ◌∷◌, [], ℕ, List, IfOk, Option, Some, map};
ghost use Rattle.orca_io.specs.Causes.{Rose};
ghost use Rattle.orca_io.specs.Files.{File};
ghost use Rattle.orca_io.specs.Reading.{FileRead};
ghost use Rattle.link_rules.specs.Units.{source};
ghost use Rattle.orca_front.specs.Sources.{AreUnits, IsAccepted, file_of};
ghost use Rattle.command_files.specs.Sources.{Word};
ghost use Rattle.command_files.specs.Stopped.{StoppedAt};
ghost use Rattle.command_output.specs.Printed.{HasStopped};
ghost use Rattle.generated_program.specs.Program.{program_file, program_text};
ghost use Rattle.orca_answers.specs.Choosing.{Chooser};
ghost use Rattle.orca_answers.specs.Endings.{IsAnswer};
ghost use Rattle.orca_answers.specs.Job.{deed_in, says};
ghost use Rattle.orca_answers.specs.Programs.{units_of};

use crate::program::{linked_program, machine_of};
use code_machine::CodeMachine;
use command_output::{FINISHED, NO_MEMORY, WRITE_FAULT};
use generated_program::program_law;
use make_command::print_program;
use orca_base::{NoMemory, Refusal};
use orca_front::SourceFile;
use orca_io::{Sink, SinkFault};
use orca_modules::Program;
use std::alloc::Global;
use std::slice;

/// Says the text of the program that is made of a number (docs/FORMATS.md, The generated program), one put a line. Nothing is kept.
pub fn show_program<K: Sink>(alloc: Global, number: u64, out: &mut K) -> u8
    ensures said { (policy : Chooser) (words : List Word) (told : Option (List File)) (before now : ℕ) (old new : List FileRead) →
        deed_in words ≡ Some (says (program_text number)) →
        IsAnswer policy words told old new (StoppedAt before now old new) (K.told out.old) (K.told out.new) result policy.told }
    ensures later { K.faults out.old ≤ K.faults out.new }
    ensures failed { result ≡ WRITE_FAULT → Rose (K.faults out.old) (K.faults out.new) }
    ensures stopped { K.faults out.old < K.faults out.new → HasStopped result }
{
    match print_program(alloc, out, number) {
        Ok(()) => FINISHED,
        Err(SinkFault::Failed) => WRITE_FAULT,
        Err(SinkFault::NoMemory) => NO_MEMORY,
    }
}

/// The program that is made of a number, of its file: there is one for each number (`program_law`).
pub fn made_program(alloc: Global, file: &SourceFile<'_>) -> Result<Program, NoMemory>
    requires { (number : ℕ) × (file_of file.now ≡ program_file number) }
    ensures { IfOk result (λ p. AreUnits (file_of file.now ∷ []) (map source p.units.items)) }
{
    program_law();
    match linked_program(alloc, slice::from_ref(file)) {
        Ok(program) => Ok(program),
        Err(Refusal::NoMemory) => Err(NoMemory),
        Err(Refusal::Because { .. }) => unreachable!(),
    }
}

/// What runs that program.
pub fn made_machine<'p>(alloc: Global, program: &'p Program) -> Result<CodeMachine<'p>, NoMemory>
    requires { (number : ℕ) × AreUnits (program_file number ∷ []) (map source program.now.units.items) }
    ensures of { IfOk result (λ m. units_of m ≡ map source program.now.units.items) }
    ensures accepted { (files : List File) → AreUnits files (map source program.now.units.items) →
        IfOk result (λ _. IsAccepted files (map source program.now.units.items)) }
{
    program_law();
    match machine_of(alloc, program) {
        Ok(machine) => Ok(machine),
        Err(Refusal::NoMemory) => Err(NoMemory),
        Err(Refusal::Because { .. }) => unreachable!(),
    }
}
