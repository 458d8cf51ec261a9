//! What a policy chooses for the sites of the program in the files.

ghost use Rattle.std.specs.Prelude.{◌≡◌, ◌⊎◌, ◌<◌, ◌≤◌, List, OnErr, Some, map, IfOk};
ghost use Rattle.orca_base.specs.Refusal.{IfBecause};
ghost use Rattle.orca_io.specs.Causes.{Rose};
ghost use Rattle.orca_io.specs.Files.{File};
ghost use Rattle.orca_io.specs.Reading.{HasAsked};
ghost use Rattle.command_files.specs.Stopped.{StoppedAt};
ghost use Rattle.link_rules.specs.Units.{Source, source};
ghost use Rattle.accepted_law.specs.Limits.{IsWithinLimits};
ghost use Rattle.orca_front.specs.Sources.{AreUnits, IsAccepted, file_of};
ghost use Rattle.program_bodies.specs.Codes.{sources};
ghost use Rattle.command_files.specs.Sources.{Word};
ghost use Rattle.command_output.specs.Printed.{HasStopped};
ghost use Rattle.orca_answers.specs.Choosing.{AreChosen, WasAskedFirst, chooser_of};
ghost use Rattle.orca_answers.specs.Endings.{IsAnswer};
ghost use Rattle.orca_answers.specs.Job.{chooses, deed_in};
ghost use Rattle.orca_answers.specs.Programs.{IsProgramFault};

use crate::ending::{said_refused, said_unread};
use crate::program::{ProgramFault, fits, linked_program, typed};
use choice_command::choice_lines;
use command_files::sources;
use command_output::{FINISHED, NO_MEMORY, READ_FAULT, WRITE_FAULT, print_ending};
use orca_base::Refusal;
use orca_front::SourceFile;
use orca_io::{Shelf, Sink};
use orca_modules::Program;
use replica_choice::Policy;
use std::alloc::Global;
use type_decls::Checked;

// What a policy chooses for the sites of a checked program that keeps within the limits.
fn within_choices<P: Policy>(
    alloc: Global,
    nodes: u8,
    checked: &Checked<'_>,
    policy: &mut P,
) -> Result<Vec<u8>, Refusal<ProgramFault>>
    requires within { IsWithinLimits (sources checked.now) }
    ensures chosen { IfOk result (λ text.
        AreChosen (chooser_of P.rule P.told policy.old) nodes (sources checked.now) text.items (P.told policy.new)) }
    ensures refused { (told : List File) → IfBecause result (IsProgramFault told) }
    ensures unasked { IfBecause result (λ _. P.told policy.new ≡ P.told policy.old) }
    ensures first { OnErr result ((P.told policy.new ≡ P.told policy.old) ⊎ (IsWithinLimits (sources checked.now) ×
        WasAskedFirst (chooser_of P.rule P.told policy.old) nodes (sources checked.now) (P.told policy.new))) }
    ensures same_rule { P.rule policy.new ≡ P.rule policy.old }
{
    match choice_lines(alloc, checked, policy, nodes) {
        Ok(text) => Ok(text),
        Err(_) => Err(Refusal::NoMemory),
    }
}

// The same, where it keeps within them, or which it passes.
fn checked_choices<P: Policy>(
    alloc: Global,
    nodes: u8,
    checked: &Checked<'_>,
    policy: &mut P,
) -> Result<Vec<u8>, Refusal<ProgramFault>>
    ensures chosen { IfOk result (λ text.
        AreChosen (chooser_of P.rule P.told policy.old) nodes (sources checked.now) text.items (P.told policy.new)) }
    ensures refused { (told : List File) → IsAccepted told (sources checked.now) → IfBecause result (IsProgramFault told) }
    ensures unasked { IfBecause result (λ _. P.told policy.new ≡ P.told policy.old) }
    ensures first { OnErr result ((P.told policy.new ≡ P.told policy.old) ⊎ (IsWithinLimits (sources checked.now) ×
        WasAskedFirst (chooser_of P.rule P.told policy.old) nodes (sources checked.now) (P.told policy.new))) }
    ensures same_rule { P.rule policy.new ≡ P.rule policy.old }
{
    match fits(alloc, checked.program) {
        Ok(()) => within_choices(alloc, nodes, checked, policy),
        Err(refusal) => Err(refusal),
    }
}

// What it chooses for those of the program that sources link to, where it is accepted, or why it isn't.
fn linked_choices<P: Policy>(
    alloc: Global,
    nodes: u8,
    program: &Program,
    policy: &mut P,
) -> Result<Vec<u8>, Refusal<ProgramFault>>
    ensures chosen { IfOk result (λ text.
        AreChosen (chooser_of P.rule P.told policy.old) nodes (map source program.now.units.items) text.items (P.told policy.new)) }
    ensures accepted { (told : List File) → AreUnits told (map source program.now.units.items) →
        IfOk result (λ _. IsAccepted told (map source program.now.units.items)) }
    ensures refused { (told : List File) → AreUnits told (map source program.now.units.items) → IfBecause result (IsProgramFault told) }
    ensures unasked { IfBecause result (λ _. P.told policy.new ≡ P.told policy.old) }
    ensures first { (told : List File) → AreUnits told (map source program.now.units.items) →
        OnErr result ((P.told policy.new ≡ P.told policy.old) ⊎ (IsAccepted told (map source program.now.units.items) ×
        IsWithinLimits (map source program.now.units.items) ×
        WasAskedFirst (chooser_of P.rule P.told policy.old) nodes (map source program.now.units.items) (P.told policy.new))) }
    ensures same_rule { P.rule policy.new ≡ P.rule policy.old }
{
    match typed(alloc, program) {
        Ok(checked) => checked_choices(alloc, nodes, &checked, policy),
        Err(refusal) => Err(refusal),
    }
}

// What it chooses for those of the program that sources are, where it is accepted, or why it isn't.
fn program_choices<P: Policy>(
    alloc: Global,
    nodes: u8,
    files: &[SourceFile<'_>],
    policy: &mut P,
) -> Result<Vec<u8>, Refusal<ProgramFault>>
    ensures chosen { IfOk result (λ text. (units : List Source) × IsAccepted (map file_of files.now) units ×
        AreChosen (chooser_of P.rule P.told policy.old) nodes units text.items (P.told policy.new)) }
    ensures refused { IfBecause result (IsProgramFault (map file_of files.now)) }
    ensures unasked { IfBecause result (λ _. P.told policy.new ≡ P.told policy.old) }
    ensures first { OnErr result ((P.told policy.new ≡ P.told policy.old) ⊎ ((units : List Source) ×
        IsAccepted (map file_of files.now) units × IsWithinLimits units ×
        WasAskedFirst (chooser_of P.rule P.told policy.old) nodes units (P.told policy.new))) }
    ensures same_rule { P.rule policy.new ≡ P.rule policy.old }
{
    match linked_program(alloc, files) {
        Ok(program) => linked_choices(alloc, nodes, &program, policy),
        Err(refusal) => Err(refusal),
    }
}

/// Says what a policy chooses for the sites of the program in the files, among so many members, or why nothing, as `check` does. Nothing is
/// kept. Where its choices are told, whole or a front of them, the policy was asked about each site of that program, in order; where memory
/// lacked before that, about so many from the front; and else about none.
pub fn choose_files<F: Shelf, K: Sink, P: Policy>(
    alloc: Global,
    nodes: u8,
    files: &[&str],
    shelf: &mut F,
    out: &mut K,
    policy: &mut P,
) -> u8
    ensures said { (words : List Word) → deed_in words ≡ Some (chooses nodes (map (λ f. f.now) files.now)) →
        IsAnswer (chooser_of P.rule P.told policy.old) words (F.told shelf.old) (F.reads shelf.old) (F.reads shelf.new)
        (StoppedAt (F.faults shelf.old) (F.faults shelf.new) (F.reads shelf.old) (F.reads shelf.new))
        (K.told out.old) (K.told out.new) result (P.told policy.new) }
    ensures same_rule { P.rule policy.new ≡ P.rule policy.old }
    ensures same { F.told shelf.new ≡ F.told shelf.old }
    ensures read { F.faults shelf.old ≤ F.faults shelf.new }
    ensures asked { HasAsked (F.may_fail shelf.old) (map (λ f. f.now) files.now) (F.reads shelf.old) (F.reads shelf.new) }
    ensures may { F.may_fail shelf.new ≡ F.may_fail shelf.old }
    ensures read_fault { F.faults shelf.old < F.faults shelf.new → (result ≡ READ_FAULT) ⊎ HasStopped result }
    ensures later { K.faults out.old ≤ K.faults out.new }
    ensures failed { result ≡ WRITE_FAULT → Rose (K.faults out.old) (K.faults out.new) }
    ensures stopped { K.faults out.old < K.faults out.new → HasStopped result }
{
    let sources = match sources(alloc, shelf, files) {
        Ok(sources) => sources,
        Err(Refusal::Because { cause }) => return said_unread(alloc, out, cause),
        Err(Refusal::NoMemory) => return NO_MEMORY,
    };
    match program_choices(alloc, nodes, &sources, policy) {
        Ok(text) => print_ending(out, Ok(text), FINISHED),
        Err(Refusal::Because { cause }) => said_refused(alloc, out, &cause),
        Err(Refusal::NoMemory) => NO_MEMORY,
    }
}
